//! What is fetched of a chain of checkpoints.
ghost use Rattle.fw_examples.specs.Fetched.{ChainIsFetched};

/// Three checkpoints of a running total, of which fetching makes one, and what the laws of fetching say of it.
#[tactic(auto, using(crate::proofs::Fetched::chain_is_fetched))]
pub fn chain_is_fetched()
    ensures { ChainIsFetched }
{}
