//! On which writes a write stands.
ghost use Rattle.std.specs.Prelude.{◌≡◌, ◌++◌, [], ◌∷◌, Some, reverse, IfOk, IfSome, IfNone};
ghost use Rattle.fw_keep.specs.Catalogue.{ids_of};
ghost use Rattle.fw_keep.specs.Joined as spec;

use crate::Entry;
use std::alloc::{AllocError, Global};

/// The ids of the write of this id, where one is given and there, and of those on which it stands: the lowest first, and that id
/// last. It looks at no entry before the lowest, if that one has no base; where a base is gone, it looks at all of them.
#[tactic(auto, using(crate::proofs::ChainLaws::chain_taken, crate::proofs::ChainLaws::chain_passed))]
pub(crate) fn chain_to(
    alloc: Global,
    entries: &[Entry],
    top: Option<u64>,
) -> Result<Vec<u64>, AllocError>
    ensures { IfOk result (λ ids. ids.items ≡ ids_of (spec.chain_to top (reverse entries.now))) }
{
    let mut chain = Vec::new(alloc);
    let mut wanted = top;
    let mut rest = entries;
    while let Some((entry, before, id)) = last_if_wanted(rest, wanted) {
        if entry.id == id {
            chain.push(id)?;
            wanted = entry.base;
        }
        rest = before;
    }
    chain.reverse();
    Ok(chain)
}

/// The last of the entries, with those before it and the id that is wanted, where one is.
fn last_if_wanted(entries: &[Entry], wanted: Option<u64>) -> Option<(&Entry, &[Entry], u64)>
    ensures some { IfSome result (λ x. (entries.now ≡ x.1.now ++ x.0.now ∷ []) × (wanted ≡ Some x.2)) }
    ensures none { IfNone result (spec.chain_to wanted (reverse entries.now) ≡ []) }
{
    let id = wanted?;
    let (entry, before) = entries.split_last()?;
    Some((entry, before, id))
}
