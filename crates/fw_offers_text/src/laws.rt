//! The laws of what is read: each function's `ensures` is one law, and its body is empty.
ghost use Rattle.fw_offers_text.specs.Laws.{SoundStatementsAreOffers};

/// What statements offer that break no rule is of the flow, and the records of each node ascend.
pub fn sound_statements_are_offers()
    ensures { SoundStatementsAreOffers }
{}
