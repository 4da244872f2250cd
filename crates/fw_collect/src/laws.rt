//! Laws of collections, each a function that does nothing: its clause is the law.
ghost use Rattle.fw_collect.specs.LawsOfCollections.{ForgetsBelowEach, DropsWhatIsGivenUp, DropsMessagesBelowReceivers, DropsBatchesOfInputs, LogsHoldWhatIsOutside, InputsHoldWhatIsOutside};

/// Below fronts that stand beside different nodes, as those of a plan do, an entry goes exactly where it is forgotten below some one of
/// them: none changes what another one finds.
#[tactic(auto, using(crate::proofs::ApplyLaws::forgets_below_each))]
pub fn forgets_below_each()
    ensures { ForgetsBelowEach }
{}

/// Of the entries that were planned with, those go that are given up, each by itself.
pub fn drops_what_is_given_up()
    ensures { DropsWhatIsGivenUp }
{}

/// What is planned leaves of each log what lies outside the receiver's front, where the sender may send again, and else all.
pub fn drops_messages_below_receivers()
    ensures { DropsMessagesBelowReceivers }
{}

/// What is planned leaves of each input's batches what lies outside its front.
pub fn drops_batches_of_inputs()
    ensures { DropsBatchesOfInputs }
{}

/// A log that holds what was sent outside the low watermark holds, after a collection, what was sent outside the one that
/// rose.
pub fn logs_hold_what_is_outside()
    ensures { LogsHoldWhatIsOutside }
{}

/// An input that holds its batches outside the low watermark holds, after a collection, those outside the one that rose.
pub fn inputs_hold_what_is_outside()
    ensures { InputsHoldWhatIsOutside }
{}
