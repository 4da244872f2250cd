//! Laws of what is counted and traced, and of how nodes settle in turn, each a function that does nothing: its clause is the law.
ghost use Rattle.fw_progress.specs.Laws.{TracesAreOfTheNode, OwedStaysInsideCuts, NoneSettledAtFirst, OthersSettleNothing};
ghost use Rattle.fw_progress.specs.Laws.{OneMoreSettles, SettledInTurnIsSettled};
ghost use Rattle.fw_progress.specs.Laws.{KnownStaysInsideCuts, KnownStaysWithLists, KnownIsTheTrace, InputsAreKnown, ToldIsKnown};

/// The traces of a node are those of each history in which it has the same events.
pub fn traces_are_of_the_node()
    ensures { TracesAreOfTheNode }
{}

/// What is known of a node's traces is known after a cut of it, of the events that each node keeps.
pub fn known_stays_inside_cuts()
    ensures { KnownStaysInsideCuts }
{}

/// What is known of a node's traces stays known where its lists are what they were.
pub fn known_stays_with_lists()
    ensures { KnownStaysWithLists }
{}

/// Where all of a node's events are known outside a base, and neither where it sent is asked nor how much, what is known is its
/// trace.
pub fn known_is_the_trace()
    ensures { KnownIsTheTrace }
{}

/// Where what is kept of an input has each stamp outside a base at which it sent, it is its trace.
pub fn inputs_are_known()
    ensures { InputsAreKnown }
{}

/// Where traces are told of an event, what is known of them is of the history, and they have one event more outside a base.
pub fn told_is_known()
    ensures { ToldIsKnown }
{}

/// What a node is owed of the events that each node keeps is what it was owed, at the stamps that it keeps.
pub fn owed_stays_inside_cuts()
    ensures { OwedStaysInsideCuts }
{}

/// Before the first node none settled.
pub fn none_settled_at_first()
    ensures { NoneSettledAtFirst }
{}

/// Where none from one place up to a later one is to settle, as much is settled before the later one.
pub fn others_settle_nothing()
    ensures { OthersSettleNothing }
{}

/// The next node that is to settle settles what it then settles alone.
pub fn one_more_settles()
    ensures { OneMoreSettles }
{}

/// Once each node that was to settle did so, one after the other, settled grew to what is complete.
pub fn settled_in_turn_is_settled()
    ensures { SettledInTurnIsSettled }
{}
