//! The laws of calls over a store that lasts: each function's `ensures` is one law, and its body is empty.
ghost use Rattle.fw_relive.specs.LawsOfCalls.{CallsGoOn, CallsTellAgain, EmptyStoresMayBegin};

/// Over a store with no record a call may begin, whatever it reads.
pub fn empty_stores_may_begin()
    ensures { EmptyStoresMayBegin }
{}

/// However a call ended, one with the same words over what it left may begin, where the folder has the same texts.
pub fn lasting_calls_go_on()
    ensures { CallsGoOn }
{}

/// Where a store keeps a story and lines, a session over it goes on from this story, and tells these lines again.
pub fn lasting_calls_tell_again()
    ensures { CallsTellAgain }
{}
