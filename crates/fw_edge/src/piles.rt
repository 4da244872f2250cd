//! Messages by their stamps.
ghost use Rattle.std.specs.Prelude.{◌≡◌, find, IfSome, IfNone, OnOk, OnErr};
ghost use Rattle.std.specs.Option.{option_copied};
ghost use Rattle.fw_time.specs.Stamp.{same};
ghost use Rattle.fw_frontier.specs.Front.{inside};
ghost use Rattle.fw_flow.specs.Counting.{how_many};
ghost use Rattle.fw_flow.specs.Message.{messages_without};
ghost use Rattle.fw_model.specs.Filtering.{messages_from};
ghost use Rattle.fw_model.specs.SortedMessages.{with_message};
ghost use Rattle.fw_edge.specs.Piles.{piled_messages, ArePiles};

use crate::pile::Pile;
use fw_flow::Message;
use fw_frontier::Front;
use fw_time::Stamp;
use std::alloc::{AllocError, Global};
use std::collections::BTreeMap;
use std::collections::btree_map::Entry;

/// Puts a message in. The error is want of memory.
pub fn put(
    alloc: Global,
    piles: &mut BTreeMap<Stamp, Pile>,
    message: Message,
) -> Result<(), AllocError>
    requires { ArePiles piles.old.entries }
    ensures piles { ArePiles piles.new.entries }
    ensures ok { OnOk result (piled_messages piles.new.entries ≡ with_message message (piled_messages piles.old.entries)) }
    ensures err { OnErr result (piles.new.entries ≡ piles.old.entries) }
{
    match piles.entry(message.at.copy())? {
        Entry::Occupied(pile) => pile.into_mut().put(message)?,
        Entry::Vacant(place) => {
            place.insert(Pile::of(alloc, message)?);
        }
    }
    Ok(())
}

/// Takes the first message at a stamp out.
pub fn take_at(piles: &mut BTreeMap<Stamp, Pile>, at: &Stamp) -> Option<Message>
    requires { ArePiles piles.old.entries }
    ensures piles { ArePiles piles.new.entries }
    ensures value { result ≡ find (λ m. same at.now m.at) (piled_messages piles.old.entries) }
    ensures taken { IfSome result
        (λ m. piled_messages piles.new.entries ≡ messages_without m (piled_messages piles.old.entries)) }
    ensures unchanged { IfNone result (piles.new.entries ≡ piles.old.entries) }
{
    let pile = piles.get_mut(at)?;
    let message = pile.take_first();
    if pile.len() == 0 {
        piles.remove(at);
    }
    message
}

/// The first message at a stamp.
pub fn first_at<'a>(piles: &'a BTreeMap<Stamp, Pile>, at: &Stamp) -> Option<&'a Message>
    requires { ArePiles piles.now.entries }
    ensures { option_copied result ≡ find (λ m. same at.now m.at) (piled_messages piles.now.entries) }
{
    piles.get(at)?.first()
}

/// How many messages are at a stamp.
pub fn count_at(piles: &BTreeMap<Stamp, Pile>, at: &Stamp) -> usize
    requires { ArePiles piles.now.entries }
    ensures { result ≡ how_many (λ m. same at.now m.at) (piled_messages piles.now.entries) }
{
    match piles.get(at) {
        Some(pile) => pile.len(),
        None => 0,
    }
}

/// Keeps the messages all of whose causes are inside.
pub fn keep_causes(piles: &mut BTreeMap<Stamp, Pile>, f: &Front)
    requires { ArePiles piles.old.entries }
    ensures piles { ArePiles piles.new.entries }
    ensures kept { piled_messages piles.new.entries ≡ messages_from (inside f.now) (piled_messages piles.old.entries) }
{
    piles.retain(|_, pile| {
        pile.keep_causes(f);
        pile.len() > 0
    });
}
