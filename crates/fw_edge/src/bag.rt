//! Bags of messages.
ghost use Rattle.std.specs.Prelude.{◌≡◌, ◌≢◌, ◌↔◌, [], ◌++◌, false, true, find, slice_get, Some, IsTrue, IfSome, IfNone, OnOk, OnErr};
ghost use Rattle.std.specs.Option.{option_copied};
ghost use Rattle.std.specs.declared.cmp.Ordering.TheVariants.{Less};
ghost use Rattle.fw_time.specs.Stamp.{same, stamp_cmp};
ghost use Rattle.fw_frontier.specs.Front.{inside};
ghost use Rattle.fw_flow.specs.Counting.{how_many};
ghost use Rattle.fw_flow.specs.Message.{messages_without};
ghost use Rattle.fw_model.specs.Filtering.{messages_from};
ghost use Rattle.fw_model.specs.SortedMessages.{with_message, sorted_messages};
ghost use Rattle.fw_model.specs.Steps.{is_asked};
ghost use Rattle.fw_edge.specs.Piles.{piled_messages, ArePiles, AreApart, IsApartUnlessNone};
ghost use Rattle.fw_edge.specs.Stamps.{counted_stamps};

use crate::pile::Pile;
use crate::piles;
use crate::stamps::PendingStamps;
use fw_flow::Message;
use fw_frontier::Front;
use fw_time::Stamp;
use std::alloc::{AllocError, Global};
use std::cmp::Ordering;
use std::collections::BTreeMap;
use std::collections::btree_map::Entry;
use std::marker::Model;
use std::mem;

/// Messages, each any number of times, found by their stamps. Those at the least stamp stand apart, since they are taken first.
/// Contracts see their ascending list.
#[derive(Debug, Drop)]
pub struct MessageBag {
    alloc: Global,
    // The least stamp, where there is a message.
    at: Stamp,
    // The messages at it.
    head: Pile,
    // Those at later stamps.
    rest: BTreeMap<Stamp, Pile>,
}

impl Model for MessageBag {
    ghost use Rattle.std.specs.Prelude.{List, ◌++◌};
    ghost use Rattle.fw_flow.specs.declared.event.Message.{Message};
    ghost use Rattle.fw_edge.specs.Piles.{piled_messages, AreApart};

    ghost Value = { List Message };

    ghost view = { λ bag. bag.head ++ piled_messages bag.rest.entries };

    ghost invariant = { λ bag. AreApart bag.at bag.head bag.rest.entries };
}

impl MessageBag {
    /// No message, in memory from `alloc`.
    pub fn new(alloc: Global) -> Self
        ensures { result ≡ [] }
    {
        MessageBag {
            alloc,
            at: Stamp::default(),
            head: Pile::new(alloc),
            rest: BTreeMap::new(alloc),
        }
    }

    /// Puts a message in. The error is want of memory.
    pub fn put(&mut self, message: Message) -> Result<(), AllocError>
        ensures ok { OnOk result (self.new ≡ with_message message self.old) }
        ensures err { OnErr result (self.new ≡ self.old) }
    {
        if self.head.len() == 0 {
            self.at = message.at.copy();
            return self.head.put(message);
        }
        match message.at.cmp(&self.at) {
            Ordering::Less => put_before(
                self.alloc,
                &mut self.at,
                &mut self.head,
                &mut self.rest,
                message,
            ),
            Ordering::Equal => self.head.put(message),
            Ordering::Greater => piles::put(self.alloc, &mut self.rest, message),
        }
    }

    /// Takes the first message out that is at the stamp, if one is asked for.
    pub fn take(&mut self, at: Option<&Stamp>) -> Option<Message>
        ensures value { result ≡ find (λ m. is_asked (option_copied at.entry) m.at) self.old }
        ensures taken { IfSome result (λ m. self.new ≡ messages_without m self.old) }
        ensures unchanged { IfNone result (self.new ≡ self.old) }
    {
        match elsewhere(at, &self.at) {
            Some(at) => piles::take_at(&mut self.rest, at),
            None => take_front(&mut self.at, &mut self.head, &mut self.rest),
        }
    }

    /// The first message that is at the stamp, if one is asked for.
    pub fn first(&self, at: Option<&Stamp>) -> Option<&Message>
        ensures { option_copied result ≡ find (λ m. is_asked (option_copied at.entry) m.at) self.now }
    {
        match elsewhere(at, &self.at) {
            Some(at) => piles::first_at(&self.rest, at),
            None => self.head.first(),
        }
    }

    /// How many messages are at a stamp.
    pub fn count_at(&self, at: &Stamp) -> usize
        ensures { result ≡ how_many (λ m. same at.now m.at) self.now }
    {
        if *at == self.at {
            return self.head.len();
        }
        piles::count_at(&self.rest, at)
    }

    /// The stamps of its messages, in order, with how many are at each.
    pub fn stamps(&self) -> PendingStamps<'_>
        ensures { result ≡ counted_stamps self.now }
    {
        PendingStamps::over(&self.at, &self.head, &self.rest)
    }

    /// Whether there is no message.
    pub fn is_empty(&self) -> bool
        ensures empty { IsTrue result ↔ (self.now ≡ []) }
        ensures ascending { sorted_messages self.now ≡ self.now }
    {
        self.head.len() == 0
    }

    /// Drops all messages.
    pub fn clear(&mut self)
        ensures { self.new ≡ [] }
    {
        self.head.clear();
        self.rest.clear();
    }

    /// Keeps the messages all of whose causes are inside.
    pub fn keep_causes(&mut self, f: &Front)
        ensures { self.new ≡ messages_from (inside f.now) self.old }
    {
        self.head.keep_causes(f);
        piles::keep_causes(&mut self.rest, f);
        advance(&mut self.at, &mut self.head, &mut self.rest);
    }
}

// The stamp that is asked for, if one is and it is not this one.
fn elsewhere<'a>(asked: Option<&'a Stamp>, at: &Stamp) -> Option<&'a Stamp>
    ensures other { IfSome result (λ s. (option_copied asked.entry ≡ Some s.now) × (same s.now at.now ≡ false)) }
    ensures here { IfNone result (is_asked (option_copied asked.entry) at.now ≡ true) }
{
    let asked = asked?;
    if *asked == *at {
        return None;
    }
    Some(asked)
}

// Puts a message in that is at a lesser stamp than all that are there. The error is want of memory.
fn put_before(
    alloc: Global,
    at: &mut Stamp,
    head: &mut Pile,
    rest: &mut BTreeMap<Stamp, Pile>,
    message: Message,
) -> Result<(), AllocError>
    requires some { head.old ≢ [] }
    requires apart { AreApart at.old head.old rest.old.entries }
    requires lesser { stamp_cmp message.at at.old ≡ Less }
    ensures apart { AreApart at.new head.new rest.new.entries }
    ensures ok { OnOk result
        (head.new ++ piled_messages rest.new.entries ≡ with_message message (head.old ++ piled_messages rest.old.entries)) }
    ensures err { OnErr result
        (head.new ++ piled_messages rest.new.entries ≡ head.old ++ piled_messages rest.old.entries) }
{
    let first = message.at.copy();
    let pile = Pile::of(alloc, message)?;
    if let Entry::Vacant(place) = rest.entry(at.copy())? {
        place.insert(mem::replace(head, pile));
        *at = first;
    }
    Ok(())
}

// Takes the first message of all out.
fn take_front(at: &mut Stamp, head: &mut Pile, rest: &mut BTreeMap<Stamp, Pile>) -> Option<Message>
    requires { AreApart at.old head.old rest.old.entries }
    ensures apart { AreApart at.new head.new rest.new.entries }
    ensures value { result ≡ slice_get head.old 0 }
    ensures taken { IfSome result (λ m. head.new ++ piled_messages rest.new.entries
        ≡ messages_without m (head.old ++ piled_messages rest.old.entries)) }
    ensures unchanged { IfNone result (head.new ++ piled_messages rest.new.entries
        ≡ head.old ++ piled_messages rest.old.entries) }
{
    let message = head.take_first()?;
    advance(at, head, rest);
    Some(message)
}

// Where no message is left at the least stamp, those at the next one stand apart.
fn advance(at: &mut Stamp, head: &mut Pile, rest: &mut BTreeMap<Stamp, Pile>)
    requires { IsApartUnlessNone at.old head.old rest.old.entries }
    ensures apart { AreApart at.new head.new rest.new.entries }
    ensures same { head.new ++ piled_messages rest.new.entries ≡ head.old ++ piled_messages rest.old.entries }
{
    if head.len() > 0 {
        return;
    }
    if let Some((next, pile)) = rest.pop_first() {
        *at = next;
        *head = pile;
    }
}
