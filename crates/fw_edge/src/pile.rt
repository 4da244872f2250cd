//! The messages at one stamp.
ghost use Rattle.std.specs.Prelude.{◌≡◌, [], ◌∷◌, length, drop, slice_get, IfOk, OnOk, OnErr};
ghost use Rattle.std.specs.Option.{option_copied};
ghost use Rattle.fw_frontier.specs.Front.{inside};
ghost use Rattle.fw_model.specs.Filtering.{messages_from};
ghost use Rattle.fw_model.specs.SortedMessages.{with_message, sorted_messages};

use crate::message::comes_from;
use fw_flow::Message;
use fw_frontier::Front;
use std::alloc::{AllocError, Global};
use std::cmp::Reverse;
use std::collections::BinaryHeap;
use std::marker::Model;

/// Messages, each any number of times, given out in ascending order. Contracts see their ascending list. A pile from which all
/// were taken keeps its room.
#[derive(Debug, Drop)]
pub struct Pile {
    heap: BinaryHeap<Reverse<Message>>,
}

impl Model for Pile {
    ghost use Rattle.std.specs.Prelude.{List};
    ghost use Rattle.std.specs.BinaryHeap.{heap_items};
    ghost use Rattle.fw_flow.specs.declared.event.Message.{Message};
    ghost use Rattle.fw_edge.specs.Piles.{heaped_messages, IsLeastFirst};

    ghost Value = { List Message };

    ghost view = { λ pile. heaped_messages (heap_items pile.heap) };

    ghost invariant = { λ pile. IsLeastFirst (heap_items pile.heap) };
}

impl Pile {
    /// No message, in memory from `alloc`.
    pub fn new(alloc: Global) -> Self
        ensures { result ≡ [] }
    {
        Pile {
            heap: BinaryHeap::new(alloc),
        }
    }

    /// One message. The error is want of memory.
    pub fn of(alloc: Global, message: Message) -> Result<Self, AllocError>
        ensures { IfOk result (λ pile. pile ≡ message ∷ []) }
    {
        let mut pile = Pile::new(alloc);
        pile.put(message)?;
        Ok(pile)
    }

    /// Puts a message in. The error is want of memory.
    pub fn put(&mut self, message: Message) -> Result<(), AllocError>
        ensures ok { OnOk result (self.new ≡ with_message message self.old) }
        ensures err { OnErr result (self.new ≡ self.old) }
    {
        self.heap.push(Reverse(message))?;
        Ok(())
    }

    /// Takes the first message out.
    pub fn take_first(&mut self) -> Option<Message>
        ensures value { result ≡ slice_get self.old 0 }
        ensures rest { self.new ≡ drop 1 self.old }
    {
        let Reverse(message) = self.heap.pop()?;
        Some(message)
    }

    /// The first message.
    pub fn first(&self) -> Option<&Message>
        ensures { option_copied result ≡ slice_get self.now 0 }
    {
        let first = self.heap.peek()?;
        Some(&first.0)
    }

    /// Drops all messages.
    pub fn clear(&mut self)
        ensures { self.new ≡ [] }
    {
        self.heap.clear();
    }

    /// Keeps the messages all of whose causes are inside.
    pub fn keep_causes(&mut self, f: &Front)
        ensures { self.new ≡ messages_from (inside f.now) self.old }
    {
        self.heap.retain(|message| comes_from(&message.0, f));
    }

    /// How many messages there are, in constant time.
    pub fn len(&self) -> usize
        ensures len { result ≡ length self.now }
        ensures ascending { sorted_messages self.now ≡ self.now }
    {
        self.heap.len()
    }
}
