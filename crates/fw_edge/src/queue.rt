//! What is pending on an edge.
ghost use Rattle.std.specs.Prelude.{◌≡◌, ◌↔◌, List, [], false, true, find, IsTrue, IsErr, IfSome, IfNone, OnOk, OnErr};
ghost use Rattle.std.specs.Option.{option_copied};
ghost use Rattle.fw_time.specs.Stamp.{same};
ghost use Rattle.fw_frontier.specs.Front.{inside};
ghost use Rattle.fw_flow.specs.declared.event.Message.{Message};
ghost use Rattle.fw_flow.specs.Counting.{how_many};
ghost use Rattle.fw_flow.specs.Message.{messages_without};
ghost use Rattle.fw_model.specs.Filtering.{messages_from};
ghost use Rattle.fw_model.specs.SortedMessages.{with_message, with_messages, sorted_messages};
ghost use Rattle.fw_model.specs.Steps.{is_asked};
ghost use Rattle.fw_edge.specs.Messages.{ArePutAfter};
ghost use Rattle.fw_edge.specs.Stamps.{counted_stamps};

use crate::bag::MessageBag;
use crate::stamps::PendingStamps;
use fw_flow::Message;
use fw_frontier::Front;
use fw_time::Stamp;
use std::alloc::{AllocError, Global};
use std::marker::Model;

/// The messages that are pending on an edge.
///
/// Contracts see them as one list, ascending by stamp, then rec, then causes. A queue to which memory was once refused takes
/// no more messages, and says so by an error each time.
#[derive(Debug, Drop)]
pub struct Queue {
    messages: MessageBag,
    refused: bool,
}

impl Model for Queue {
    ghost use Rattle.fw_edge.specs.Messages.{MessagesState};

    ghost Value = { MessagesState };

    ghost view = { λ queue. record { messages = queue.messages; refused = queue.refused } };
}

impl Queue {
    /// A queue in which nothing is pending, which takes its memory from `alloc`.
    pub fn new(alloc: Global) -> Self
        ensures { result ≡ record { messages = []; refused = false } }
    {
        Queue {
            messages: MessageBag::new(alloc),
            refused: false,
        }
    }

    /// Puts a message in.
    ///
    /// It fails where memory is refused, now or earlier.
    pub fn put(&mut self, message: Message) -> Result<(), AllocError>
        ensures ok { OnOk result (self.new ≡ record { messages = with_message message self.old.messages; refused = false }) }
        ensures err { OnErr result (self.new ≡ record { messages = self.old.messages; refused = true }) }
        ensures refused { IsTrue self.old.refused → IsErr result }
    {
        if self.refused {
            return Err(AllocError);
        }
        let put = self.messages.put(message);
        self.refused = put.is_err();
        put
    }

    /// Puts these messages in, from the last one on. It fails where `put` of one of them would, and then those after it are in.
    pub fn put_all(&mut self, messages: Vec<Message>) -> Result<(), AllocError>
        ensures ok { OnOk result
            (self.new ≡ record { messages = with_messages messages.items self.old.messages; refused = false }) }
        ensures err { OnErr result (self.new.refused ≡ true) }
        ensures partly { OnErr result
            ((left : List Message) × ArePutAfter left messages.items self.old.messages self.new.messages) }
        ensures refused { IsTrue self.old.refused → IsErr result }
    {
        if self.refused {
            return Err(AllocError);
        }
        let mut rest = messages;
        while let Some(message) = rest.pop() {
            self.put(message)?;
        }
        Ok(())
    }

    /// Takes out the first message that is asked for: at this stamp, or at any where none is given. None exactly where no
    /// message is. It takes no memory.
    pub fn take(&mut self, at: Option<&Stamp>) -> Option<Message>
        ensures value { result ≡ find (λ m. is_asked (option_copied at.entry) m.at) self.old.messages }
        ensures taken { IfSome result
            (λ m. self.new ≡ record self.old { messages = messages_without m self.old.messages }) }
        ensures unchanged { IfNone result (self.new ≡ self.old) }
    {
        self.messages.take(at)
    }

    /// The first message that is asked for: at this stamp, or at any where none is given. It takes no memory.
    pub fn first(&self, at: Option<&Stamp>) -> Option<&Message>
        ensures { option_copied result ≡ find (λ m. is_asked (option_copied at.entry) m.at) self.now.messages }
    {
        self.messages.first(at)
    }

    /// How many messages are pending at a stamp. It takes no memory.
    pub fn pending_at(&self, at: &Stamp) -> usize
        ensures { result ≡ how_many (λ m. same at.now m.at) self.now.messages }
    {
        self.messages.count_at(at)
    }

    /// The stamps at which messages are pending, in order, with how many are at each. It takes no memory.
    pub fn stamps(&self) -> PendingStamps<'_>
        ensures { result ≡ counted_stamps self.now.messages }
    {
        self.messages.stamps()
    }

    /// Whether nothing is pending.
    pub fn is_empty(&self) -> bool
        ensures empty { IsTrue result ↔ (self.now.messages ≡ []) }
        ensures ascending { sorted_messages self.now.messages ≡ self.now.messages }
    {
        self.messages.is_empty()
    }

    /// Drops all messages.
    pub fn clear(&mut self)
        ensures { self.new ≡ record self.old { messages = [] } }
    {
        self.messages.clear();
    }

    /// Keeps the messages all of whose causes are inside. It takes no memory.
    pub fn keep_causes(&mut self, f: &Front)
        ensures { self.new ≡ record self.old { messages = messages_from (inside f.now) self.old.messages } }
    {
        self.messages.keep_causes(f);
    }
}
