//! What a node may have to send again on an edge.
ghost use Rattle.std.specs.Prelude.{◌≡◌, ◌↔◌, ◌&&◌, [], ◌∷◌, ◌++◌, false, true, not, filter, IsTrue, IsErr, IfOk, IfSome, OnOk, OnErr};
ghost use Rattle.fw_frontier.specs.Front.{inside};
ghost use Rattle.fw_flow.specs.Projection.{all_inside};
ghost use Rattle.fw_model.specs.Filtering.{messages_from, messages_outside};
ghost use Rattle.fw_model.specs.SortedMessages.{with_message, sorted_messages};
ghost use Rattle.fw_edge.specs.Causes.{ComeInTurn};

use crate::message::{comes_from, comes_no_later};
use fw_flow::Message;
use fw_frontier::Front;
use std::alloc::{AllocError, Global};
use std::marker::Model;

/// The messages that a node sent on an edge and may have to send again.
///
/// Contracts see them as one list, ascending by stamp, then rec, then causes, whatever the order of appending. A log to which
/// memory was once refused takes no more messages, and says so by an error each time.
#[derive(Debug, Drop)]
pub struct MsgLog {
    // In the order of appending.
    messages: Vec<Message>,
    // Whether the messages are known to ascend.
    ascends: bool,
    // Whether none of them is known to come later than one behind it.
    in_turn: bool,
    refused: bool,
}

impl Model for MsgLog {
    ghost use Rattle.std.specs.Prelude.{◌≡◌, IsTrue};
    ghost use Rattle.fw_model.specs.SortedMessages.{sorted_messages};
    ghost use Rattle.fw_edge.specs.Causes.{ComeInTurn};
    ghost use Rattle.fw_edge.specs.Messages.{MessagesState};

    ghost Value = { MessagesState };

    ghost view = { λ log. record { messages = sorted_messages log.messages.items; refused = log.refused } };

    ghost invariant = { λ log. (IsTrue log.ascends → sorted_messages log.messages.items ≡ log.messages.items)
        × (IsTrue log.in_turn → ComeInTurn log.messages.items) };
}

impl MsgLog {
    /// A log without messages, which takes its memory from `alloc`.
    pub fn new(alloc: Global) -> Self
        ensures { result ≡ record { messages = []; refused = false } }
    {
        MsgLog {
            messages: Vec::new(alloc),
            ascends: true,
            in_turn: true,
            refused: false,
        }
    }

    /// Appends a message. It fails where memory is refused, now or earlier.
    pub fn append(&mut self, message: Message) -> Result<(), AllocError>
        ensures ok { OnOk result (self.new ≡ record { messages = with_message message self.old.messages; refused = false }) }
        ensures err { OnErr result (self.new ≡ record { messages = self.old.messages; refused = true }) }
        ensures refused { IsTrue self.old.refused → IsErr result }
    {
        if self.refused {
            return Err(AllocError);
        }
        let ascends = ascend_with(&self.messages, self.ascends, &message);
        let in_turn = come_in_turn_with(&self.messages, self.in_turn, &message);
        if self.messages.push(message).is_err() {
            self.refused = true;
            return Err(AllocError);
        }
        self.ascends = ascends;
        self.in_turn = in_turn;
        Ok(())
    }

    /// Copies of the messages at stamps outside, in order. The only error is want of memory.
    pub fn outside(&self, f: &Front) -> Result<Vec<Message>, AllocError>
        ensures { IfOk result (λ ms. ms.items ≡ messages_outside (inside f.now) self.now.messages) }
    {
        let mut copies = Vec::with_capacity(*self.messages.allocator(), self.messages.len())?;
        for message in &self.messages {
            if !f.contains(&message.at) {
                copies.push(message.copy())?;
            }
        }
        Ok(in_order(copies, self.ascends))
    }

    /// The messages in order, as they lie, where they are known to ascend.
    pub fn ascending(&self) -> Option<&[Message]>
        ensures { IfSome result (λ ms. ms.now ≡ self.now.messages) }
    {
        if self.ascends {
            Some(&self.messages)
        } else {
            None
        }
    }

    /// Copies of the messages all of whose causes are inside, in order. The only error is want of memory.
    pub fn caused_in(&self, f: &Front) -> Result<Vec<Message>, AllocError>
        ensures { IfOk result (λ ms. ms.items ≡ messages_from (inside f.now) self.now.messages) }
    {
        let mut copies = Vec::with_capacity(*self.messages.allocator(), self.messages.len())?;
        for message in &self.messages {
            if comes_from(message, f) {
                copies.push_reserved(message.copy());
            }
        }
        Ok(in_order(copies, self.ascends))
    }

    /// Copies of the messages all of whose causes are inside, but not all inside an earlier frontier, in order. Of what came before
    /// nothing is copied, and where each message came no later than the next one nothing of it is looked at. Room is asked for as
    /// messages are copied. The only error is want of memory.
    pub fn caused_since(&self, earlier: &Front, f: &Front) -> Result<Vec<Message>, AllocError>
        ensures { IfOk result (λ ms. ms.items
            ≡ filter (λ m. not (all_inside (inside earlier.now) m.causes)) (messages_from (inside f.now) self.now.messages)) }
    {
        let messages = messages_since(&self.messages, self.in_turn, earlier);
        let copies = copies_since(*self.messages.allocator(), messages, earlier, f)?;
        Ok(in_order(copies, self.ascends))
    }

    /// Whether the log has no message.
    pub fn is_empty(&self) -> bool
        ensures empty { IsTrue result ↔ (self.now.messages ≡ []) }
        ensures ascending { sorted_messages self.now.messages ≡ self.now.messages }
    {
        self.messages.is_empty()
    }

    /// Drops all messages.
    pub fn clear(&mut self)
        ensures { self.new ≡ record self.old { messages = [] } }
    {
        self.messages.clear();
    }

    /// Keeps the messages all of whose causes are inside. It takes no memory.
    pub fn keep_causes(&mut self, f: &Front)
        ensures { self.new ≡ record self.old { messages = messages_from (inside f.now) self.old.messages } }
    {
        self.messages.retain(|message| comes_from(message, f));
    }

    /// Drops the messages at stamps inside: of what stays nothing is copied. It takes no memory.
    pub fn drop_inside(&mut self, f: &Front)
        ensures { self.new ≡ record self.old { messages = messages_outside (inside f.now) self.old.messages } }
    {
        self.messages.retain(|message| !f.contains(&message.at));
    }
}

// Messages among which are all that do not come from inside an earlier frontier: from the first of these on, found by halves, where
// they are known to come in turn, and else all.
fn messages_since<'a>(messages: &'a [Message], in_turn: bool, earlier: &Front) -> &'a [Message]
    requires { IsTrue in_turn → ComeInTurn messages.now }
    ensures { filter (λ m. not (all_inside (inside earlier.now) m.causes)) result.now
        ≡ filter (λ m. not (all_inside (inside earlier.now) m.causes)) messages.now }
{
    if !in_turn {
        return messages;
    }
    let first = messages.partition_point(|message| comes_from(message, earlier));
    &messages[first..]
}

// Copies of the messages all of whose causes are inside, but not all inside an earlier frontier.
fn copies_since(
    alloc: Global,
    messages: &[Message],
    earlier: &Front,
    f: &Front,
) -> Result<Vec<Message>, AllocError>
    ensures { IfOk result (λ ms. ms.items
        ≡ filter (λ m. not (all_inside (inside earlier.now) m.causes) && all_inside (inside f.now) m.causes) messages.now) }
{
    let mut copies = Vec::new(alloc);
    for message in messages {
        if comes_since(message, earlier, f) {
            copies.push(message.copy())?;
        }
    }
    Ok(copies)
}

// Whether all causes of a message are inside, but not all inside an earlier frontier. That is asked first: of a log that is looked
// at from its first message on most is from before.
fn comes_since(message: &Message, earlier: &Front, f: &Front) -> bool
    ensures { result ≡ (not (all_inside (inside earlier.now) message.now.causes) && all_inside (inside f.now) message.now.causes) }
{
    !comes_from(message, earlier) && comes_from(message, f)
}

// Whether messages are known to ascend with one more after them, where `ascend` tells whether they are known to.
fn ascend_with(messages: &[Message], ascend: bool, message: &Message) -> bool
    requires { IsTrue ascend → sorted_messages messages.now ≡ messages.now }
    ensures in_order { IsTrue result → sorted_messages (messages.now ++ message.now ∷ []) ≡ messages.now ++ message.now ∷ [] }
    ensures known { IsTrue ascend → sorted_messages (messages.now ++ message.now ∷ []) ≡ messages.now ++ message.now ∷ []
        → IsTrue result }
{
    match messages.last() {
        Some(last) => ascend && last.cmp(message).is_le(),
        None => true,
    }
}

// Whether messages are known to come in turn with one more behind them, where `in_turn` tells whether they are known to.
fn come_in_turn_with(messages: &[Message], in_turn: bool, message: &Message) -> bool
    requires { IsTrue in_turn → ComeInTurn messages.now }
    ensures in_turn { IsTrue result → ComeInTurn (messages.now ++ message.now ∷ []) }
    ensures known { IsTrue in_turn → ComeInTurn (messages.now ++ message.now ∷ []) → IsTrue result }
{
    match messages.last() {
        Some(last) => in_turn && comes_no_later(last, message),
        None => true,
    }
}

// The messages in ascending order, where `ascend` tells whether they are known to ascend.
fn in_order(messages: Vec<Message>, ascend: bool) -> Vec<Message>
    requires { IsTrue ascend → sorted_messages messages.items ≡ messages.items }
    ensures { result.items ≡ sorted_messages messages.items }
{
    let mut messages = messages;
    if !ascend {
        messages.sort_unstable();
    }
    messages
}
