//! Messages that may have to be sent again.
ghost use Rattle.std.specs.Prelude.{◌≡◌, [], true};
ghost use Rattle.std.specs.List.Sorted.{IsPermutation};
ghost use Rattle.fw_bytes.specs.Sound.{each_may_follow};
ghost use Rattle.fw_record.specs.Sound.{may_follow_logged};

use crate::rules::compare_logged;
use fw_flow::{EdgeId, Message};
use std::marker::Model;

/// A logged message. Logged messages are ordered by edge, stamp, causes and rec.
#[derive(Debug, PartialEq, Eq, Drop)]
pub struct Logged {
    /// The edge that it was sent on.
    pub edge: EdgeId,
    /// The message.
    pub message: Message,
}

/// Logged messages. Contracts see their list.
#[derive(Debug, Drop)]
pub struct Log {
    messages: Vec<Logged>,
}

impl Model for Log {
    ghost use Rattle.std.specs.Prelude.{List};
    ghost use Rattle.fw_record.specs.declared.logged.Logged.{Logged};

    ghost Value = { List Logged };

    ghost view = { λ log. log.messages.items };
}

impl Log {
    /// These messages.
    pub fn of(messages: Vec<Logged>) -> Self
        ensures { result ≡ messages.items }
    {
        Log { messages }
    }

    /// These messages, put into the order in which a log has a spelling. It takes no memory.
    pub fn sorted(messages: Vec<Logged>) -> Self
        ensures same { IsPermutation messages.items result }
        ensures in_order { each_may_follow may_follow_logged [] result ≡ true }
    {
        let mut messages = messages;
        messages.sort_unstable_by(|x, y| compare_logged(x, y));
        Log { messages }
    }

    /// The messages, in order.
    pub fn as_slice(&self) -> &[Logged]
        ensures { result.now ≡ self.now }
    {
        &self.messages
    }
}
