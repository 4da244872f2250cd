//! What the form of a line wants at a place.
use fw_flow::is_full_name;
use fw_lines::{Number, is_name, number};

/// What the form of a line wants at a place.
#[derive(Clone, Copy)]
pub(crate) enum Slot {
    /// `loop`, `node` or `edge`.
    Declaration,
    /// A name of this thing.
    Name(&'static str),
    /// A name of this thing, perhaps with the place of a part behind it.
    FullName(&'static str),
    /// The kind of a node.
    Kind,
    /// `epoch` or `number`.
    Domain,
    /// `key` or `value`.
    Field,
    /// A comparison.
    Comparison,
    /// A number or a field.
    Term,
    /// A number, which is this.
    Number(&'static str),
    /// This very word.
    Keyword(&'static str),
    /// `policy`, or what may stand before it.
    Policy,
    PolicyOrLoop,
    PolicyOrSet,
    PolicyOrSplit,
    PolicyOrLoopOrSplit,
    /// The word of a policy.
    PolicyName,
    /// `batch`.
    Batch,
    /// A key, a colon and a value.
    Record,
    /// The verb of a step.
    Verb,
    /// Numbers joined by dots.
    Stamp,
    /// The end of the line, for this reason.
    End(&'static str),
}

impl Slot {
    /// Whether a word may stand there.
    pub(crate) fn accepts(self, word: &[u8]) -> bool {
        match self {
            Slot::Name(_) => is_name(word),
            Slot::FullName(_) => is_full_name(word),
            Slot::Number(_) => is_number(word),
            Slot::Keyword(wanted) => word == wanted.as_bytes(),
            Slot::Term => is_one_of(word, self.words()) || is_number(word),
            Slot::Record => is_record(word),
            Slot::Stamp => is_stamp(word),
            Slot::End(_) => false,
            _ => is_one_of(word, self.words()),
        }
    }

    /// The words that may stand there, with a space between; none where they can't be listed.
    pub(crate) fn words(self) -> &'static [u8] {
        match self {
            Slot::Declaration => b"loop node edge".as_slice(),
            Slot::Kind => {
                b"input output select concat distinct join sum enter feedback leave total sequence ledger regroup".as_slice()
            }
            Slot::Domain => b"epoch number".as_slice(),
            Slot::Field | Slot::Term => b"key value".as_slice(),
            Slot::Comparison => b"= != < <= > >=".as_slice(),
            Slot::Policy => b"policy".as_slice(),
            Slot::PolicyOrLoop => b"policy loop".as_slice(),
            Slot::PolicyOrSet => b"policy loop set".as_slice(),
            Slot::PolicyOrSplit => b"policy split".as_slice(),
            Slot::PolicyOrLoopOrSplit => b"policy loop split".as_slice(),
            Slot::PolicyName => b"none lazy logged eager full".as_slice(),
            Slot::Batch => b"batch".as_slice(),
            Slot::Verb => {
                b"inject deliver notify progress checkpoint persist fail recover collect ack auto".as_slice()
            }
            Slot::Keyword(wanted) => wanted.as_bytes(),
            _ => b"".as_slice(),
        }
    }

    /// What stands around a word that is expected as it is.
    pub(crate) fn quote(self) -> &'static str {
        match self {
            Slot::Keyword(_) => "`",
            _ => "",
        }
    }

    /// What was expected, in words.
    pub(crate) fn wants(self) -> &'static str {
        match self {
            Slot::Declaration => "`loop`, `node` or `edge`",
            Slot::Name(what) | Slot::FullName(what) | Slot::Number(what) | Slot::End(what) => what,
            Slot::Kind => {
                "a kind (input, output, select, concat, distinct, join, sum, enter, feedback, leave, total, sequence, ledger or regroup)"
            }
            Slot::Domain => "`epoch` or `number`: what the output acknowledges",
            Slot::Field => "a field (key or value)",
            Slot::Comparison => "a comparison (=, !=, <, <=, > or >=) as a word of its own",
            Slot::Term => "a number or a field (key or value)",
            Slot::Keyword(wanted) => wanted,
            Slot::Policy => "`policy`",
            Slot::PolicyOrLoop => "`policy`, or `loop` and a loop's name before it",
            Slot::PolicyOrSet => "`policy`, or `set` or `loop` before it",
            Slot::PolicyOrSplit => "`policy`, or `split` and a number before it",
            Slot::PolicyOrLoopOrSplit => "`policy`, or `loop` or `split` before it",
            Slot::PolicyName => "a policy (none, lazy, logged, eager or full)",
            Slot::Batch => "`batch`",
            Slot::Record => "a rec as KEY:VALUE, two numbers and a colon",
            Slot::Verb => {
                "a step (inject, deliver, notify, progress, checkpoint, persist, fail, recover, collect, ack or auto)"
            }
            Slot::Stamp => "a stamp: numbers joined by dots, as 3 or 3.0",
        }
    }
}

/// Whether a word is one of those that stand in a text with a space between.
pub(crate) fn is_one_of(word: &[u8], words: &[u8]) -> bool {
    for other in words.split(|byte| *byte == b' ') {
        if other == word {
            return true;
        }
    }
    false
}

// Whether a word is a number, of any size.
fn is_number(word: &[u8]) -> bool {
    !matches!(number(word), Number::NotANumber)
}

/// Whether a word is a number from 2^64 on.
pub(crate) fn is_large(word: &[u8]) -> bool {
    matches!(number(word), Number::TooLarge)
}

// Whether a word is two numbers with a colon between.
fn is_record(word: &[u8]) -> bool {
    let mut parts = word.split(|byte| *byte == b':');
    match (parts.next(), parts.next(), parts.next()) {
        (Some(key), Some(value), None) => is_number(key) && is_number(value),
        _ => false,
    }
}

// Whether a word is numbers joined by dots.
fn is_stamp(word: &[u8]) -> bool {
    for part in word.split(|byte| *byte == b'.') {
        if !is_number(part) {
            return false;
        }
    }
    true
}
