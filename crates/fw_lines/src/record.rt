//! Record words: a key and a value.
ghost use Rattle.std.specs.Prelude.{◌≡◌, ◌<◌, true, length, if◌then◌else◌};
ghost use Rattle.std.specs.List.{list_any, list_all, position_or_len};
ghost use Rattle.fw_lines.specs.Inputs as spec;
ghost use Rattle.fw_lines.specs.Lines.{is_allowed};
ghost use Rattle.fw_lines.specs.Inputs.{record_said, record_from, is_colon};

use crate::numeral::Number;
use crate::refusal::Code;
use crate::spelling::number;
use crate::text::{all_allowed, front_len};
use fw_bag::Rec;

/// What a record word says.
#[derive(Clone, Copy, Debug, PartialEq, Eq)]
pub enum RecordWord {
    /// A rec.
    Sound(Rec),
    /// Two numbers, of which one is from 2^64 on.
    Large,
    /// Nothing: it breaks this rule.
    Broken(Code),
}

impl RecordWord {
    /// Whether a number is too large.
    pub fn is_large(&self) -> bool
        ensures { result ≡ spec.has_large_number self.now }
    {
        matches!(self, RecordWord::Large)
    }
}

/// What a record word says: its key stands before the first colon and its value behind it.
#[tactic(auto, unfolding(crate::specs::Inputs::record_said))]
pub fn read_record(word: &[u8]) -> RecordWord
    ensures { result ≡ record_said word.now }
{
    if !word.contains(&b':') {
        return RecordWord::Broken(rule_without_colon(word));
    }
    let at = colon_place(word);
    rec_from(number(&word[..at]), number(&word[at + 1..]))
}

// The rule that a word without a colon breaks.
fn rule_without_colon(word: &[u8]) -> Code
    ensures { result ≡ (if list_all is_allowed word.now then Code.I4 else Code.I1) }
{
    if all_allowed(word) {
        Code::I4
    } else {
        Code::I1
    }
}

// How many bytes stand before the first colon.
fn colon_place(word: &[u8]) -> usize
    requires { list_any is_colon word.now ≡ true }
    ensures place { result ≡ position_or_len is_colon word.now }
    ensures within { result < length word.now }
{
    front_len(word, b':')
}

fn rec_from(key: Number, value: Number) -> RecordWord
    ensures { result ≡ record_from key value }
{
    match (key, value) {
        (Number::NotANumber, _) | (_, Number::NotANumber) => RecordWord::Broken(Code::I1),
        (Number::Value(key), Number::Value(value)) => RecordWord::Sound(Rec { key, value }),
        _ => RecordWord::Large,
    }
}
