//! Stamps as they are written.
ghost use Rattle.std.specs.Prelude.{◌≡◌, ◌<◌, true, OnSome, if◌then◌else◌};
ghost use Rattle.std.specs.Str.Parse.{digits_value};
ghost use Rattle.fw_lines.specs.Spelling as spelling;
ghost use Rattle.fw_time.specs.Stamp.{leq};
ghost use Rattle.fw_schedule.specs.Stamps as spec;
ghost use Rattle.fw_schedule.specs.Stamps.{stamp_spelled};

use arrayvec::ArrayVec;
use fw_lines::{Number, number};
use fw_time::Stamp;

/// Whether a word is a stamp: numbers joined by dots.
pub fn is_stamp(word: &[u8]) -> bool
    ensures { result ≡ spec.is_stamp word.now }
{
    word.split(|byte| *byte == b'.').all(is_numeral)
}

/// The stamp that a word spells, if it has as many coordinates as the greatest one and none of them is greater.
pub fn stamp_up_to(word: &[u8], greatest: &Stamp) -> Option<Stamp>
    requires { spec.is_stamp word.now ≡ true }
    ensures { result
        ≡ (if leq (stamp_spelled word.now) greatest.now then Some (stamp_spelled word.now) else None) }
{
    let mut coords = ArrayVec::<u32, 4>::new();
    for part in word.split(|byte| *byte == b'.') {
        coords.push(coord_up_to(part, greatest, coords.len())?);
    }
    if coords.len() < greatest.len() {
        return None;
    }
    Some(Stamp::new(coords.as_slice()))
}

// The number of these digits, if the greatest stamp has a coordinate at the place that is not lesser.
fn coord_up_to(digits: &[u8], greatest: &Stamp, place: usize) -> Option<u32>
    requires { spelling.is_numeral digits.now ≡ true }
    ensures value { result ≡ spec.coord_up_to greatest.now place (digits_value 10 digits.now) }
    ensures few { OnSome result (place < 4) }
{
    if place < greatest.len() {
        number_up_to(digits, greatest.at(place))
    } else {
        None
    }
}

/// Whether a word is a number, of any length.
#[tactic(auto, unfolding(fw_lines::specs::Spelling::number_of))]
pub fn is_numeral(word: &[u8]) -> bool
    ensures { result ≡ spelling.is_numeral word.now }
{
    !matches!(number(word), Number::NotANumber)
}

/// The number of these digits, if it is at most the greatest one.
#[tactic(auto, unfolding(fw_lines::specs::Spelling::number_of))]
pub fn number_up_to(digits: &[u8], greatest: u32) -> Option<u32>
    requires { spelling.is_numeral digits.now ≡ true }
    ensures { result ≡ spec.if_at_most greatest (digits_value 10 digits.now) }
{
    match number(digits) {
        Number::Value(value) if value <= u64::from(greatest) => Some(value as u32),
        _ => None,
    }
}
