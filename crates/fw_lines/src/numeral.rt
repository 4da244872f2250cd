//! Words taken as numbers.
/// What a word spells, taken as a number.
#[derive(Clone, Copy, Debug, PartialEq, Eq)]
pub enum Number {
    /// A number below 2^64.
    Value(u64),
    /// A number that is well spelled, from 2^64 on.
    TooLarge,
    /// No number.
    NotANumber,
}
