//! How names and numbers are spelled.
ghost use Rattle.std.specs.Prelude.{◌≡◌, ◌+◌, ◌*◌};
ghost use Rattle.std.specs.Char.{is_ascii_digit, digit_value};
ghost use Rattle.std.specs.Int.{IsInRange};
ghost use Rattle.std.specs.List.{list_all};
ghost use Rattle.std.specs.Str.Parse.{digits_value, AllDigits};
ghost use Rattle.fw_lines.specs.Spelling as spec;
ghost use Rattle.fw_lines.specs.Spelling.{number_of, if_small};

use crate::numeral::Number;

/// The longest name, in bytes.
const NAME_LIMIT: usize = 32;

/// Whether a word is a name: 1 to 32 of `a` to `z`, `0` to `9` and `_`, the first of them a letter.
pub fn is_name(word: &[u8]) -> bool
    ensures { result ≡ spec.is_name word.now }
{
    match word {
        [] => false,
        [first, others @ ..] => {
            is_letter(*first) && others.len() < NAME_LIMIT && all_in_names(others)
        }
    }
}

fn is_letter(byte: u8) -> bool
    ensures { result ≡ spec.is_letter byte }
{
    matches!(byte, b'a'..=b'z')
}

fn all_in_names(bytes: &[u8]) -> bool
    ensures { result ≡ list_all spec.is_in_names bytes.now }
{
    bytes.iter().all(|byte| is_in_names(*byte))
}

fn is_in_names(byte: u8) -> bool
    ensures { result ≡ spec.is_in_names byte }
{
    is_letter(byte) || byte.is_ascii_digit() || byte == b'_'
}

/// The number that a word spells in decimal digits without a needless zero. It takes no memory.
#[tactic(auto, unfolding(crate::specs::Spelling::number_of))]
pub fn number(word: &[u8]) -> Number
    ensures { result ≡ number_of word.now }
{
    if !is_numeral(word) {
        return Number::NotANumber;
    }
    match value_of(word) {
        Some(value) => Number::Value(value),
        None => Number::TooLarge,
    }
}

fn is_numeral(word: &[u8]) -> bool
    ensures { result ≡ spec.is_numeral word.now }
{
    match word {
        [] => false,
        [only] => only.is_ascii_digit(),
        [first, ..] => *first != b'0' && all_digits(word),
    }
}

fn all_digits(word: &[u8]) -> bool
    ensures { result ≡ list_all is_ascii_digit word.now }
{
    word.iter().all(|byte| byte.is_ascii_digit())
}

// The value of digits, if it is below 2^64.
fn value_of(digits: &[u8]) -> Option<u64>
    requires { AllDigits 10 digits.now }
    ensures { result ≡ if_small (digits_value 10 digits.now) }
{
    let mut value = 0;
    for digit in digits {
        value = with_digit(value, *digit)?;
    }
    Some(value)
}

// The number that has one digit more, if it is below 2^64.
fn with_digit(value: u64, digit: u8) -> Option<u64>
    requires { IsInRange 48 57 digit }
    ensures { result ≡ if_small (value * 10 + digit_value digit) }
{
    value.checked_mul(10)?.checked_add(u64::from(digit - b'0'))
}
