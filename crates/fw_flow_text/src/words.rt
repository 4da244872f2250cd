//! What a word spells: a number, a field, a comparison.
ghost use Rattle.std.specs.Prelude.{◌≡◌, ◌<◌, ◌^◌};
ghost use Rattle.std.specs.Fmt.{decimal};
ghost use Rattle.std.specs.List.{list_any};
ghost use Rattle.fw_lines.specs.Lines.{bytes_at};
ghost use Rattle.fw_flow_text.specs.Grammar as grammar;
ghost use Rattle.fw_flow_text.specs.Grammar.{Finds};
ghost use Rattle.fw_flow_text.specs.Spelled.{field_word, comparison_word, term_word, IsSmallTerm};

use fw_bag::{Comparison, Field, Term};
use fw_lines::{Number, Span, number};

// A word of a line as its form wants it: `0` stands for a number of 2^64 or more.
#[tactic(auto, unfolding(crate::specs::Grammar::capped))]
pub(crate) fn capped<'a>(text: &'a [u8], word: Span) -> &'a [u8]
    ensures { result.now ≡ grammar.capped (bytes_at text.now word) }
{
    let bytes = word.of(text);
    if is_large(bytes) {
        b"0".as_slice()
    } else {
        bytes
    }
}

// Whether there is a number of 2^64 or more among the words.
pub(crate) fn has_large(text: &[u8], words: &[Span]) -> bool
    ensures { result ≡ list_any (λ word. grammar.is_large_number (bytes_at text.now word)) words.now }
{
    words.iter().any(|word| is_large(word.of(text)))
}

// Whether the word is a number of 2^64 or more.
fn is_large(word: &[u8]) -> bool
    ensures { result ≡ grammar.is_large_number word.now }
{
    matches!(number(word), Number::TooLarge)
}

// The number that a word spells, if it is below 2^64.
pub(crate) fn numeral(word: &[u8]) -> Option<u64>
    ensures { Finds (λ n. (word.now ≡ decimal n) × (n < 2 ^ 64)) result }
{
    match number(word) {
        Number::Value(value) => Some(value),
        Number::TooLarge | Number::NotANumber => None,
    }
}

// The field of a rec that a word names.
pub(crate) fn field(word: &[u8]) -> Option<Field>
    ensures { Finds (λ field. word.now ≡ field_word field) result }
{
    match word {
        b"key" => Some(Field::Key),
        b"value" => Some(Field::Value),
        _ => None,
    }
}

// The comparison that a word names.
pub(crate) fn comparison(word: &[u8]) -> Option<Comparison>
    ensures { Finds (λ comparison. word.now ≡ comparison_word comparison) result }
{
    match word {
        b"=" => Some(Comparison::Equal),
        b"!=" => Some(Comparison::NotEqual),
        b"<" => Some(Comparison::Less),
        b"<=" => Some(Comparison::LessOrEqual),
        b">" => Some(Comparison::Greater),
        b">=" => Some(Comparison::GreaterOrEqual),
        _ => None,
    }
}

// The term that a word spells.
pub(crate) fn term(word: &[u8]) -> Option<Term>
    ensures { Finds (λ term. (word.now ≡ term_word term) × IsSmallTerm term) result }
{
    if let Some(field) = field(word) {
        return Some(Term::Field(field));
    }
    let number = numeral(word)?;
    Some(Term::Number(number))
}
