//! The selection of a select: a condition, and perhaps an assignment.
ghost use Rattle.std.specs.Prelude.{◌≡◌, ◌∷◌, [], ◌++◌, codes, Option, ℕ, List, MatchOption};
ghost use Rattle.fw_bag.specs.declared.select.Assignment.{Assignment};
ghost use Rattle.fw_bag.specs.declared.select.NewValue.{NewValue};
ghost use Rattle.fw_bag.specs.declared.select.Selection.{Selection};
ghost use Rattle.fw_flow.specs.declared.kind.Policy.{Policy};
ghost use Rattle.fw_flow_text.specs.Grammar.{Finds, capped_words};
ghost use Rattle.fw_flow_text.specs.Spelled.{value_words, condition_words, assignment_words, selection_words, ending_words, IsSmallTerm, IsSmallValue, IsSmallAssignment, IsSmall};

use crate::words::{capped, comparison, field, numeral, term};
use fw_bag::{Assignment, Condition, Field, NewValue, Selection, Term};
use fw_lines::Span;

// The selection that words begin with, and the words behind it: the only one, where an ending follows.
pub(crate) fn selection<'a>(text: &[u8], words: &'a [Span]) -> Option<(Selection, &'a [Span])>
    ensures sound { MatchOption result (Unit {0}) (λ found.
        (capped_words text.now words.now ≡ selection_words found.0 ++ capped_words text.now found.1.now) × IsSmall found.0) }
    ensures only { (selection : Selection) (within : Option (List ℕ)) (policy : Policy) → IsSmall selection
        → capped_words text.now words.now ≡ selection_words selection ++ ending_words within policy
        → MatchOption result ⊥ (λ found. (found.0 ≡ selection)
        × (capped_words text.now found.1.now ≡ ending_words within policy)) }
{
    let [field, comparison, term, rest @ ..] = words else {
        return None;
    };
    let condition = condition(
        capped(text, *field),
        capped(text, *comparison),
        capped(text, *term),
    )?;
    let (assignment, rest) = assignment(text, rest)?;
    let selection = Selection {
        condition,
        assignment,
    };
    Some((selection, rest))
}

// The condition that three words spell.
fn condition(left: &[u8], between: &[u8], right: &[u8]) -> Option<Condition>
    ensures { Finds (λ condition. (left.now ∷ between.now ∷ right.now ∷ [] ≡ condition_words condition)
        × IsSmallTerm condition.term) result }
{
    let field = field(left)?;
    let comparison = comparison(between)?;
    let term = term(right)?;
    Some(Condition {
        field,
        comparison,
        term,
    })
}

// The new value that words begin with, and the words behind it: the only one, where an ending follows.
fn value<'a>(text: &[u8], words: &'a [Span]) -> Option<(NewValue, &'a [Span])>
    ensures sound { MatchOption result (Unit {0}) (λ found.
        (capped_words text.now words.now ≡ value_words found.0 ++ capped_words text.now found.1.now) × IsSmallValue found.0) }
    ensures only { (value : NewValue) (within : Option (List ℕ)) (policy : Policy) → IsSmallValue value
        → capped_words text.now words.now ≡ value_words value ++ ending_words within policy
        → MatchOption result ⊥ (λ found. (found.0 ≡ value)
        × (capped_words text.now found.1.now ≡ ending_words within policy)) }
{
    if let [field, plus, number, rest @ ..] = words
        && capped(text, *plus) == b"plus".as_slice()
    {
        let value = sum(capped(text, *field), capped(text, *number))?;
        return Some((value, rest));
    }
    let [word, rest @ ..] = words else {
        return None;
    };
    let value = plain(capped(text, *word))?;
    Some((value, rest))
}

// The value that `FIELD plus NUMBER` spells.
fn sum(field_word: &[u8], number_word: &[u8]) -> Option<NewValue>
    ensures { Finds (λ value. (field_word.now ∷ codes "plus" ∷ number_word.now ∷ [] ≡ value_words value)
        × IsSmallValue value) result }
{
    let field = field(field_word)?;
    let number = numeral(number_word)?;
    Some(NewValue::FieldPlus(field, number))
}

// The value that a number or a field spells.
fn plain(word: &[u8]) -> Option<NewValue>
    ensures { Finds (λ value. (word.now ∷ [] ≡ value_words value) × IsSmallValue value) result }
{
    match term(word)? {
        Term::Number(number) => Some(NewValue::Number(number)),
        Term::Field(field) => Some(NewValue::Field(field)),
    }
}

// The assignment that words begin with, `None` where they do not begin with `set`, and the words behind it:
// the only one, where an ending follows.
fn assignment<'a>(text: &[u8], words: &'a [Span]) -> Option<(Option<Assignment>, &'a [Span])>
    ensures sound { MatchOption result (Unit {0}) (λ found.
        (capped_words text.now words.now ≡ assignment_words found.0 ++ capped_words text.now found.1.now)
        × IsSmallAssignment found.0) }
    ensures only { (assignment : Option Assignment) (within : Option (List ℕ)) (policy : Policy) → IsSmallAssignment assignment
        → capped_words text.now words.now ≡ assignment_words assignment ++ ending_words within policy
        → MatchOption result ⊥ (λ found. (found.0 ≡ assignment)
        × (capped_words text.now found.1.now ≡ ending_words within policy)) }
{
    if let [set, field_word, rest @ ..] = words
        && capped(text, *set) == b"set".as_slice()
    {
        let field = field(capped(text, *field_word))?;
        let (value, rest) = value(text, rest)?;
        return Some((Some(Assignment { field, value }), rest));
    }
    Some((None, words))
}
