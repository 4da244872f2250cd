//! What a select does to a rec.
ghost use Rattle.std.specs.Prelude.{◌≡◌};
ghost use Rattle.fw_bag.specs.Select.{field_number, term_number, compares, holds, new_value, assigned_rec, selected_rec};

use crate::Rec;

/// One of the two numbers of a rec.
#[derive(Clone, Copy, Debug, PartialEq, Eq)]
pub enum Field {
    /// Its key.
    Key,
    /// Its value.
    Value,
}

/// How a condition compares a field with its term.
#[derive(Clone, Copy, Debug, PartialEq, Eq)]
pub enum Comparison {
    /// Both numbers are the same.
    Equal,
    /// They differ.
    NotEqual,
    /// The field is less than the term.
    Less,
    /// The field is at most the term.
    LessOrEqual,
    /// The field is greater than the term.
    Greater,
    /// The field is at least the term.
    GreaterOrEqual,
}

/// What a field is compared with: a number, or a field of the same rec.
#[derive(Clone, Copy, Debug, PartialEq, Eq)]
pub enum Term {
    /// A number.
    Number(u64),
    /// A field of the rec.
    Field(Field),
}

/// A comparison of a field with a term, both of the rec as it came.
#[derive(Clone, Copy, Debug, PartialEq, Eq)]
pub struct Condition {
    /// What is compared.
    pub field: Field,
    /// How.
    pub comparison: Comparison,
    /// With what.
    pub term: Term,
}

/// What is assigned to a field, of the rec as it came. Sums are modulo 2^64.
#[derive(Clone, Copy, Debug, PartialEq, Eq)]
pub enum NewValue {
    /// A number.
    Number(u64),
    /// A field of the rec.
    Field(Field),
    /// The sum of a field of the rec and a number.
    FieldPlus(Field, u64),
}

/// An assignment to one field of a rec.
#[derive(Clone, Copy, Debug, PartialEq, Eq)]
pub struct Assignment {
    /// To which field.
    pub field: Field,
    /// What.
    pub value: NewValue,
}

/// What a node does to a rec: it sends the rec on if the condition holds, after the assignment if there is one.
#[derive(Clone, Copy, Debug, PartialEq, Eq)]
pub struct Selection {
    /// Which recs are sent on.
    pub condition: Condition,
    /// What is assigned to those, if anything.
    pub assignment: Option<Assignment>,
}

impl Field {
    /// The field's number in a rec.
    pub fn of(self, rec: Rec) -> u64
        ensures { result ≡ field_number self rec }
    {
        match self {
            Field::Key => rec.key,
            Field::Value => rec.value,
        }
    }
}

impl Comparison {
    /// Whether the comparison holds between `left`, on its left, and `right`.
    pub fn compares(self, left: u64, right: u64) -> bool
        ensures { result ≡ compares self left right }
    {
        match self {
            Comparison::Equal => left == right,
            Comparison::NotEqual => left != right,
            Comparison::Less => left < right,
            Comparison::LessOrEqual => left <= right,
            Comparison::Greater => left > right,
            Comparison::GreaterOrEqual => left >= right,
        }
    }
}

impl Term {
    /// The term's number at a rec.
    pub fn of(self, rec: Rec) -> u64
        ensures { result ≡ term_number self rec }
    {
        match self {
            Term::Number(number) => number,
            Term::Field(field) => field.of(rec),
        }
    }
}

impl Condition {
    /// Whether the condition holds of a rec.
    pub fn holds(&self, rec: Rec) -> bool
        ensures { result ≡ holds self.now rec }
    {
        self.comparison
            .compares(self.field.of(rec), self.term.of(rec))
    }
}

impl NewValue {
    /// The new number at a rec.
    pub fn of(self, rec: Rec) -> u64
        ensures { result ≡ new_value self rec }
    {
        match self {
            NewValue::Number(number) => number,
            NewValue::Field(field) => field.of(rec),
            NewValue::FieldPlus(field, number) => field.of(rec).wrapping_add(number),
        }
    }
}

impl Assignment {
    /// The rec with the new number in the field.
    pub fn apply(&self, rec: Rec) -> Rec
        ensures { result ≡ assigned_rec self.now rec }
    {
        let number = self.value.of(rec);
        match self.field {
            Field::Key => Rec { key: number, ..rec },
            Field::Value => Rec {
                value: number,
                ..rec
            },
        }
    }
}

impl Selection {
    /// The rec that is sent on for this one, or `None` where the condition does not hold of it.
    pub fn apply(&self, rec: Rec) -> Option<Rec>
        ensures { result ≡ selected_rec self.now rec }
    {
        if !self.condition.holds(rec) {
            return None;
        }
        match &self.assignment {
            None => Some(rec),
            Some(assignment) => Some(assignment.apply(rec)),
        }
    }
}
