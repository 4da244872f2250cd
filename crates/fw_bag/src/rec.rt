//! Recs.
ghost use Rattle.std.specs.Prelude.{◌≡◌};

use std::fmt;
use std::marker::Model;

/// A record: a key and a value. Recs are ordered by key, and then by value.
#[derive(Clone, Copy, Debug, PartialEq, Eq, PartialOrd, Ord)]
pub struct Rec {
    /// The number by which a join and a sum find what belongs together.
    pub key: u64,
    /// The number that is added up.
    pub value: u64,
}

impl fmt::Display for Rec {
    ghost use Rattle.std.specs.Prelude.{Some};
    ghost use Rattle.fw_bag.specs.RecText.{rec_text};

    ghost output = { λ rec. Some (rec_text rec) };

    fn fmt<W: fmt::Write>(&self, f: &mut fmt::Formatter<W>) -> fmt::Result {
        write!(f, "{}:{}", self.key, self.value)
    }
}

/// Recs, one after the other. Contracts see their list.
#[derive(Debug, Drop)]
pub struct Recs {
    recs: Vec<Rec>,
}

impl Model for Recs {
    ghost use Rattle.std.specs.Prelude.{List};
    ghost use Rattle.fw_bag.specs.declared.rec.Rec.{Rec};

    ghost Value = { List Rec };

    ghost view = { λ recs. recs.recs.items };
}

impl Recs {
    /// These recs.
    pub fn of(recs: Vec<Rec>) -> Self
        ensures { result ≡ recs.items }
    {
        Recs { recs }
    }

    /// The recs, in order.
    pub fn as_slice(&self) -> &[Rec]
        ensures { result.now ≡ self.now }
    {
        &self.recs
    }
}
