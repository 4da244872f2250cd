//! Recs at stamps.
ghost use Rattle.std.specs.Prelude.{◌≡◌};

use fw_bag::Rec;
use fw_time::Stamp;
use std::marker::Model;

/// A rec at a stamp. Timed recs are ordered by stamp, and then by rec.
#[derive(Debug, PartialEq, Eq, PartialOrd, Ord, Drop)]
pub struct Timed {
    at: Stamp,
    rec: Rec,
}

impl Model for Timed {
    ghost use Rattle.fw_flow.specs.WholeBags as whole;

    ghost Value = { whole.Timed };

    ghost view = { λ r. record { at = r.at; rec = r.rec } };

    ghost inverse = { λ r. record { at = r.at; rec = r.rec } };
}

impl Timed {
    /// The rec at the stamp.
    pub fn new(at: Stamp, rec: Rec) -> Self
        ensures { result ≡ record { at = at; rec = rec } }
    {
        Timed { at, rec }
    }

    /// The stamp.
    pub fn at(&self) -> &Stamp
        ensures { result.now ≡ self.now.at }
    {
        &self.at
    }

    /// The rec.
    pub fn rec(&self) -> Rec
        ensures { result ≡ self.now.rec }
    {
        self.rec
    }

    /// The same once more.
    pub fn copy(&self) -> Self
        ensures { result ≡ self.now }
    {
        Timed {
            at: self.at.copy(),
            rec: self.rec,
        }
    }
}
