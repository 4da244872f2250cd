//! What an event makes a node send.
ghost use Rattle.std.specs.Prelude.{◌≡◌, ◌≤◌, ◌↔◌, ◌∷◌, [], ◌++◌, length, IsTrue, IfOk, OnOk, OnErr, option_to_list};
ghost use Rattle.fw_table.specs.SmallRecs.{recs_of_few};

use fw_bag::Rec;
use fw_time::{Stamp, Time};
use std::alloc::{AllocError, Global};
use std::marker::Model;

/// Recs in order, of which one alone takes no memory. Contracts see their list.
#[derive(Debug, Drop)]
pub struct SentRecs {
    few: SmallRecs,
}

// The recs: at most one in place, or more in a vector.
#[derive(Debug, Drop)]
enum SmallRecs {
    AtMostOne(Option<Rec>),
    Many(Vec<Rec>),
}

impl Model for SentRecs {
    ghost use Rattle.std.specs.Prelude.{List};
    ghost use Rattle.fw_bag.specs.declared.rec.Rec.{Rec};
    ghost use Rattle.fw_table.specs.SmallRecs.{recs_of_few};

    ghost Value = { List Rec };

    ghost view = { λ recs. recs_of_few recs.few };
}

impl SentRecs {
    /// The rec alone, if there is one. It takes no memory.
    pub fn of(rec: Option<Rec>) -> Self
        ensures { result ≡ option_to_list rec }
    {
        SentRecs {
            few: SmallRecs::AtMostOne(rec),
        }
    }

    /// These recs.
    pub fn all(recs: Vec<Rec>) -> Self
        ensures { result ≡ recs.items }
    {
        SentRecs {
            few: SmallRecs::Many(recs),
        }
    }

    /// Puts a rec last. The first one takes no memory.
    ///
    /// It fails where memory is refused; then the recs are as they were.
    pub fn push(&mut self, alloc: Global, rec: Rec) -> Result<(), AllocError>
        ensures ok { OnOk result (self.new ≡ self.old ++ rec ∷ []) }
        ensures err { OnErr result (self.new ≡ self.old) }
    {
        let first = match &mut self.few {
            SmallRecs::Many(recs) => {
                recs.push(rec)?;
                return Ok(());
            }
            SmallRecs::AtMostOne(first) => *first,
        };
        self.few = match first {
            None => SmallRecs::AtMostOne(Some(rec)),
            Some(first) => pair(alloc, first, rec)?,
        };
        Ok(())
    }

    /// How many there are.
    pub fn len(&self) -> usize
        ensures { result ≡ length self.now }
    {
        self.as_slice().len()
    }

    /// Whether there are none.
    pub fn is_empty(&self) -> bool
        ensures { IsTrue result ↔ (self.now ≡ []) }
    {
        self.as_slice().is_empty()
    }

    /// The recs, in order.
    pub fn as_slice(&self) -> &[Rec]
        ensures { result.now ≡ self.now }
    {
        match &self.few {
            SmallRecs::AtMostOne(rec) => rec.as_slice(),
            SmallRecs::Many(recs) => recs,
        }
    }
}

// Two recs.
fn pair(alloc: Global, first: Rec, second: Rec) -> Result<SmallRecs, AllocError>
    ensures { IfOk result (λ few. recs_of_few few ≡ first ∷ second ∷ []) }
{
    let mut recs = Vec::new(alloc);
    recs.push(first)?;
    recs.push(second)?;
    Ok(SmallRecs::Many(recs))
}

/// What an event makes a node send: recs in order, all at one time.
#[derive(Debug, Drop)]
pub struct Sent<U> {
    /// The time.
    pub at: U,
    /// The recs. Where there are none, the time says nothing.
    pub recs: SentRecs,
}

impl<U> Sent<U> {
    /// The rec alone at a time, if there is one. It takes no memory.
    pub fn of(at: U, rec: Option<Rec>) -> Self
        ensures { result ≡ record { at = at; recs = option_to_list rec } }
    {
        Sent {
            at,
            recs: SentRecs::of(rec),
        }
    }
}

impl<T: Time> Sent<T> {
    /// The same recs at the time's stamp. It takes no memory.
    pub fn at_stamp(self) -> Sent<Stamp>
        requires { T.dimension ≤ 4 }
        ensures { result ≡ record { at = T.coords self.at; recs = self.recs } }
    {
        Sent {
            at: self.at.coords(),
            recs: self.recs,
        }
    }
}
