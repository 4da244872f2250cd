//! Frontiers of a domain.
ghost use Rattle.fw_frontier.specs.Front.{IsCanonical};

use fw_frontier::Front;
use fw_time::{Bounds, Stamp};
use row_words::{
    Answers, NoAnswer, Row, columns, front_in, part, stamp_in, stamp_of, stamps_of, tell_row,
};
use std::alloc::{AllocError, Global};
use std::fmt::Write;

/// A domain.
#[derive(Drop)]
struct Domain {
    alloc: Global,
    bounds: Bounds,
}

/// Tells the answer to each line, in the domain that the last line `domain` before it names by its greatest stamp.
pub fn tell_domain(alloc: Global, row: Row<'_>, told: &mut String) -> Result<(), AllocError> {
    let bounds = Bounds {
        greatest: Stamp::new(&[u32::MAX]),
        sides: false,
    };
    tell_row(alloc, row, &mut Domain { alloc, bounds }, told)
}

impl Answers for Domain {
    ghost stands = { λ _. Unit {0} };

    fn answer(&mut self, line: &str, said: &mut String) -> Result<(), NoAnswer> {
        let (word, rest) = part(line);
        if word == "domain" {
            self.bounds.greatest = stamp_of(self.alloc, rest)?;
        }
        let front = front_asked(self.alloc, &self.bounds, line)?;
        write!(said, "{front}")?;
        Ok(())
    }
}

/// The frontier that a line asks for.
fn front_asked(alloc: Global, bounds: &Bounds, line: &str) -> Result<Front, NoAnswer> {
    let (word, rest) = part(line);
    match word {
        "domain" | "empty" => Ok(Front::empty(alloc, bounds)?),
        "cover" => cover(alloc, bounds, rest),
        "cut" => cut(alloc, bounds, rest),
        "meet" | "join" => of_both(alloc, bounds, word, rest),
        _ => front_in(alloc, line, bounds),
    }
}

/// The frontier of all that is at most one of some stamps.
fn cover(alloc: Global, bounds: &Bounds, words: &str) -> Result<Front, NoAnswer> {
    let tops = stamps_of(alloc, words)?;
    for top in &tops {
        if !top.in_domain(bounds) {
            return Err(NoAnswer::NotSpelled);
        }
    }
    Ok(Front::cover_of(alloc, &tops, bounds)?)
}

/// A frontier without a stamp and the greater ones.
fn cut(alloc: Global, bounds: &Bounds, text: &str) -> Result<Front, NoAnswer> {
    let (front, stamp) = columns(text, " and ");
    let stamp = stamp_in(alloc, stamp, bounds)?;
    let front = front_in(alloc, front, bounds)?;
    Ok(front.cut_above(&stamp)?)
}

/// What is inside both of two frontiers, or inside one of them.
fn of_both(alloc: Global, bounds: &Bounds, word: &str, text: &str) -> Result<Front, NoAnswer> {
    let (one, other) = columns(text, " and ");
    let one = front_in(alloc, one, bounds)?;
    let other = front_in(alloc, other, bounds)?;
    met_or_joined(&one, &other, bounds, word)
}

/// What is inside both of two frontiers of a domain, or else inside one of them.
fn met_or_joined(one: &Front, other: &Front, bounds: &Bounds, word: &str) -> Result<Front, NoAnswer>
    requires one { IsCanonical bounds.now one.now }
    requires other { IsCanonical bounds.now other.now }
{
    if word == "meet" {
        Ok(one.meet(other)?)
    } else {
        Ok(one.join(other, bounds)?)
    }
}
