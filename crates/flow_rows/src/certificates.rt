//! Whether lowerings are a certificate of a choice, or lead to a dead end.
ghost use Rattle.fw_model.specs.Offers.{AreOffersOf};

use crate::choices::offers;
use fw_certify::{Certificate, Verdict, is_dead_end, verify};
use fw_flow::{Cause, Choice, Cuts, Flow, Fronts, Lowering, Offer, Part, Side};
use row_words::{Answers, NoAnswer, Row, cut_of, edge_of, front_of, node_of, part, tell_row};
use std::alloc::{AllocError, Global};
use std::fmt::Write;

/// A flow, the lines of its row, and what its nodes offer.
#[derive(Drop)]
struct Certified<'a> {
    alloc: Global,
    flow: &'a Flow,
    lines: &'a str,
    offers: Vec<Offer>,
}

/// Tells the answers to lines about certificates.
pub fn tell(alloc: Global, flow: &Flow, row: Row<'_>, told: &mut String) -> Result<(), AllocError> {
    match offers(alloc, flow, row.lines) {
        Ok(offers) => {
            let mut certified = Certified {
                alloc,
                flow,
                lines: row.lines,
                offers,
            };
            tell_row(alloc, row, &mut certified, told)
        }
        Err(_) => told.push_str("no offers\n"),
    }
}

impl Answers for Certified<'_> {
    ghost stands = { λ certified. AreOffersOf certified.flow.now certified.offers.items };

    fn answer(&mut self, line: &str, said: &mut String) -> Result<(), NoAnswer> {
        let (word, rest) = part(line);
        match word {
            "verify" => say_verdict(self.alloc, self.flow, &self.offers, self.lines, rest, said),
            "dead_end" => say_dead_end(self.alloc, self.flow, &self.offers, self.lines, rest, said),
            _ => Err(NoAnswer::NotAsked),
        }
    }
}

/// Says whether the entries of these names show that the choice of the first name is the largest.
fn say_verdict(
    alloc: Global,
    flow: &Flow,
    offers: &[Offer],
    lines: &str,
    text: &str,
    said: &mut String,
) -> Result<(), NoAnswer>
    requires { AreOffersOf flow.now offers.now }
{
    let (name, entries) = part(text);
    let choice = choice_of(alloc, lines, name)?;
    say_tested(alloc, flow, offers, lines, entries, &choice, said)
}

/// Says whether the entries of these names show that a choice is the largest.
fn say_tested(
    alloc: Global,
    flow: &Flow,
    offers: &[Offer],
    lines: &str,
    entries: &str,
    choice: &Choice,
    said: &mut String,
) -> Result<(), NoAnswer>
    requires { AreOffersOf flow.now offers.now }
{
    let certificate = certificate_of(alloc, flow, lines, entries)?;
    match verify(alloc, flow, offers, choice, &certificate)? {
        Verdict::Yes => said.push_str("yes")?,
        Verdict::No { at } => write!(said, "no at {at}")?,
    }
    Ok(())
}

/// Says whether the entries of these names lead to values at which nothing is left for a side.
fn say_dead_end(
    alloc: Global,
    flow: &Flow,
    offers: &[Offer],
    lines: &str,
    text: &str,
    said: &mut String,
) -> Result<(), NoAnswer>
    requires { AreOffersOf flow.now offers.now }
{
    let (word, rest) = part(text);
    let (name, entries) = part(rest);
    let side = side_of(flow, word, name)?;
    let certificate = certificate_of(alloc, flow, lines, entries)?;
    if is_dead_end(alloc, flow, offers, &certificate, side)? {
        said.push_str("yes")?;
    } else {
        said.push_str("no")?;
    }
    Ok(())
}

/// The side of a word and the name of its edge or node.
fn side_of(flow: &Flow, word: &str, name: &str) -> Result<Side, NoAnswer> {
    match word {
        "delivered" => Ok(Side::Delivered(edge_of(flow, name)?)),
        "discarded" => Ok(Side::Discarded(edge_of(flow, name)?)),
        "notified" => Ok(Side::Notified(node_of(flow, name)?)),
        _ => Err(NoAnswer::NotSpelled),
    }
}

/// What the line of this word says of a name, and then of another.
fn said_of<'a>(lines: &'a str, word: &str, name: &str) -> Result<&'a str, NoAnswer> {
    for line in lines.lines() {
        let (first, rest) = part(line);
        let (second, what) = part(rest);
        if first == word && second == name {
            return Ok(what);
        }
    }
    Err(NoAnswer::NotSpelled)
}

/// The choice of a name: of its line the cut and the notification frontier of each node, in their order, with strokes between the
/// nodes.
fn choice_of(alloc: Global, lines: &str, name: &str) -> Result<Choice, NoAnswer> {
    let mut cuts = Vec::new(alloc);
    let mut notices = Vec::new(alloc);
    for words in said_of(lines, "choice", name)?.split('|') {
        let Some((cut, notice)) = words.split_once(',') else {
            return Err(NoAnswer::NotSpelled);
        };
        cuts.push(cut_of(alloc, cut.trim())?)?;
        notices.push(front_of(alloc, notice.trim())?)?;
    }
    Ok(Choice {
        cuts: Cuts::of(cuts),
        notices: Fronts::of(notices),
    })
}

/// The certificate of the entries of these names.
fn certificate_of(
    alloc: Global,
    flow: &Flow,
    lines: &str,
    names: &str,
) -> Result<Certificate, NoAnswer> {
    let mut entries = Vec::new(alloc);
    for name in names.split_whitespace() {
        entries.push(entry_of(alloc, flow, said_of(lines, "down", name)?)?)?;
    }
    Ok(Certificate::of(entries))
}

/// An entry: its node, `cut` or `note`, to what it is lowered, and after `by` its cause.
fn entry_of(alloc: Global, flow: &Flow, text: &str) -> Result<Lowering, NoAnswer> {
    let (node, rest) = part(text);
    let (value, rest) = part(rest);
    let Some((to, cause)) = rest.split_once(" by ") else {
        return Err(NoAnswer::NotSpelled);
    };
    let node = node_of(flow, node)?;
    let part = part_of(value)?;
    let by = cause_of(flow, cause)?;
    let to = cut_of(alloc, to.trim())?;
    Ok(Lowering { node, part, to, by })
}

/// The part of a node that is spelled so.
fn part_of(word: &str) -> Result<Part, NoAnswer> {
    match word {
        "cut" => Ok(Part::Cut),
        "note" => Ok(Part::Note),
        _ => Err(NoAnswer::NotSpelled),
    }
}

/// A cause, with the name of its edge.
fn cause_of(flow: &Flow, text: &str) -> Result<Cause, NoAnswer> {
    let (word, name) = part(text);
    match word {
        "delivered" => Ok(Cause::Delivered(edge_of(flow, name)?)),
        "discarded" => Ok(Cause::Discarded(edge_of(flow, name)?)),
        "notified" => Ok(Cause::Notified),
        "own" => Ok(Cause::Own),
        "note" => Ok(Cause::Note(edge_of(flow, name)?)),
        _ => Err(NoAnswer::NotSpelled),
    }
}
