//! What lines of a certificate have told so far.
ghost use Rattle.std.specs.Prelude.{◌≡◌, ◌&&◌, [], length, IfOk, OnOk};
ghost use Rattle.std.specs.List.{filter_map, list_all};
ghost use Rattle.std.specs.Option.{is_none, is_some};
ghost use Rattle.fw_offers_text.specs.CertificateGrammar.{is_number};
ghost use Rattle.fw_offers_text.specs.ClaimDraft as spec;
ghost use Rattle.fw_offers_text.specs.ClaimDraft.{claimed_by, claim_from, fault_behind, with_entry, EntryFits};

use crate::claim::{Claim, ClaimEntry, Ending};
use crate::code::ChoiceCode;
use fw_certify::Certificate;
use fw_flow::{Cut, Cuts, Flow, Lowering};
use fw_lines::Number;
use std::alloc::{AllocError, Global};
use std::marker::Model;

/// What was told. Contracts see it as lists.
#[derive(Debug, Drop)]
pub(crate) struct ClaimDraft {
    // To what each node is cut, once that is told.
    cuts: Vec<Option<Cut>>,
    lowerings: Vec<Lowering>,
    // That no cut of a node is left, once that is told.
    none_left: Option<Ending>,
    // Whether the last line was there.
    ended: bool,
}

impl Model for ClaimDraft {
    ghost use Rattle.fw_offers_text.specs.ClaimDraft.{ClaimTold};

    ghost Value = { ClaimTold };

    ghost view = { λ draft. record {
      cuts = draft.cuts.items;
      lowerings = draft.lowerings.items;
      none_left = draft.none_left;
      ended = draft.ended;
    } };
}

impl ClaimDraft {
    /// Nothing was told yet.
    pub(crate) fn new(alloc: Global, flow: &Flow) -> Result<Self, AllocError>
        ensures { IfOk result (λ draft. draft ≡ claimed_by flow.now []) }
    {
        let mut cuts = Vec::with_capacity(alloc, flow.nodes())?;
        for _place in 0..flow.nodes() {
            cuts.push(None)?;
        }
        Ok(ClaimDraft {
            cuts,
            lowerings: Vec::new(alloc),
            none_left: None,
            ended: false,
        })
    }

    /// Whether the last line was there.
    pub(crate) fn has_ended(&self) -> bool
        ensures { result ≡ self.now.ended }
    {
        self.ended
    }

    /// The rule that a line breaks whose stamps lie in their domains: C4 of what is told twice, C5 of the last line.
    pub(crate) fn fault(&self, entry: &ClaimEntry) -> Option<ChoiceCode>
        requires { EntryFits self.now entry.now }
        ensures { result ≡ fault_behind self.now entry.now }
    {
        match entry {
            ClaimEntry::Cut(node, _) if self.cuts[node.place() as usize].is_some() => {
                Some(ChoiceCode::C4)
            }
            ClaimEntry::NoneLeft(..) if self.none_left.is_some() => Some(ChoiceCode::C4),
            ClaimEntry::End(count, at_choice) if !self.takes_end(*count, *at_choice) => {
                Some(ChoiceCode::C5)
            }
            ClaimEntry::Cut(..)
            | ClaimEntry::Down(_)
            | ClaimEntry::NoneLeft(..)
            | ClaimEntry::End(..) => None,
        }
    }

    // Whether the last line has the number of lowerings, and fits the lines before it.
    fn takes_end(&self, count: Number, at_choice: bool) -> bool
        ensures { result ≡ (is_number (length self.now.lowerings) count && spec.is_fit_to_end self.now at_choice) }
    {
        is_count(count, self.lowerings.len()) && self.fits_the_end(at_choice)
    }

    // Whether each node is cut and none is told to have no cut left, or the other way round.
    fn fits_the_end(&self, at_choice: bool) -> bool
        ensures { result ≡ spec.is_fit_to_end self.now at_choice }
    {
        if at_choice {
            self.none_left.is_none() && self.is_each_cut()
        } else {
            self.none_left.is_some() && self.is_none_cut()
        }
    }

    // Whether each node is cut.
    fn is_each_cut(&self) -> bool
        ensures { result ≡ list_all (λ cut. is_some cut) self.now.cuts }
    {
        self.cuts.iter().all(|cut| cut.is_some())
    }

    // Whether no node is cut.
    fn is_none_cut(&self) -> bool
        ensures { result ≡ list_all (λ cut. is_none cut) self.now.cuts }
    {
        self.cuts.iter().all(|cut| cut.is_none())
    }

    /// Takes what a line says.
    pub(crate) fn tell(&mut self, entry: ClaimEntry) -> Result<(), AllocError>
        requires { EntryFits self.old entry }
        ensures { OnOk result (self.new ≡ with_entry self.old entry) }
    {
        match entry {
            ClaimEntry::Cut(node, cut) => self.cuts[node.place() as usize] = Some(cut),
            ClaimEntry::Down(lowering) => self.lowerings.push(lowering)?,
            ClaimEntry::NoneLeft(node, by) => self.none_left = Some(Ending::NoneLeft { node, by }),
            ClaimEntry::End(..) => self.ended = true,
        }
        Ok(())
    }

    /// What is claimed.
    pub(crate) fn into_claim(self, alloc: Global) -> Result<Claim, AllocError>
        ensures { IfOk result (λ claim. claim ≡ claim_from self) }
    {
        let ClaimDraft {
            cuts,
            lowerings,
            none_left,
            ended: _,
        } = self;
        let ending = match none_left {
            Some(ending) => ending,
            None => Ending::Largest(Cuts::of(all_told(alloc, cuts)?)),
        };
        Ok(Claim {
            lowerings: Certificate::of(lowerings),
            ending,
        })
    }
}

// Whether the number is this count.
fn is_count(number: Number, count: usize) -> bool
    ensures { result ≡ is_number count number }
{
    match number {
        Number::Value(value) => value == count as u64,
        Number::TooLarge | Number::NotANumber => false,
    }
}

// The cuts that were told.
fn all_told(alloc: Global, cuts: Vec<Option<Cut>>) -> Result<Vec<Cut>, AllocError>
    ensures { IfOk result (λ told. told.items ≡ filter_map (λ cut. cut) cuts.items) }
{
    let mut told = Vec::with_capacity(alloc, cuts.len())?;
    for cut in cuts {
        if let Some(cut) = cut {
            told.push(cut)?;
        }
    }
    Ok(told)
}
