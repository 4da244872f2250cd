//! The forms of lines: what their words tell, with names, stamps and numbers as written.
use crate::words::{CountWords, StampWords, Word};
use fw_flow::Part;
use std::marker::Model;

/// What a cover of a record is of: with the name of its edge if it has one.
#[derive(Drop)]
pub enum SideForm<'a> {
    /// Of what the node was notified.
    Notified,
    /// What was delivered on the edge.
    Delivered(Word<'a>),
    /// What was discarded on the edge.
    Discarded(Word<'a>),
}

/// A cover of a record: of what, and a frontier by its stamps.
#[derive(Drop)]
pub struct CoverForm<'a> {
    /// Of what.
    pub of: SideForm<'a>,
    /// The frontier.
    pub front: StampWords<'a>,
}

/// The covers of a record, in the order of its line. Contracts see their list.
#[derive(Drop)]
pub struct CoverForms<'a> {
    pub(crate) covers: Vec<CoverForm<'a>>,
}

impl<'a> Model for CoverForms<'a> {
    ghost use Rattle.std.specs.Prelude.{List};
    ghost use Rattle.fw_offers_text.specs.declared.form.CoverForm.{CoverForm};

    ghost Value = { List CoverForm };

    ghost view = { λ covers. covers.covers.items };
}

/// A line of offers.
#[derive(Drop)]
pub enum OfferForm<'a> {
    /// Whether the node is present.
    Node {
        name: Word<'a>,
        present: bool,
    },
    /// A frontier that the node recorded, by its stamps, and covers.
    Record {
        name: Word<'a>,
        front: StampWords<'a>,
        covers: CoverForms<'a>,
    },
    /// The range of the node, by two frontiers, and whether all is offered above it.
    Range {
        name: Word<'a>,
        least: StampWords<'a>,
        greatest: StampWords<'a>,
        and_all: bool,
    },
    /// Stamps of what came on the edge.
    Delivered {
        name: Word<'a>,
        stamps: StampWords<'a>,
    },
    /// Stamps of what was sent on the edge.
    Sent {
        name: Word<'a>,
        stamps: StampWords<'a>,
    },
    /// Stamps of which the node was notified.
    Notified {
        name: Word<'a>,
        stamps: StampWords<'a>,
    },
    /// How many messages the node sent, by epoch.
    Counts {
        name: Word<'a>,
        counts: CountWords<'a>,
    },
}

/// A cut.
#[derive(Drop)]
pub enum CutForm<'a> {
    /// `present`.
    Present,
    /// A frontier, by its stamps.
    At(StampWords<'a>),
}

/// A cause, with the name of its edge if it has one.
#[derive(Drop)]
pub enum CauseForm<'a> {
    /// `delivered` and an edge.
    Delivered(Word<'a>),
    /// `discarded` and an edge.
    Discarded(Word<'a>),
    /// `notified`.
    Notified,
    /// `own`.
    Own,
    /// `note` and an edge.
    Note(Word<'a>),
}

/// A line of a certificate.
#[derive(Drop)]
pub enum CertificateForm<'a> {
    /// To what the node is cut.
    Cut {
        name: Word<'a>,
        cut: CutForm<'a>,
    },
    /// To what one of the node's values is lowered, and why.
    Down {
        name: Word<'a>,
        part: Part,
        to: CutForm<'a>,
        by: CauseForm<'a>,
    },
    /// No cut of the node is left, and perhaps why.
    NoneLeft {
        name: Word<'a>,
        by: Option<CauseForm<'a>>,
    },
    /// The number of lowerings, and whether they lead to a choice.
    End {
        count: Word<'a>,
        at_choice: bool,
    },
}
