//! The lines of the file `run`: of each record its id and its digest.
ghost use Rattle.std.specs.Fmt.{decimal};
ghost use Rattle.hex.specs.Hex.{encode_lower};
ghost use Rattle.std.specs.Prelude.{◌≡◌, ◌↔◌, ℕ, ◌<◌, ◌≤◌, ◌^◌, List, [], ◌∷◌, ◌++◌, length, reverse, true, Some, None, IsTrue, IsSome, IfOk, IfSome, OnOk, OnErr, unwrap_or, string_bytes};
ghost use Rattle.fw_disk.specs.RunLines.{digest_line, line_words, IsDigest, IsRecordLine, AreEntries, whole_lines, line_told, told_then, digests_told, if_any, only_of, lines_under, text_of};
ghost use Rattle.fw_disk.specs.RunLines.{digests_of, digests_under, are_any, MayStand, HasLinesOf};

use crate::cuts::{first_piece, split_at_byte};
use hex::FromHex;
use std::alloc::{AllocError, Global};
use std::collections::BTreeMap;

/// The SHA-256 of a record's bytes.
pub(crate) type Digest = [u8; 32];

/// Fewer ids than these that are gone leave the file as it is.
const FEW: usize = 64;

/// Under each id that has a line the digests of the records that may stand there: none, where its record is gone.
#[derive(Drop)]
pub struct RunLines {
    alloc: Global,
    told: BTreeMap<u64, Vec<Digest>>,
    gone: usize,
}

impl RunLines {
    /// No line.
    pub(crate) fn new(alloc: Global) -> Self
        ensures { (id : ℕ) → digests_of result.told id ≡ None }
    {
        RunLines {
            alloc,
            told: BTreeMap::new(alloc),
            gone: 0,
        }
    }

    /// Whether an id has a line.
    pub(crate) fn has(&self, id: u64) -> bool
        ensures { IsTrue result ↔ IsSome (digests_of self.now.told id) }
    {
        self.told.contains_key(&id)
    }

    /// Whether a record stands under an id.
    pub(crate) fn stands(&self, id: u64) -> bool
        ensures { result ≡ are_any (digests_under self.now.told id) }
    {
        match self.told.get(&id) {
            Some(digests) => !digests.is_empty(),
            None => false,
        }
    }

    /// The digest of an id that has one alone.
    pub(crate) fn only(&self, id: u64) -> Option<Digest>
        ensures { result ≡ only_of (digests_under self.now.told id) }
    {
        match self.told.get(&id)?.as_slice() {
            [digest] => Some(*digest),
            _ => None,
        }
    }

    /// Whether a record with this digest may stand under an id: it has no line, or this one.
    pub(crate) fn may_stand(&self, id: u64, digest: &Digest) -> bool
        ensures { IsTrue result ↔ MayStand self.now.told id digest.now }
    {
        match self.told.get(&id) {
            Some(digests) => digests.contains(digest),
            None => true,
        }
    }

    /// A record with this digest may stand under an id from now on.
    pub(crate) fn add(&mut self, id: u64, digest: Digest) -> Result<(), AllocError>
        ensures added { OnOk result (digests_of self.new.told id ≡ Some (digest ∷ unwrap_or (digests_of self.old.told id) [])) }
        ensures refused { OnErr result (digests_of self.new.told id ≡ digests_of self.old.told id) }
        ensures others { (other : ℕ) → (other ≡ id → ⊥) → digests_of self.new.told other ≡ digests_of self.old.told other }
    {
        if let Some(digests) = self.told.get_mut(&id) {
            digests.insert(0, digest)?;
            return Ok(());
        }
        let mut digests = Vec::new(self.alloc);
        digests.push(digest)?;
        self.told.insert(id, digests)?;
        Ok(())
    }

    /// Gives a line to each id that has one in others and none here. No record stands under it.
    pub(crate) fn add_gone(&mut self, others: &RunLines) -> Result<(), AllocError>
        ensures same { OnOk result ((id : ℕ) → digests_under self.new.told id ≡ digests_under self.old.told id) }
        ensures have { OnOk result (HasLinesOf others.now.told self.new.told) }
    {
        for id in others.told.keys() {
            self.add_line(*id)?;
        }
        Ok(())
    }

    // Gives a line to an id that has none.
    fn add_line(&mut self, id: u64) -> Result<(), AllocError>
        ensures same { OnOk result ((other : ℕ) → digests_under self.new.told other ≡ digests_under self.old.told other) }
        ensures there { OnOk result (IsSome (digests_of self.new.told id)) }
        ensures stay { OnOk result (HasLinesOf self.old.told self.new.told) }
    {
        if self.has(id) {
            return Ok(());
        }
        self.told.insert(id, Vec::new(self.alloc))?;
        self.gone = self.gone.saturating_add(1);
        Ok(())
    }

    /// The record that was added last stands under its id, and no other can.
    pub(crate) fn last_stands(&mut self, id: u64)
        ensures last { (digest : List ℕ) (before : List (List ℕ)) → digests_of self.old.told id ≡ Some (digest ∷ before)
            → digests_of self.new.told id ≡ Some (digest ∷ []) }
        ensures others { (other : ℕ) → (other ≡ id → ⊥) → digests_of self.new.told other ≡ digests_of self.old.told other }
    {
        if let Some(digests) = self.told.get_mut(&id) {
            digests.truncate(1);
        }
    }

    /// The record that was added last was not put under its id.
    pub(crate) fn last_is_refused(&mut self, id: u64)
        ensures last { (digest : List ℕ) (before : List (List ℕ)) → digests_of self.old.told id ≡ Some (digest ∷ before)
            → digests_of self.new.told id ≡ Some before }
        ensures others { (other : ℕ) → (other ≡ id → ⊥) → digests_of self.new.told other ≡ digests_of self.old.told other }
    {
        self.gone = self.gone.saturating_add(1);
        if let Some(digests) = self.told.get_mut(&id) {
            if !digests.is_empty() {
                let _ = digests.remove(0);
            }
        }
    }

    /// No record stands under an id any more.
    pub(crate) fn is_removed(&mut self, id: u64)
        ensures none { digests_under self.new.told id ≡ [] }
        ensures others { (other : ℕ) → (other ≡ id → ⊥) → digests_of self.new.told other ≡ digests_of self.old.told other }
    {
        self.gone = self.gone.saturating_add(1);
        if let Some(digests) = self.told.get_mut(&id) {
            digests.clear();
        }
    }

    /// Whether most lines, and more than a few, are of ids that are gone.
    pub(crate) fn are_mostly_gone(&self) -> bool
        ensures { result ≡ true → 64 ≤ self.now.gone }
    {
        self.gone >= FEW && self.gone > self.told.len() / 2
    }

    /// Takes out the ids that are gone.
    pub(crate) fn forget_gone(&mut self)
        ensures { (id : ℕ) → digests_under self.new.told id ≡ digests_under self.old.told id }
    {
        self.told.retain(|_, digests| !digests.is_empty());
        self.gone = 0;
    }

    /// The lines of the ids that are not gone. Who reads them finds under each id the digests that it has here, in the other order.
    pub(crate) fn text(&self) -> Result<String, AllocError>
        ensures text { IfOk result (λ text. string_bytes text ≡ text_of self.now.told.entries) }
        ensures told { IfOk result (λ text. AreEntries self.now.told.entries → (id : ℕ) → digests_told (whole_lines (string_bytes text)) id ≡ reverse (digests_under self.now.told id)) }
    {
        let text = self.all_lines()?;
        Ok(text)
    }

    // The lines of each id after the other.
    fn all_lines(&self) -> Result<String, AllocError>
        ensures { IfOk result (λ text. string_bytes text ≡ text_of self.now.told.entries) }
    {
        let mut text = String::new(self.alloc);
        for (id, digests) in &self.told {
            push_lines(self.alloc, &mut text, *id, digests.as_slice())?;
        }
        Ok(text)
    }
}

// Writes the lines of an id behind a text.
#[tactic(auto, using(crate::proofs::TextLaws::lines_from))]
fn push_lines(
    alloc: Global,
    text: &mut String,
    id: u64,
    digests: &[Digest],
) -> Result<(), AllocError>
    ensures { OnOk result (string_bytes text.new ≡ string_bytes text.old ++ lines_under id digests.now) }
{
    for digest in digests {
        text.push_str(&line_of(alloc, id, digest)?)?;
    }
    Ok(())
}

/// The line of a record.
pub(crate) fn line_of(alloc: Global, id: u64, digest: &Digest) -> Result<String, AllocError>
    ensures { IfOk result (λ line. string_bytes line ≡ digest_line id digest.now) }
{
    let mut line = words_of(alloc, id, digest)?;
    line.push('\n')?;
    Ok(line)
}

// The same without its line feed.
fn words_of(alloc: Global, id: u64, digest: &Digest) -> Result<String, AllocError>
    ensures { IfOk result (λ words. string_bytes words ≡ line_words id digest.now) }
{
    let digits = hex::encode(alloc, digest.as_slice())?;
    let mut words = format!(in alloc; "{id} ")?;
    words.push_str(&digits)?;
    Ok(words)
}

/// What the lines of a text tell. What is no whole line of a record, as `line_of` writes it, is passed over.
pub(crate) fn lines_in(alloc: Global, text: &[u8]) -> Result<RunLines, AllocError>
    ensures { IfOk result (λ lines. (id : ℕ) → digests_of lines.told id ≡ if_any (digests_told (whole_lines text.now) id)) }
{
    let mut lines = RunLines::new(alloc);
    let mut rest = text;
    while let Some((line, later)) = first_piece(rest, b'\n') {
        add_told(&mut lines, line)?;
        rest = later;
    }
    Ok(lines)
}

// Adds what a line tells; nothing, where it is no line of a record.
fn add_told(lines: &mut RunLines, line: &[u8]) -> Result<(), AllocError>
    ensures { (id : ℕ) (before : List (List ℕ)) → digests_of lines.old.told id ≡ if_any before
        → OnOk result (digests_of lines.new.told id ≡ if_any (told_then line.now id before)) }
{
    let Some(told) = told_in(lines.alloc, line)? else {
        return Ok(());
    };
    let digest = told.1;
    lines.add(told.0, digest)
}

// The id and the digest that a line tells; none, where it is no line of a record.
fn told_in(alloc: Global, line: &[u8]) -> Result<Option<(u64, Digest)>, AllocError>
    ensures { IfOk result (λ told. told ≡ line_told line.now) }
{
    match parts_of(line) {
        Some(told) => if_written(alloc, line, told),
        None => Ok(None),
    }
}

// This id and this digest, where a line has the words in which they are written.
fn if_written(
    alloc: Global,
    line: &[u8],
    told: (u64, Digest),
) -> Result<Option<(u64, Digest)>, AllocError>
    ensures written { IfOk result (λ found. line.now ≡ line_words told.0 told.1 → found ≡ Some told) }
    ensures other { IfOk result (λ found. (line.now ≡ line_words told.0 told.1 → ⊥) → found ≡ None) }
{
    let digest = told.1;
    let words = words_of(alloc, told.0, &digest)?;
    if line == words.as_bytes() {
        Ok(Some(told))
    } else {
        Ok(None)
    }
}

// The id and the digest that a line spells; it may spell them in other words than `line_of` has.
fn parts_of(line: &[u8]) -> Option<(u64, Digest)>
    ensures ranges { IfSome result (λ parts. (parts.0 < 2 ^ 64) × IsDigest parts.1) }
    ensures found { (id : ℕ) (digest : List ℕ) → IsRecordLine id digest line.now → result ≡ Some (id, digest) }
{
    let (id, digits) = split_at_byte(line, b' ')?;
    let text = text_in(id)?;
    let number = number_in(text)?;
    let digest = digest_in(digits)?;
    Some((number, digest))
}

// These bytes as a text, if they are one, as the digits of a number are.
fn text_in(bytes: &[u8]) -> Option<&str>
    ensures text { IfSome result (λ text. text.now ≡ bytes.now) }
    ensures found { (id : ℕ) → id < 2 ^ 64 → bytes.now ≡ decimal id → IsSome result }
{
    match str::from_utf8(bytes) {
        Ok(text) => Some(text),
        Err(_) => None,
    }
}

/// The number that a text spells.
pub(crate) fn number_in(text: &str) -> Option<u64>
    ensures ranges { IfSome result (λ id. id < 2 ^ 64) }
    ensures found { (id : ℕ) → id < 2 ^ 64 → text.now ≡ decimal id → result ≡ Some id }
{
    match text.parse::<u64>() {
        Ok(id) => Some(id),
        Err(_) => None,
    }
}

// The digest that hexadecimal digits spell.
fn digest_in(digits: &[u8]) -> Option<Digest>
    ensures ranges { IfSome result (λ digest. IsDigest digest) }
    ensures found { (digest : List ℕ) → IsDigest digest → digits.now ≡ encode_lower digest → result ≡ Some digest }
{
    match <[u8; 32] as FromHex>::from_hex(digits) {
        Ok(digest) => Some(digest),
        Err(_) => None,
    }
}
