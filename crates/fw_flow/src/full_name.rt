//! Full names of nodes and edges.
ghost use Rattle.std.specs.Fmt.{decimal};
ghost use Rattle.std.specs.Prelude.{◌≡◌, ◌≤◌, ◌++◌, true, ◌&&◌, ◌==◌, length, take, drop, codes, position, IfOk};
ghost use Rattle.std.specs.Str.{bytes_eq};
ghost use Rattle.fw_lines.specs.Spelling as lines;
ghost use Rattle.fw_lines.specs.Spelling.{is_name};
ghost use Rattle.fw_flow.specs.FullNames as spec;
ghost use Rattle.fw_flow.specs.FullNames.{part_name, out_name};

use crate::Name;
use fw_lines::{Number, is_name, number};
use std::alloc::{AllocError, Global};
use std::marker::Model;
use std::{fmt, str};

/// The name of a node or an edge of a flow: a name, perhaps with `.N` or `.out.N` behind it, where N is a number: those of
/// what a split node is made of. Contracts see its bytes.
#[derive(Debug, Drop)]
pub struct FullName {
    bytes: Vec<u8>,
}

impl Model for FullName {
    ghost use Rattle.std.specs.Prelude.{ℕ, List, ◌≡◌, true};
    ghost use Rattle.fw_flow.specs.FullNames as spec;

    ghost Value = { List ℕ };

    ghost view = { λ name. name.bytes.items };

    ghost invariant = { λ name. spec.is_full_name name.bytes.items ≡ true };
}

impl FullName {
    /// A name as it is written.
    #[tactic(auto, using(crate::proofs::FullNameLaws::full_name_plain))]
    pub(crate) fn of(alloc: Global, name: &Name) -> Result<FullName, AllocError>
        ensures { IfOk result (λ full. full ≡ name.now) }
    {
        let bytes = Vec::from_slice(alloc, name.as_bytes())?;
        Ok(FullName { bytes })
    }

    /// The name of a replica of a node, or of a part of an edge, by its place.
    #[tactic(auto, using(crate::proofs::FullNameLaws::full_name_part, crate::proofs::FullNameLaws::part_joined))]
    pub(crate) fn part(alloc: Global, name: &Name, place: u32) -> Result<FullName, AllocError>
        ensures { IfOk result (λ full. full ≡ part_name name.now place) }
    {
        let bytes = numbered(alloc, name, b".", place)?;
        Ok(FullName { bytes })
    }

    /// The name of the edge from a replica of a node, by its place.
    #[tactic(auto, using(crate::proofs::FullNameLaws::full_name_out, crate::proofs::FullNameLaws::out_joined))]
    pub(crate) fn out(alloc: Global, name: &Name, place: u32) -> Result<FullName, AllocError>
        ensures { IfOk result (λ full. full ≡ out_name name.now place) }
    {
        let bytes = numbered(alloc, name, b".out.", place)?;
        Ok(FullName { bytes })
    }

    /// Its bytes.
    pub fn as_bytes(&self) -> &[u8]
        ensures bytes { result.now ≡ self.now }
        ensures name { spec.is_full_name self.now ≡ true }
    {
        self.bytes.as_slice()
    }

    /// Its text.
    #[tactic(auto, using(crate::proofs::FullNameLaws::full_name_is_text))]
    pub fn as_str(&self) -> &str
        ensures { result.now ≡ self.now }
    {
        str::from_utf8(&self.bytes).unwrap()
    }
}

impl fmt::Display for FullName {
    ghost use Rattle.std.specs.Prelude.{Some};

    ghost output = { λ name. Some name };

    fn fmt<W: fmt::Write>(&self, f: &mut fmt::Formatter<W>) -> fmt::Result {
        write!(f, "{}", self.as_str())
    }
}

// The name with these bytes and the number behind it.
fn numbered(alloc: Global, name: &Name, between: &[u8], place: u32) -> Result<Vec<u8>, AllocError>
    ensures name { IfOk result (λ _. is_name name.now ≡ true) }
    ensures bytes { IfOk result (λ bytes. bytes.items ≡ (name.now ++ between.now) ++ decimal place) }
{
    let mut bytes = Vec::from_slice(alloc, name.as_bytes())?;
    bytes.extend_from_slice(between)?;
    let number = format!(in alloc; "{place}")?;
    bytes.extend_from_slice(number.as_bytes())?;
    Ok(bytes)
}

/// Whether a word is a full name.
pub fn is_full_name(word: &[u8]) -> bool
    ensures { result ≡ spec.is_full_name word.now }
{
    let place = dot_place(word);
    is_name(&word[..place]) && is_suffix(&word[place..])
}

// Where the first dot of a word stands, or its end.
fn dot_place(word: &[u8]) -> usize
    ensures place { result ≡ spec.dot_place word.now }
    ensures within { result ≤ length word.now }
{
    first_dot(word).unwrap_or(word.len())
}

// Where the first dot of a word stands, if it has one.
fn first_dot(word: &[u8]) -> Option<usize>
    ensures { result ≡ position (λ byte. byte == 46) word.now }
{
    word.iter().position(|byte| *byte == b'.')
}

// Whether the bytes are nothing, or a dot and a numeral, or `.out.` and a numeral.
fn is_suffix(bytes: &[u8]) -> bool
    ensures { result ≡ spec.is_suffix bytes.now }
{
    match bytes {
        [] => true,
        [first, rest @ ..] => *first == b'.' && (is_numeral(rest) || is_out(rest)),
    }
}

// Whether the bytes are `out.` and a numeral.
fn is_out(bytes: &[u8]) -> bool
    ensures { result ≡ (bytes_eq (take 4 bytes.now) (codes "out.") && lines.is_numeral (drop 4 bytes.now)) }
{
    match bytes.strip_prefix(b"out.") {
        Some(rest) => is_numeral(rest),
        None => false,
    }
}

// Whether the bytes are a numeral.
#[tactic(auto, unfolding(fw_lines::specs::Spelling::number_of))]
fn is_numeral(bytes: &[u8]) -> bool
    ensures { result ≡ lines.is_numeral bytes.now }
{
    !matches!(number(bytes), Number::NotANumber)
}
