//! Names of loops, nodes and edges.
ghost use Rattle.std.specs.Prelude.{◌≡◌, ◌≤◌, true, false, [], ◌∷◌, ◌++◌, length, not, Some, None, if◌then◌else◌, IfOk, OnOk, OnErr};
ghost use Rattle.std.specs.List.{IsDistinct};
ghost use Rattle.std.specs.Str.{bytes_eq};
ghost use Rattle.fw_lines.specs.Spelling as spelling;
ghost use Rattle.fw_flow.specs.Names.{place_of, has_name};
ghost use Rattle.fw_flow.specs.Raw.{place_or_end};

use fw_lines::is_name;
use indexmap::IndexSet;
use std::alloc::{AllocError, Global};
use std::marker::Model;
use std::{fmt, str};

/// A name: 1 to 32 of `a` to `z`, `0` to `9` and `_`, the first a letter. Contracts see its bytes.
#[derive(Debug, Drop)]
pub struct Name {
    bytes: Vec<u8>,
}

impl Model for Name {
    ghost use Rattle.std.specs.Prelude.{ℕ, List, ◌≡◌, true};
    ghost use Rattle.fw_lines.specs.Spelling as spelling;

    ghost Value = { List ℕ };

    ghost view = { λ name. name.bytes.items };

    ghost invariant = { λ name. spelling.is_name name.bytes.items ≡ true };
}

impl Name {
    /// The name of this text, `None` where it is not one. The only error is want of memory.
    pub fn new(alloc: Global, text: &str) -> Result<Option<Name>, AllocError>
        ensures { IfOk result (λ name. name ≡ (if spelling.is_name text.now then Some text.now else None)) }
    {
        Name::from_bytes(alloc, text.as_bytes())
    }

    /// The name of these bytes, `None` where they are not one. The only error is want of memory.
    pub fn from_bytes(alloc: Global, word: &[u8]) -> Result<Option<Name>, AllocError>
        ensures { IfOk result (λ name. name ≡ (if spelling.is_name word.now then Some word.now else None)) }
    {
        if !is_name(word) {
            return Ok(None);
        }
        let bytes = Vec::from_slice(alloc, word)?;
        Ok(Some(Name { bytes }))
    }

    /// The same name once more. The error is want of memory.
    pub(crate) fn copied(&self, alloc: Global) -> Result<Name, AllocError>
        ensures { IfOk result (λ name. name ≡ self.now) }
    {
        let bytes = Vec::from_slice(alloc, &self.bytes)?;
        Ok(Name { bytes })
    }

    /// Its bytes.
    pub fn as_bytes(&self) -> &[u8]
        ensures bytes { result.now ≡ self.now }
        ensures name { spelling.is_name self.now ≡ true }
    {
        self.bytes.as_slice()
    }

    /// Its text.
    #[tactic(auto, using(crate::proofs::NameLaws::name_is_text))]
    pub fn as_str(&self) -> &str
        ensures { result.now ≡ self.now }
    {
        str::from_utf8(&self.bytes).unwrap()
    }
}

impl fmt::Display for Name {
    ghost output = { λ name. Some name };

    fn fmt<W: fmt::Write>(&self, f: &mut fmt::Formatter<W>) -> fmt::Result {
        write!(f, "{}", self.as_str())
    }
}

/// The same name once more, if there is one. The error is want of memory.
pub(crate) fn copied_if_any(alloc: Global, name: &Option<Name>) -> Result<Option<Name>, AllocError>
    ensures { IfOk result (λ same. same ≡ name.now) }
{
    Ok(match name {
        Some(name) => Some(name.copied(alloc)?),
        None => None,
    })
}

/// Names in the order of their adding, each once. Contracts see the list of their bytes.
#[derive(Debug)]
pub(crate) struct Names {
    alloc: Global,
    names: IndexSet<Vec<u8>>,
}

impl Model for Names {
    ghost use Rattle.std.specs.Prelude.{ℕ, List, map};
    ghost use Rattle.fw_flow.specs.Names.{bytes_of};

    ghost Value = { List (List ℕ) };

    ghost view = { λ names. bytes_of names.names.keys };
}

// Written out, so that it is one call wherever names are let go.
impl Drop for Names {
    fn drop(self) {
        let Names { alloc: _, names } = self;
        drop(names);
    }
}

impl Names {
    /// No names yet, in memory from `alloc`.
    pub(crate) fn new(alloc: Global) -> Self
        ensures { result ≡ [] }
    {
        Names {
            alloc,
            names: IndexSet::new(alloc),
        }
    }

    /// Adds a name, and says whether it is new. The error is want of memory.
    #[tactic(auto, using(crate::proofs::FlowLaws::name_among_keys, crate::proofs::FlowLaws::bytes_of_append))]
    pub(crate) fn add(&mut self, name: &[u8]) -> Result<bool, AllocError>
        ensures new { IfOk result (λ new. new ≡ not (has_name name.now self.old)) }
        ensures ok { OnOk result (self.new ≡ (if has_name name.now self.old then self.old else self.old ++ name.now ∷ [])) }
        ensures err { OnErr result (self.new ≡ self.old) }
    {
        let name = Vec::from_slice(self.alloc, name)?;
        Ok(self.names.insert(name)?)
    }

    /// Adds a name that is new. The error is want of memory.
    pub(crate) fn take(&mut self, name: &[u8]) -> Result<(), AllocError>
        ensures { OnOk result (has_name name.now self.old ≡ false → self.new ≡ self.old ++ name.now ∷ []) }
    {
        self.add(name)?;
        Ok(())
    }

    /// The place of a name, from 0; `None` where it is not among them.
    #[tactic(auto, using(crate::proofs::FlowLaws::place_among_keys))]
    pub(crate) fn place_of(&self, name: &[u8]) -> Option<usize>
        ensures { result ≡ place_of name.now self.now }
    {
        self.names.get_index_of(name)
    }

    /// Whether a name is among them.
    #[tactic(auto, using(crate::proofs::FlowLaws::name_among_keys))]
    pub(crate) fn has(&self, name: &[u8]) -> bool
        ensures { result ≡ has_name name.now self.now }
    {
        self.names.contains(name)
    }

    /// The place of a name, past the last one where it is not among them.
    pub(crate) fn place_or_end(&self, name: &[u8]) -> usize
        ensures place { result ≡ place_or_end self.now name.now }
        ensures within { result ≤ length self.now }
    {
        self.place_of(name).unwrap_or(self.names.len())
    }

    /// No two of them are the same.
    #[tactic(auto, using(crate::proofs::FlowLaws::distinct_bytes))]
    pub(crate) fn are_distinct(&self)
        ensures { IsDistinct bytes_eq self.now }
    {
        // Where the set's length is told, it is told that its keys are distinct.
        let _ = self.names.len();
    }
}
