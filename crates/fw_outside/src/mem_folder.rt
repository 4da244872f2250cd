//! Folders in memory.
ghost use Rattle.std.specs.Prelude.{◌≡◌, ◌+◌, ◌^◌, ◌<◌, ◌≤◌, [], take, length, OnOk, IfOk, IsErrOf, Some, string_bytes};
ghost use Rattle.std.specs.Option.{option_copied};
ghost use Rattle.fw_outside.specs.Memory.{text_under, text_or_empty};

use crate::fault::{FaultPlan, one_more};
use crate::{FetchFault, Folder};
use std::alloc::{AllocError, Global};

/// A text and its name.
#[derive(Debug, Drop)]
pub struct MemText {
    /// The name under which it is fetched.
    pub name: String,
    /// The text; any bytes.
    pub bytes: Vec<u8>,
}

impl MemText {
    /// Copies both.
    pub fn new(alloc: Global, name: &str, bytes: &[u8]) -> Result<Self, AllocError>
        ensures name { IfOk result (λ entry. string_bytes entry.name ≡ name.now) }
        ensures bytes { IfOk result (λ entry. entry.bytes.items ≡ bytes.now) }
    {
        Ok(MemText {
            name: String::from_str(alloc, name)?,
            bytes: bytes.to_vec(alloc)?,
        })
    }
}

// The text of the first entry of this name.
fn find_text<'a>(entries: &'a [MemText], name: &str) -> Option<&'a [u8]>
    ensures { option_copied result ≡ text_under entries.now name.now }
{
    let entry = entries.iter().find(|entry| entry.name.as_str() == name)?;
    Some(&entry.bytes)
}

// Puts a text into `into`, or its first bytes where it is longer than the limit.
fn hand_over(text: &[u8], limit: usize, into: &mut Vec<u8>) -> Result<(), FetchFault>
    requires { limit < 2 ^ 32 }
    ensures whole { OnOk result (into.new.items ≡ text.now) }
    ensures within { OnOk result (length text.now ≤ limit) }
    ensures too_large { IsErrOf result FetchFault.TooLarge → limit < length text.now }
    ensures cut { IsErrOf result FetchFault.TooLarge → into.new.items ≡ take (limit + 1) text.now }
    ensures never_failed { IsErrOf result FetchFault.Failed → ⊥ }
    ensures no_memory_empty { IsErrOf result FetchFault.NoMemory → into.new.items ≡ [] }
{
    into.clear();
    if text.len() <= limit {
        into.extend_from_slice(text)?;
        return Ok(());
    }
    into.extend_from_slice(&text[..limit + 1])?;
    Err(FetchFault::TooLarge)
}

/// A folder in memory that tells its texts and has a list of calls that are to fail.
/// A name that is not there is a fault.
#[derive(Debug, Drop)]
pub struct MemFolder {
    entries: Vec<MemText>,
    plan: FaultPlan,
}

impl MemFolder {
    /// A folder of these texts, of a name that stands twice the first, whose calls of these numbers are to fail.
    pub fn new(entries: Vec<MemText>, failing: Vec<u64>) -> Self
        ensures texts { ⟦<MemFolder as Folder>⟧.texts result ≡ Some (text_under entries.items) }
        ensures unasked { ⟦<MemFolder as Folder>⟧.fetch_count result ≡ 0 }
        ensures faultless { ⟦<MemFolder as Folder>⟧.fault_count result ≡ 0 }
    {
        MemFolder {
            entries,
            plan: FaultPlan::new(failing),
        }
    }
}

impl Folder for MemFolder {
    ghost texts = { λ folder. Some (text_under folder.entries.items) };

    ghost fetch_count = { λ folder. folder.plan.calls };

    ghost fault_count = { λ folder. folder.plan.faults };

    fn fetch(&mut self, name: &str, limit: usize, into: &mut Vec<u8>) -> Result<(), FetchFault> {
        if !self.plan.next_fails() {
            if let Some(text) = find_text(&self.entries, name) {
                return hand_over(text, limit, into);
            }
            self.plan.faults = one_more(self.plan.faults);
        }
        into.clear();
        Err(FetchFault::Failed)
    }

    fn faults(&self) -> u64 {
        self.plan.faults
    }
}

/// A folder in memory that never fails: it has an empty text under every name that it was not given.
#[derive(Debug, Drop)]
pub struct FaultlessFolder {
    entries: Vec<MemText>,
    fetches: u64,
}

impl FaultlessFolder {
    /// A folder of these texts, of a name that stands twice the first.
    pub fn new(entries: Vec<MemText>) -> Self
        ensures texts { ⟦<FaultlessFolder as Folder>⟧.texts result ≡ Some (text_or_empty entries.items) }
        ensures unasked { ⟦<FaultlessFolder as Folder>⟧.fetch_count result ≡ 0 }
    {
        FaultlessFolder {
            entries,
            fetches: 0,
        }
    }
}

impl Folder for FaultlessFolder {
    ghost texts = { λ folder. Some (text_or_empty folder.entries.items) };

    ghost fetch_count = { λ folder. folder.fetches };

    ghost fault_count = { λ _. 0 };

    fn fetch(&mut self, name: &str, limit: usize, into: &mut Vec<u8>) -> Result<(), FetchFault> {
        self.fetches = one_more(self.fetches);
        match find_text(&self.entries, name) {
            Some(text) => hand_over(text, limit, into),
            None => hand_over(&[], limit, into),
        }
    }

    fn faults(&self) -> u64 {
        0
    }
}
