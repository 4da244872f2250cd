//! The names of the sources.
ghost use Rattle.std.specs.Prelude.{◌≡◌, [], ◌∷◌, ◌++◌, IfOk, IsNone};
ghost use Rattle.indexmap.specs.IndexMap.{IndexMap};
ghost use Rattle.fw_lines.specs.Sources.{node_named, named_sources};

use indexmap::IndexMap;
use std::alloc::{AllocError, Global};
use std::marker::Model;

/// The names of the sources, each with the number of its node, in the order of their adding.
#[derive(Debug)]
pub struct SourceNames {
    alloc: Global,
    nodes: IndexMap<Vec<u8>, u32>,
}

impl Model for SourceNames {
    ghost use Rattle.std.specs.Prelude.{List, ℕ, ◌≡◌};
    ghost use Rattle.fw_lines.specs.Sources.{named_sources};

    ghost Value = { List (List ℕ × ℕ) };

    ghost view = { λ s. named_sources s.nodes.entries };
}

// Written out, so that it is one call wherever names are let go.
impl Drop for SourceNames {
    fn drop(self) {
        let SourceNames { alloc: _, nodes } = self;
        drop(nodes);
    }
}

impl SourceNames {
    /// No names yet, in memory from `alloc`.
    pub fn new(alloc: Global) -> Self
        ensures { result ≡ [] }
    {
        SourceNames {
            alloc,
            nodes: IndexMap::new(alloc),
        }
    }

    /// These names and one more, which is not among them. The only error is want of memory.
    pub fn with(mut self, node: u32, name: &str) -> Result<Self, AllocError>
        requires { IsNone (node_named self name.now) }
        ensures { IfOk result (λ sources. sources ≡ self ++ (name.now, node) ∷ []) }
    {
        let name = Vec::from_slice(self.alloc, name.as_bytes())?;
        self.nodes.insert(name, node)?;
        Ok(self)
    }

    /// The node of a name; `None` where the name is not among them.
    pub fn node_named(&self, name: &str) -> Option<u32>
        ensures { result ≡ node_named self.now name.now }
    {
        self.node_spelled(name.as_bytes())
    }

    /// The node whose name these bytes spell, as they stand in a text; `None` where it is not among them.
    pub fn node_spelled(&self, name: &[u8]) -> Option<u32>
        ensures { result ≡ node_named self.now name.now }
    {
        self.nodes.get(name).copied()
    }
}
