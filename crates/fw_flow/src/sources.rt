//! The sources of a flow by their names.
ghost use Rattle.std.specs.Prelude.{◌≡◌, ◌++◌, ◌<◌, length, IsNone, IfOk};
ghost use Rattle.fw_lines.specs.Sources.{node_named};
ghost use Rattle.fw_flow.specs.Dataflow.{node_at};
ghost use Rattle.fw_flow.specs.Sources.{source_named_at, sources_of};

use crate::laws::names_are_distinct;
use crate::{Flow, NodeId};
use fw_lines::SourceNames;
use std::alloc::{AllocError, Global};

impl Flow {
    /// The names of its sources, the nodes to which inputs give batches, in order of their places.
    pub fn source_names(&self, alloc: Global) -> Result<SourceNames, AllocError>
        ensures { IfOk result (λ sources. sources ≡ sources_of self.now) }
    {
        // Each name is new among those before it.
        names_are_distinct(self);
        let mut sources = SourceNames::new(alloc);
        for place in 0..self.nodes() as u32 {
            sources = self.with_source(sources, place)?;
        }
        Ok(sources)
    }

    // These sources, and the node at a place if it is one.
    fn with_source(&self, sources: SourceNames, place: u32) -> Result<SourceNames, AllocError>
        requires there { place < length self.now.nodes }
        requires new { IsNone (node_named sources (node_at self.now place).name) }
        ensures { IfOk result (λ more. more ≡ sources ++ source_named_at self.now place) }
    {
        let node = NodeId::at(place);
        if self.kind(node).is_input() {
            return sources.with(place, self.node_name(node).as_str());
        }
        Ok(sources)
    }
}
