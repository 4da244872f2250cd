//! A node: its table, its in-edges, and the bounds of its domain.
ghost use Rattle.std.specs.Prelude.{◌≡◌, length};
ghost use Rattle.fw_node.specs.NodeTable.{dimension_of};

use crate::Table;
use fw_flow::EdgeId;
use fw_time::Bounds;
use std::alloc::Global;

/// A node of any kind, which stands for the list of its events.
///
/// A call that takes memory may be refused it: the node still stands for what came before, but for `take_changes`. Where it was
/// refused to a call that changes the node, each later call that takes memory fails too; `totals_at`, `totals_since` and
/// `state_since` change nothing, and leave no mark.
pub struct Node {
    pub(crate) table: Table,
    pub(crate) sides: Vec<EdgeId>,
    pub(crate) bounds: Bounds,
    pub(crate) alloc: Global,
    pub(crate) refused: bool,
    ghost fits: { dimension_of table ≡ length bounds.greatest },
}

// Written out, so that it is one call wherever a node is let go.
impl Drop for Node {
    fn drop(self) {
        let Node {
            table,
            sides,
            bounds,
            alloc: _,
            refused: _,
        } = self;
        drop(table);
        drop(sides);
        drop(bounds);
    }
}
