//! The nodes of a dataflow that have a table.
ghost use Rattle.std.specs.Prelude.{◌≡◌, ◌++◌, ◌∷◌, [], None, length, replicate, slice_set, IfOk, IfSome, IfNone};
ghost use Rattle.std.specs.Option.{option_copied, option_copied_mut};
ghost use Rattle.std.specs.Borrow.{sem};
ghost use Rattle.fw_rollback.specs.Tables.{table_at};
ghost use Rattle.fw_rollback.specs.Lending.{LendsNode};

use fw_flow::NodeId;
use fw_node::Node;
use std::alloc::{AllocError, Global};
use std::marker::Model;

/// For each node of a dataflow its table, if it has one. Contracts see their list.
#[derive(Drop)]
pub struct Tables {
    tables: Vec<Option<Node>>,
}

impl Model for Tables {
    ghost use Rattle.std.specs.Prelude.{List, Option};
    ghost use Rattle.std.specs.Coded.{coded_list, coded_option};
    ghost use Rattle.fw_node.specs.declared.node.Node.{Node};
    ghost use Rattle.fw_node.specs.contracts.node.Node as node;

    ghost Value = { List (Option Node) };

    ghost coded = { coded_list (coded_option node.the_row.coded) };

    ghost view = { λ all. all.tables.items };
}

impl Tables {
    /// So many nodes without tables. The only error is want of memory.
    pub fn new(alloc: Global, nodes: usize) -> Result<Self, AllocError>
        ensures { IfOk result (λ all. all ≡ replicate nodes None) }
    {
        let mut tables = Vec::with_capacity(alloc, nodes)?;
        for _place in 0..nodes {
            tables.push(None)?;
        }
        Ok(Tables { tables })
    }

    /// How many nodes there are, with a table or without one.
    pub fn len(&self) -> usize
        ensures { result ≡ length self.now }
    {
        self.tables.len()
    }

    /// The table of a node, if it has one.
    pub fn get(&self, node: NodeId) -> Option<&Node>
        ensures { option_copied result ≡ table_at self.now node }
    {
        self.tables.get(node.place() as usize)?.as_ref()
    }

    /// The table of a node, to be changed, if it has one.
    pub fn get_mut(&mut self, node: NodeId) -> Option<&mut Node>
        ensures* writes_back { sem 𝓛 (LendsNode self.entry node result) }
        ensures value { option_copied_mut result ≡ table_at self.old node }
    {
        self.tables.get_mut(node.place() as usize)?.as_mut()
    }

    /// Gives a node this table, or takes its table away; past the last node it does nothing.
    pub fn set(&mut self, node: NodeId, table: Option<Node>)
        ensures { self.new ≡ slice_set self.old node table }
    {
        if let Some(place) = self.tables.get_mut(node.place() as usize) {
            *place = table;
        }
    }

    /// Takes the last node out, with its table, if it has one; none where there is no node.
    pub fn pop(&mut self) -> Option<Option<Node>>
        ensures some { IfSome result (λ table. self.old ≡ self.new ++ table ∷ []) }
        ensures none { IfNone result (self.old ≡ []) }
    {
        self.tables.pop()
    }
}
