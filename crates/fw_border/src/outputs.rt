//! What came to the outputs.
ghost use Rattle.std.specs.Prelude.{◌≡◌, ◌↔◌, ◌+◌, ◌^◌, ◌<◌, false, true, length, replicate, IsTrue, IsErr, IfOk, OnOk, OnErr};
ghost use Rattle.std.specs.Option.{option_map};
ghost use Rattle.std.specs.BTreeMap.{is_at};
ghost use Rattle.std.specs.Map.{lookup};
ghost use Rattle.std.specs.Ordering.{nat_cmp};
ghost use Rattle.fw_flow.specs.Projection.{first_coordinate};
ghost use Rattle.fw_border.specs.Outputs.{new_output, output_at, with_output, recs_at_number, next_recs, with_rec_at, acknowledged, rolled_output, cleared, AreByNumber};

use crate::number::number_of;
use crate::output::Output;
use fw_bag::{Bag, Rec};
use fw_flow::{Cut, Flow, NodeId};
use fw_time::Stamp;
use std::alloc::{AllocError, Global};
use std::marker::Model;

/// The recs that came to the outputs of a dataflow and are not acknowledged, and how many stamps each output acknowledged.
///
/// Contracts see for each node its bound, the number of stamps that it acknowledged, and its recs by number, which is the
/// first coordinate of their stamp. Past the last node a call changes nothing. After want of memory each `put` answers it.
#[derive(Debug)]
pub struct Outputs {
    alloc: Global,
    outputs: Vec<Output>,
    // A bag without recs, which is lent where an output has none.
    empty: Bag,
    refused: bool,
}

impl Model for Outputs {
    ghost use Rattle.std.specs.Prelude.{◌≡◌, []};
    ghost use Rattle.fw_border.specs.Outputs.{OutputsState};

    ghost Value = { OutputsState };

    ghost view = { λ all. record { outputs = all.outputs.items; refused = all.refused } };

    ghost invariant = { λ all. all.empty.recs ≡ [] };
}

// Written out, so that it is one call wherever one of them is let go.
impl Drop for Outputs {
    fn drop(self) {
        let Outputs {
            alloc: _,
            outputs,
            empty,
            refused: _,
        } = self;
        drop(outputs);
        drop(empty);
    }
}

impl Outputs {
    /// The outputs of a flow, without recs. The only error is want of memory.
    pub fn new(alloc: Global, flow: &Flow) -> Result<Self, AllocError>
        ensures { IfOk result (λ all. all ≡ record { outputs = replicate (length flow.now.nodes) new_output; refused = false }) }
    {
        let mut outputs = Vec::new(alloc);
        for _place in 0..flow.nodes() {
            outputs.push(Output::new(alloc))?;
        }
        Ok(Outputs {
            alloc,
            outputs,
            empty: Bag::new(alloc),
            refused: false,
        })
    }

    /// Keeps a rec that came to an output at a stamp, if that is not below the bound.
    ///
    /// It fails where memory is refused, now or earlier, and where the number of recs would not fit a `usize`.
    pub fn put(&mut self, output: NodeId, at: &Stamp, rec: Rec) -> Result<(), AllocError>
        ensures ok { OnOk result (self.new ≡ record {
          outputs = with_output (with_rec_at (first_coordinate at.now) rec) self.old.outputs output;
          refused = false;
        }) }
        ensures err { OnErr result (self.new ≡ record { outputs = self.old.outputs; refused = true }) }
        ensures refused { IsTrue self.old.refused → IsErr result }
    {
        if self.refused {
            return Err(AllocError);
        }
        let put = put_to(&mut self.outputs, output, number_of(at), rec);
        self.refused = put.is_err();
        put
    }

    /// The recs of an output at a stamp.
    pub fn at(&self, output: NodeId, at: &Stamp) -> &Bag
        ensures { result.now.recs ≡ recs_at_number (output_at self.now.outputs output).recs (first_coordinate at.now) }
    {
        match recs_of(&self.outputs, output, number_of(at)) {
            Some(recs) => recs,
            None => &self.empty,
        }
    }

    /// Whether an output has a rec that is not acknowledged.
    pub fn has_any(&self, output: NodeId) -> bool
        ensures any { IsTrue result ↔ (0 < length (output_at self.now.outputs output).recs) }
        ensures by_number { AreByNumber (output_at self.now.outputs output).recs }
    {
        has_recs(&self.outputs, output)
    }

    /// How many stamps an output acknowledged, which is the number of its next one.
    pub fn bound(&self, output: NodeId) -> u64
        ensures { result ≡ (output_at self.now.outputs output).bound }
    {
        match self.outputs.get(output.place() as usize) {
            Some(output) => output.bound(),
            None => 0,
        }
    }

    /// Takes out the recs of an output at its bound, and raises the bound by one, which must be able to rise: `bound` tells it.
    /// It takes no memory.
    pub fn acknowledge(&mut self, output: NodeId) -> Bag
        requires { (output_at self.old.outputs output).bound + 1 < 2 ^ 64 }
        ensures recs { result.recs ≡ next_recs (output_at self.old.outputs output) }
        ensures left { self.new ≡ record self.old { outputs = with_output acknowledged self.old.outputs output } }
    {
        match self.outputs.get_mut(output.place() as usize) {
            Some(output) => output.acknowledge(),
            None => Bag::new(self.alloc),
        }
    }

    /// Keeps those recs of an output alone that lie within the cut.
    pub fn roll_to(&mut self, output: NodeId, cut: &Cut)
        ensures { self.new ≡ record self.old { outputs = with_output (rolled_output cut.now) self.old.outputs output } }
    {
        if let Some(output) = self.outputs.get_mut(output.place() as usize) {
            output.roll_to(cut);
        }
    }

    /// Drops the recs of an output.
    pub fn clear(&mut self, output: NodeId)
        ensures { self.new ≡ record self.old { outputs = with_output cleared self.old.outputs output } }
    {
        if let Some(output) = self.outputs.get_mut(output.place() as usize) {
            output.clear();
        }
    }
}

// Keeps a rec of an output.
fn put_to(outputs: &mut Vec<Output>, output: NodeId, x: u64, rec: Rec) -> Result<(), AllocError>
    ensures ok { OnOk result (outputs.new.items ≡ with_output (with_rec_at x rec) outputs.old.items output) }
    ensures err { OnErr result (outputs.new.items ≡ outputs.old.items) }
{
    match outputs.get_mut(output.place() as usize) {
        Some(output) => output.put(x, rec),
        None => Ok(()),
    }
}

// Whether an output has a rec.
fn has_recs(outputs: &[Output], output: NodeId) -> bool
    ensures any { IsTrue result ↔ (0 < length (output_at outputs.now output).recs) }
    ensures by_number { AreByNumber (output_at outputs.now output).recs }
{
    match outputs.get(output.place() as usize) {
        Some(output) => output.has_any(),
        None => false,
    }
}

// The recs of an output at a number, if any are kept.
fn recs_of(outputs: &[Output], output: NodeId, x: u64) -> Option<&Bag>
    ensures { option_map (λ b. b.now.recs) result ≡ lookup (is_at (nat_cmp x)) (output_at outputs.now output).recs }
{
    outputs.get(output.place() as usize)?.at(x)
}
