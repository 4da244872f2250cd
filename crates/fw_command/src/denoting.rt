//! The command `denote` prints the denotation at the outputs.
ghost use Rattle.std.specs.Prelude.{◌≡◌, ◌<◌, ◌-◌, ◌^◌, ℕ, [], ◌∷◌, length};
ghost use Rattle.std.specs.List.Sorted.{IsNonDecreasingBy};
ghost use Rattle.std.specs.Option.{option_copied};
ghost use Rattle.fw_time.specs.Stamp.{same};
ghost use Rattle.fw_flow.specs.Dataflow.{system_of};
ghost use Rattle.fw_flow.specs.WellFormed.{IsWellFormedSystem};
ghost use Rattle.fw_flow.specs.WholeBags.{in_order, timed_where};
ghost use Rattle.fw_model.specs.Denotation.{AreInOrder};
ghost use Rattle.fw_denote.specs.Holding.{family_on};
ghost use Rattle.fw_command.specs.DenotationText.{PrintsDenotation, denotation_text, epochs_told, epochs_to, after_epoch, most_batches};
ghost use Rattle.fw_command.specs.Writing.{Writes, WritesText};

use crate::reading::Fed;
use fw_denote::{Family, Timed, denote};
use fw_flow::{Flow, Kind, NodeId};
use fw_lines::Batches;
use fw_outside::{OutFault, Sink};
use fw_time::Stamp;
use std::alloc::Global;
use std::fmt;

/// Prints the denotation of a flow with its batches: the lines of each output, in the order of the nodes.
pub fn print_denotation<O: Sink>(alloc: Global, fed: &Fed, out: &mut O) -> Result<(), OutFault>
    requires { IsWellFormedSystem (system_of fed.now.flow fed.now.batches) }
    ensures { WritesText (PrintsDenotation (system_of fed.now.flow fed.now.batches))
        (λ printed. Writes printed result (O.view out.old) (O.view out.new)) }
{
    let family = denote(alloc, &fed.flow, &fed.batches)?;
    print_family(alloc, fed, &family, out)
}

// Prints what a family of bags, which are in order, has at the outputs.
fn print_family<O: Sink>(
    alloc: Global,
    fed: &Fed,
    family: &Family,
    out: &mut O,
) -> Result<(), OutFault>
    requires { AreInOrder (family_on family.now) }
    ensures { Writes (denotation_text (system_of fed.now.flow fed.now.batches) (family_on family.now)) result
        (O.view out.old) (O.view out.new) }
{
    let denotation = Denotation { fed, family };
    let text = format!(in alloc; "{denotation}")?;
    out.write(text.as_bytes())
}

// The denotation of a flow with its batches.
#[derive(Drop)]
struct Denotation<'a> {
    fed: &'a Fed,
    family: &'a Family,
    ghost ordered: { AreInOrder (family_on family.now) },
}

impl<'a> fmt::Display for Denotation<'a> {
    ghost use Rattle.std.specs.Prelude.{Some};
    ghost use Rattle.fw_flow.specs.Dataflow.{system_of};
    ghost use Rattle.fw_denote.specs.Holding.{family_on};
    ghost use Rattle.fw_command.specs.DenotationText.{denotation_text};

    ghost output = { λ d. Some (denotation_text (system_of d.fed.now.flow d.fed.now.batches) (family_on d.family.now)) };

    fn fmt<W: fmt::Write>(&self, f: &mut fmt::Formatter<W>) -> fmt::Result {
        for place in 0..self.fed.flow.nodes() {
            let lines = NodeLines {
                fed: self.fed,
                family: self.family,
                node: NodeId::at(place as u32),
            };
            write!(f, "{lines}")?;
        }
        Ok(())
    }
}

// The lines of a node, by the bag on its in-edge.
#[derive(Drop)]
struct NodeLines<'a> {
    fed: &'a Fed,
    family: &'a Family,
    node: NodeId,
    ghost declared: { node < length fed.now.flow.nodes },
    ghost ordered: { AreInOrder (family_on family.now) },
}

impl<'a> fmt::Display for NodeLines<'a> {
    ghost use Rattle.std.specs.Prelude.{Some};
    ghost use Rattle.fw_flow.specs.Dataflow.{system_of};
    ghost use Rattle.fw_denote.specs.Holding.{family_on};
    ghost use Rattle.fw_command.specs.DenotationText.{node_text};

    ghost output = { λ l. Some (node_text (system_of l.fed.now.flow l.fed.now.batches) (family_on l.family.now) l.node) };

    fn fmt<W: fmt::Write>(&self, f: &mut fmt::Formatter<W>) -> fmt::Result {
        for edge in self.fed.flow.in_edges(self.node) {
            let lines = BagLines {
                fed: self.fed,
                kind: self.fed.flow.kind(self.node),
                name: self.fed.flow.node_name(self.node).as_str(),
                bag: self.family.on(*edge),
            };
            write!(f, "{lines}")?;
        }
        Ok(())
    }
}

// The lines of an output of the kind with the bag; of another node there are none.
#[derive(Drop)]
struct BagLines<'a> {
    fed: &'a Fed,
    kind: Kind,
    name: &'a str,
    bag: &'a [Timed],
    ghost ordered: { in_order bag.now ≡ bag.now },
}

impl<'a> fmt::Display for BagLines<'a> {
    ghost use Rattle.std.specs.Prelude.{Some};
    ghost use Rattle.fw_flow.specs.Dataflow.{system_of};
    ghost use Rattle.fw_command.specs.DenotationText.{bag_text};

    ghost output = { λ l. Some (bag_text (system_of l.fed.now.flow l.fed.now.batches) l.kind l.name.now l.bag.now) };

    fn fmt<W: fmt::Write>(&self, f: &mut fmt::Formatter<W>) -> fmt::Result {
        match self.kind {
            Kind::OutputEpoch => {
                let epochs = EpochLines {
                    name: self.name,
                    bag: self.bag,
                    count: epochs_told(&self.fed.flow, &self.fed.batches, self.bag),
                };
                write!(f, "{epochs}")
            }
            Kind::OutputNumber => {
                let numbers = NumberLines {
                    name: self.name,
                    bag: self.bag,
                };
                write!(f, "{numbers}")
            }
            _ => Ok(()),
        }
    }
}

// How many epochs are told: as many as an input has batches, and those up to the last one with a rec.
fn epochs_told(flow: &Flow, batches: &Batches, bag: &[Timed]) -> u64
    ensures { result ≡ epochs_told (system_of flow.now batches.now) bag.now }
{
    most_batches(flow, batches).max(epochs_to(bag.last()))
}

// The greatest number of batches of a node.
fn most_batches(flow: &Flow, batches: &Batches) -> u64
    ensures { result ≡ most_batches (system_of flow.now batches.now) }
{
    let mut most = 0;
    for place in 0..flow.nodes() {
        most = most.max(batches.count(place as u32) as u64);
    }
    most
}

// How many epochs there are up to that of the timed rec.
fn epochs_to(last: Option<&Timed>) -> u64
    ensures { result ≡ epochs_to (option_copied last.entry) }
{
    match last {
        Some(timed) => after_epoch(timed.at()),
        None => 0,
    }
}

// The number after an epoch.
fn after_epoch(at: &Stamp) -> u64
    ensures { result ≡ after_epoch at.now }
{
    if at.len() == 0 {
        return 0;
    }
    at.at(0) as u64 + 1
}

// The line of each epoch, in one pass over the bag.
#[derive(Drop)]
struct EpochLines<'a> {
    name: &'a str,
    bag: &'a [Timed],
    count: u64,
    ghost ordered: { in_order bag.now ≡ bag.now },
}

impl<'a> fmt::Display for EpochLines<'a> {
    ghost use Rattle.std.specs.Prelude.{Some};
    ghost use Rattle.std.specs.List.{flat_map, range_with_len};
    ghost use Rattle.fw_command.specs.DenotationText.{epoch_line};

    ghost output = { λ l. Some (flat_map (epoch_line l.name.now l.bag.now) (range_with_len 0 l.count)) };

    fn fmt<W: fmt::Write>(&self, f: &mut fmt::Formatter<W>) -> fmt::Result {
        let mut rest = self.bag;
        for epoch in 0..self.count {
            let (bag, later) = parted(rest, epoch);
            let name = self.name;
            let line = EpochLine { name, bag, epoch };
            write!(f, "{line}")?;
            rest = later;
        }
        Ok(())
    }
}

// The timed recs up to an epoch, and those that are later.
fn parted(rest: &[Timed], epoch: u64) -> (&[Timed], &[Timed])
    requires ordered { IsNonDecreasingBy (λ r. after_epoch r.at) rest.now }
    requires one_more { epoch < 2 ^ 64 - 1 }
    ensures of_epoch { timed_where (same (epoch ∷ [])) result.0.now ≡ timed_where (same (epoch ∷ [])) rest.now }
    ensures of_later { (x : ℕ) → epoch < x → timed_where (same (x ∷ [])) result.1.now ≡ timed_where (same (x ∷ [])) rest.now }
    ensures ordered { IsNonDecreasingBy (λ r. after_epoch r.at) result.1.now }
{
    let next = epoch + 1;
    let end = rest.partition_point(|timed| after_epoch(timed.at()) <= next);
    rest.split_at(end)
}

// The line of an epoch.
#[derive(Drop)]
struct EpochLine<'a> {
    name: &'a str,
    bag: &'a [Timed],
    epoch: u64,
}

impl<'a> fmt::Display for EpochLine<'a> {
    ghost use Rattle.std.specs.Prelude.{Some};
    ghost use Rattle.fw_command.specs.DenotationText.{epoch_line};

    ghost output = { λ l. Some (epoch_line l.name.now l.bag.now l.epoch) };

    fn fmt<W: fmt::Write>(&self, f: &mut fmt::Formatter<W>) -> fmt::Result {
        let (name, epoch) = (self.name, self.epoch);
        let recs = RecsOf {
            bag: self.bag,
            epoch,
        };
        writeln!(f, "out {name} epoch {epoch}{recs}")
    }
}

// The recs of an epoch, each after a space.
#[derive(Drop)]
struct RecsOf<'a> {
    bag: &'a [Timed],
    epoch: u64,
}

impl<'a> fmt::Display for RecsOf<'a> {
    ghost use Rattle.std.specs.Prelude.{Some, [], ◌∷◌};
    ghost use Rattle.fw_time.specs.Stamp.{same};
    ghost use Rattle.fw_flow.specs.WholeBags.{timed_where};
    ghost use Rattle.fw_running.specs.EffectText.{recs_text};

    ghost output = { λ l. Some (recs_text (timed_where (same (l.epoch ∷ [])) l.bag.now)) };

    fn fmt<W: fmt::Write>(&self, f: &mut fmt::Formatter<W>) -> fmt::Result {
        for timed in self.bag {
            let rec = RecOf {
                timed,
                epoch: self.epoch,
            };
            write!(f, "{rec}")?;
        }
        Ok(())
    }
}

// The rec after a space, if it is of the epoch.
#[derive(Drop)]
struct RecOf<'a> {
    timed: &'a Timed,
    epoch: u64,
}

impl<'a> fmt::Display for RecOf<'a> {
    ghost use Rattle.std.specs.Prelude.{Some};
    ghost use Rattle.fw_command.specs.DenotationText.{rec_at_text};

    ghost output = { λ l. Some (rec_at_text l.epoch l.timed.now) };

    fn fmt<W: fmt::Write>(&self, f: &mut fmt::Formatter<W>) -> fmt::Result {
        if !is_epoch(self.timed.at(), self.epoch) {
            return Ok(());
        }
        let rec = self.timed.rec();
        write!(f, " {rec}")
    }
}

// Whether the stamp is the epoch.
fn is_epoch(at: &Stamp, epoch: u64) -> bool
    ensures { result ≡ same (epoch ∷ []) at.now }
{
    at.len() == 1 && at.at(0) as u64 == epoch
}

// The line of each number.
#[derive(Drop)]
struct NumberLines<'a> {
    name: &'a str,
    bag: &'a [Timed],
}

impl<'a> fmt::Display for NumberLines<'a> {
    ghost use Rattle.std.specs.Prelude.{Some};
    ghost use Rattle.std.specs.List.{flat_map};
    ghost use Rattle.fw_command.specs.DenotationText.{number_line};

    ghost output = { λ l. Some (flat_map (number_line l.name.now) l.bag.now) };

    fn fmt<W: fmt::Write>(&self, f: &mut fmt::Formatter<W>) -> fmt::Result {
        for timed in self.bag {
            let line = NumberLine {
                name: self.name,
                timed,
            };
            write!(f, "{line}")?;
        }
        Ok(())
    }
}

// The line of a number.
#[derive(Drop)]
struct NumberLine<'a> {
    name: &'a str,
    timed: &'a Timed,
}

impl<'a> fmt::Display for NumberLine<'a> {
    ghost use Rattle.std.specs.Prelude.{Some};
    ghost use Rattle.fw_command.specs.DenotationText.{number_line};

    ghost output = { λ l. Some (number_line l.name.now l.timed.now) };

    fn fmt<W: fmt::Write>(&self, f: &mut fmt::Formatter<W>) -> fmt::Result {
        let (name, at, rec) = (self.name, self.timed.at(), self.timed.rec());
        writeln!(f, "out {name} number {at} {rec}")
    }
}
