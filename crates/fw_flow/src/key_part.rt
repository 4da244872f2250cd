//! Parts of the keys.
ghost use Rattle.std.specs.Prelude.{◌≡◌};
ghost use Rattle.fw_flow.specs.Dataflow.{receiver};
ghost use Rattle.fw_flow.specs.KeyParts.{is_of_part_if, may_split, part_of, is_carried};
ghost use Rattle.fw_flow.specs.KeyParts as spec;

use crate::{EdgeId, Flow, Kind, NodeId};
use fw_bag::Rec;

/// A part of the keys. The keys are dealt out to the parts from 0 to `last`: a key is of the part that is its remainder when
/// it is divided by how many these are.
#[derive(Clone, Copy, Debug, PartialEq, Eq)]
pub struct KeyPart {
    /// Which of the parts it is.
    pub place: u32,
    /// The last of the parts.
    pub last: u32,
}

impl KeyPart {
    /// Whether a key is of this part.
    pub fn has(self, key: u64) -> bool
        ensures { result ≡ spec.is_of_part self key }
    {
        key % (u64::from(self.last) + 1) == u64::from(self.place)
    }
}

/// Whether a key is of a part, where there is one; else each key is.
pub fn is_of_part(part: Option<KeyPart>, key: u64) -> bool
    ensures { result ≡ is_of_part_if part key }
{
    match part {
        Some(part) => part.has(key),
        None => true,
    }
}

impl<L> Kind<L> {
    /// Whether nodes of this kind may be split. These may: distinct, join, sum and total. What they make of the recs of a key rests on
    /// recs of this key alone.
    pub fn may_split(&self) -> bool
        ensures { result ≡ may_split self.now }
    {
        matches!(
            self,
            Kind::Distinct { .. } | Kind::Join { .. } | Kind::Sum { .. } | Kind::Total
        )
    }
}

impl Flow {
    /// The part of the keys whose recs come to a node, where it is a replica; to any other node come all.
    #[tactic(auto, unfolding(crate::specs::KeyParts::part_of))]
    pub fn part(&self, node: NodeId) -> Option<KeyPart>
        ensures { result ≡ part_of self.now node }
    {
        if self.unsplit {
            return None;
        }
        match self.nodes.get(node.place() as usize) {
            Some(node) if node.kind.may_split() => node.part,
            _ => None,
        }
    }

    /// The part of the keys whose recs an edge carries, where its receiver is a replica; any other edge carries all.
    pub fn part_on(&self, edge: EdgeId) -> Option<KeyPart>
        ensures { result ≡ part_of self.now (receiver self.now edge) }
    {
        if self.unsplit {
            return None;
        }
        self.part(self.dst(edge))
    }

    /// Whether an edge carries a rec that its sender sends: it carries those whose keys are of the part of its receiver.
    #[tactic(auto, unfolding(crate::specs::KeyParts::is_carried))]
    pub fn carries(&self, edge: EdgeId, rec: &Rec) -> bool
        ensures { result ≡ is_carried self.now edge rec.now }
    {
        is_of_part(self.part_on(edge), rec.key)
    }
}
