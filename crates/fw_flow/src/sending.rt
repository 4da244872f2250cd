//! At which stamp a node sends, by the stamp of its event.
ghost use Rattle.std.specs.Prelude.{◌≡◌, true};
ghost use Rattle.fw_time.specs.Stamp.{in_domain};
ghost use Rattle.fw_flow.specs.Dataflow.{bounds_of, bounds_of_domain, domain_of_kind, send_stamp, send_stamp_of_kind};
ghost use Rattle.fw_flow.specs.WellFormed.{IsGroupSize};

use crate::laws::flow_is_well_formed;
use crate::{Flow, Kind, NodeId};
use fw_time::Stamp;

impl Flow {
    /// The stamp at which an event of the node at `t`, a stamp of its domain, sends; none where it sends nothing. What a
    /// sequence sends is numbered instead.
    #[tactic(auto, using(crate::proofs::EdgeLaws::group_size), unfolding(crate::specs::Dataflow::bounds_of))]
    pub fn send_stamp(&self, node: NodeId, t: &Stamp) -> Option<Stamp>
        requires { in_domain (bounds_of self.now node) t.now ≡ true }
        ensures { result ≡ send_stamp self.now node t.now }
    {
        flow_is_well_formed(self);
        self.send_stamp_of_kind(self.kind(node), t)
    }

    /// The stamp at which an event of a node of the kind at `t`, a stamp of the kind's domain, sends; none where it sends
    /// nothing. What a sequence sends is numbered instead.
    #[tactic(auto, using(crate::proofs::SendStampLaws::domain_length, crate::proofs::SendStampLaws::regrouped_first))]
    pub fn send_stamp_of_kind(&self, kind: Kind, t: &Stamp) -> Option<Stamp>
        requires in_domain { in_domain (bounds_of_domain self.now (domain_of_kind self.now kind)) t.now ≡ true }
        requires group { IsGroupSize kind }
        ensures { result ≡ send_stamp_of_kind self.now kind t.now }
    {
        match kind {
            Kind::OutputEpoch | Kind::OutputNumber => None,
            Kind::Enter(_) => Some(t.nest(0)),
            Kind::Feedback(id) => {
                if t.counter() < self.max(id) {
                    Some(t.outer().nest(t.counter() + 1))
                } else {
                    None
                }
            }
            Kind::Leave(_) => Some(t.outer()),
            Kind::Regroup(n) => Some(Stamp::new(&[t.at(0) / n as u32])),
            _ => Some(t.copy()),
        }
    }
}
