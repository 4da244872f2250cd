//! A flow whose parts have their places, and whose rules are not tested yet.
ghost use Rattle.std.specs.Prelude.{◌≡◌, ◌^◌, ◌<◌, ◌↔◌, true, false, List, map, length, IsTrue, OnOk, IfOk, IfErr};
ghost use Rattle.fw_lines.specs.Faults.{IfRefused};
ghost use Rattle.fw_lines.specs.declared.refusal.Code.TheVariants as code;
ghost use Rattle.fw_flow.specs.Declaring as declaring;
ghost use Rattle.fw_flow.specs.Check.{all_lines, loop_lines, node_lines, edge_lines, HasItsDegrees, JoinsDomains, AreWalksRight, IsWalkWrong, HasAllowedPolicy, StaysWithinLimits, HasBorders, IsFirstBreakIfAny, KeepsRule, later_rules, IsFirstBrokenOf};
ghost use Rattle.fw_flow.specs.Draft.{FitsTogether, IsDraftOf, LaterRulesHold};
ghost use Rattle.fw_flow.specs.Raw.{names_of, flow_of_declarations};
ghost use Rattle.fw_flow.specs.WellFormed.{HasShortChain};

use crate::check::{
    chain_line, degree_line, domain_line, edges_by_end, has_borders, links_of, policy_line, refuse,
};
use crate::parts::Parts;
use crate::raw::NameSpaces;
use crate::walks::{Link, are_walks_right};
use crate::{Declared, EdgeId, FullName};
use fw_lines::{Code, ReadFault};
use std::alloc::{AllocError, Global};

/// The parts of a flow with their links, and for each node the edges to it and from it.
#[derive(Drop)]
pub(crate) struct Draft {
    pub(crate) parts: Parts,
    links: Vec<Link>,
    pub(crate) incoming: Vec<Vec<EdgeId>>,
    pub(crate) outgoing: Vec<Vec<EdgeId>>,
}

impl Draft {
    /// The draft of the declarations, all of whose names are declared. The only error is want of
    /// memory.
    pub(crate) fn of(
        alloc: Global,
        names: &NameSpaces,
        declared: Vec<Declared<FullName>>,
    ) -> Result<Draft, AllocError>
        requires named { names.now ≡ names_of declared.items }
        requires few { length declared.items < 2 ^ 32 }
        requires names_declared { KeepsRule declared.items code.F3 }
        ensures fits { IfOk result FitsTogether }
        ensures draft { IfOk result (λ draft. IsDraftOf draft declared.items) }
    {
        let parts = Parts::of(alloc, names, declared)?;
        let links = links_of(alloc, &parts.edges)?;
        let nodes = parts.nodes.len();
        let incoming = edges_by_end(alloc, nodes, &receivers(alloc, &links)?)?;
        let outgoing = edges_by_end(alloc, nodes, &senders(alloc, &links)?)?;
        Ok(Draft {
            parts,
            links,
            incoming,
            outgoing,
        })
    }

    /// Tests the rules from F12 on, in their order, where this is the line of the first declaration
    /// past the limits.
    pub(crate) fn test(&self, alloc: Global, limit_line: Option<u32>) -> Result<(), ReadFault>
        requires { FitsTogether self.now }
        ensures kept { (raw : List declaring.Declared) → IsDraftOf self.now raw
            → IsFirstBreakIfAny (StaysWithinLimits raw) (all_lines raw) limit_line
            → OnOk result (LaterRulesHold raw) }
        ensures broken { (raw : List declaring.Declared) → IsDraftOf self.now raw
            → IsFirstBreakIfAny (StaysWithinLimits raw) (all_lines raw) limit_line
            → IfErr result (IfRefused (IsFirstBrokenOf later_rules raw)) }
    {
        refuse(Code::F12, self.chain_line())?;
        refuse(Code::F4, self.degree_line())?;
        refuse(Code::F5, self.domain_line())?;
        if !self.are_walks_right(alloc)? {
            return Err(ReadFault::of_whole(Code::F6));
        }
        refuse(Code::F7, self.policy_line())?;
        refuse(Code::F8, limit_line)?;
        if !self.has_borders() {
            return Err(ReadFault::of_whole(Code::F9));
        }
        Ok(())
    }

    /// The line of the first loop whose chain of loops does not end within three.
    #[tactic(auto, using(crate::proofs::Drafts::chains_first))]
    fn chain_line(&self) -> Option<u32>
        requires { FitsTogether self.now }
        ensures { (raw : List declaring.Declared) → IsDraftOf self.now raw
            → IsFirstBreakIfAny (HasShortChain (flow_of_declarations raw)) (loop_lines raw) result }
    {
        chain_line(
            self.parts.loops.as_slice(),
            self.parts.loop_lines.as_slice(),
        )
    }

    /// The line of the first node that has not the edges of its kind.
    fn degree_line(&self) -> Option<u32>
        requires { FitsTogether self.now }
        ensures { (raw : List declaring.Declared) → IsDraftOf self.now raw
            → IsFirstBreakIfAny (HasItsDegrees (flow_of_declarations raw)) (node_lines raw) result }
    {
        let lines = self.parts.node_lines.as_slice();
        degree_line(
            self.parts.nodes.as_slice(),
            &self.incoming,
            &self.outgoing,
            lines,
        )
    }

    /// The line of the first edge that joins different domains.
    #[tactic(auto, using(crate::proofs::Drafts::domains_first))]
    fn domain_line(&self) -> Option<u32>
        requires { FitsTogether self.now }
        ensures { (raw : List declaring.Declared) → IsDraftOf self.now raw
            → IsFirstBreakIfAny (JoinsDomains (flow_of_declarations raw)) (edge_lines raw) result }
    {
        domain_line(
            &self.parts.loops,
            self.parts.nodes.as_slice(),
            &self.links,
            &self.parts.edge_lines,
        )
    }

    /// Whether no closed walk passes a node outside loops, and each that stays in a loop passes a feedback of it. The only
    /// error is want of memory.
    fn are_walks_right(&self, alloc: Global) -> Result<bool, AllocError>
        requires { FitsTogether self.now }
        ensures right { (raw : List declaring.Declared) → IsDraftOf self.now raw
            → IfOk result (λ right. right ≡ true → AreWalksRight (flow_of_declarations raw)) }
        ensures wrong { (raw : List declaring.Declared) → IsDraftOf self.now raw → KeepsRule raw code.F5
            → IfOk result (λ right. right ≡ false → IsWalkWrong (flow_of_declarations raw)) }
    {
        are_walks_right(
            alloc,
            &self.parts.loops,
            self.parts.nodes.as_slice(),
            &self.links,
        )
    }

    /// The line of the first node whose policy its kind does not have.
    #[tactic(auto, using(crate::proofs::Drafts::policies_first))]
    fn policy_line(&self) -> Option<u32>
        requires { FitsTogether self.now }
        ensures { (raw : List declaring.Declared) → IsDraftOf self.now raw
            → IsFirstBreakIfAny (HasAllowedPolicy (flow_of_declarations raw)) (node_lines raw) result }
    {
        policy_line(
            self.parts.nodes.as_slice(),
            self.parts.node_lines.as_slice(),
        )
    }

    /// Whether there are an input and an output.
    fn has_borders(&self) -> bool
        ensures { (raw : List declaring.Declared) → IsDraftOf self.now raw → IsTrue result ↔ HasBorders (flow_of_declarations raw) }
    {
        has_borders(self.parts.nodes.as_slice())
    }
}

fn receivers(alloc: Global, links: &[Link]) -> Result<Vec<usize>, AllocError>
    ensures { IfOk result (λ ends. ends.items ≡ map (λ link. link.receiver) links.now) }
{
    links.iter().map(|link| link.receiver).collect(alloc)
}

fn senders(alloc: Global, links: &[Link]) -> Result<Vec<usize>, AllocError>
    ensures { IfOk result (λ ends. ends.items ≡ map (λ link. link.sender) links.now) }
{
    links.iter().map(|link| link.sender).collect(alloc)
}
