//! What lines have told of a flow's nodes and edges so far.
ghost use Rattle.std.specs.Prelude.{◌≡◌, ◌<◌, ◌++◌, [], length, map, true, false, unwrap_or, IfOk, OnOk};
ghost use Rattle.std.specs.List.{list_all};
ghost use Rattle.fw_flow.specs.Dataflow.{in_edges, out_edges};
ghost use Rattle.fw_offers_text.specs.Draft as spec;
ghost use Rattle.fw_offers_text.specs.Draft.{told_by, told_of_node, told_of_edge, with_statement, fault_after, is_node_whole, is_whole, offer_from, StatementFits, IsOf};
ghost use Rattle.fw_offers_text.specs.OffersGrammar as offered;
ghost use Rattle.fw_offers_text.specs.Statements.{is_in_domains, IsStatementOf};

use crate::code::ChoiceCode;
use crate::offers::Offers;
use crate::owed::{
    are_counts_apart, are_covers_apart, is_by_events, is_of_its_kind, is_record_told,
};
use crate::recording::{counted, offered_between, recorded, table_of};
use crate::statement::Statement;
use fw_flow::laws::flow_is_well_formed;
use fw_flow::{
    Counted, CountedMessages, EdgeId, Flow, NodeId, Notices, Offer, Offered, Recorded, Records,
    SentTable, Stamps,
};
use fw_frontier::Front;
use fw_time::Stamp;
use std::alloc::{AllocError, Global};
use std::marker::Model;

/// What was told of a node. Contracts see it as lists.
#[derive(Debug, Drop)]
pub struct NodeDraft {
    // Whether it is present, once that is told.
    present: Option<bool>,
    records: Vec<Recorded>,
    range: Option<Offered>,
    delivered: Vec<Counted>,
    sent: Vec<Counted>,
    // Of what it was notified, once that is told.
    notified: Option<Notices>,
    // How many messages it sent, once that is told.
    table: Option<SentTable>,
}

impl Model for NodeDraft {
    ghost use Rattle.fw_offers_text.specs.Draft.{NodeTold};

    ghost Value = { NodeTold };

    ghost view = { λ node. record {
      present = node.present;
      records = node.records.items;
      range = node.range;
      delivered = node.delivered.items;
      sent = node.sent.items;
      notified = node.notified;
      table = node.table;
    } };
}

/// Which lines of an edge were told: of what came on it, of what was sent on it.
#[derive(Clone, Copy, Debug)]
pub struct EdgeDraft {
    /// Of what came on it.
    pub delivered: bool,
    /// Of what was sent on it.
    pub sent: bool,
}

/// What was told of each node and of each edge. Contracts see it as lists.
#[derive(Debug, Drop)]
pub(crate) struct Draft {
    nodes: Vec<NodeDraft>,
    edges: Vec<EdgeDraft>,
}

impl Model for Draft {
    ghost use Rattle.fw_offers_text.specs.Draft.{Told};

    ghost Value = { Told };

    ghost view = { λ draft. record { nodes = draft.nodes.items; edges = draft.edges.items } };
}

impl NodeDraft {
    // Nothing was told yet.
    fn new(alloc: Global) -> Self
        ensures { result ≡ spec.nothing_told }
    {
        NodeDraft {
            present: None,
            records: Vec::new(alloc),
            range: None,
            delivered: Vec::new(alloc),
            sent: Vec::new(alloc),
            notified: None,
            table: None,
        }
    }

    // Takes whether it is present.
    fn take_presence(&mut self, present: bool)
        ensures { self.new ≡ spec.with_presence present self.old }
    {
        self.present = Some(present);
    }

    // Takes a record.
    fn take_record(&mut self, recorded: Recorded) -> Result<(), AllocError>
        ensures { OnOk result (self.new ≡ spec.with_record recorded self.old) }
    {
        self.records.push(recorded)?;
        Ok(())
    }

    // Takes its range.
    fn take_range(&mut self, range: Offered)
        ensures { self.new ≡ spec.with_range range self.old }
    {
        self.range = Some(range);
    }

    // Takes messages of an edge that came, at these stamps.
    fn take_arrivals(
        &mut self,
        flow: &Flow,
        edge: EdgeId,
        stamps: &Notices,
    ) -> Result<(), AllocError>
        ensures { OnOk result
            (self.new ≡ spec.with_arrivals (map (offered.counted_at flow.now edge) stamps.now) self.old) }
    {
        count_stamps(flow, edge, stamps.as_slice(), &mut self.delivered)
    }

    // Takes messages of an edge that it sent, at these stamps.
    fn take_sent(&mut self, flow: &Flow, edge: EdgeId, stamps: &Notices) -> Result<(), AllocError>
        ensures { OnOk result
            (self.new ≡ spec.with_sent (map (offered.counted_at flow.now edge) stamps.now) self.old) }
    {
        count_stamps(flow, edge, stamps.as_slice(), &mut self.sent)
    }

    // Takes of what it was notified.
    fn take_notices(&mut self, stamps: Notices)
        ensures { self.new ≡ spec.with_notified stamps self.old }
    {
        self.notified = Some(stamps);
    }

    // Takes how many messages it sent.
    fn take_table(&mut self, table: SentTable)
        ensures { self.new ≡ spec.with_table table self.old }
    {
        self.table = Some(table);
    }

    // Whether a frontier lies above that of the last record.
    fn takes_front(&self, front: &Front) -> bool
        ensures { result ≡ spec.is_above_last self.now.records front.now }
    {
        match self.records.last() {
            Some(last) => last.front.subset(front) && !last.front.same(front),
            None => true,
        }
    }

    // Whether it was told that it is present.
    fn is_present(&self) -> bool
        ensures { result ≡ unwrap_or self.now.present false }
    {
        self.present.unwrap_or(false)
    }

    // What it offers.
    fn into_offer(self, alloc: Global) -> Offer
        ensures { result ≡ offer_from self }
    {
        let NodeDraft {
            present,
            records,
            range,
            delivered,
            sent,
            notified,
            table,
        } = self;
        Offer {
            present: present.unwrap_or(false),
            offered: range.unwrap_or(Offered::Listed(Records::of(records))),
            stamps: Stamps {
                delivered: CountedMessages::of(delivered),
                notified: notified.unwrap_or(Notices::of(Vec::new(alloc))),
                sent: CountedMessages::of(sent),
            },
            table: table.unwrap_or(SentTable::new(alloc)),
        }
    }
}

impl Draft {
    /// Nothing was told yet.
    pub(crate) fn new(alloc: Global, flow: &Flow) -> Result<Self, AllocError>
        ensures { IfOk result (λ draft. draft ≡ told_by flow.now []) }
    {
        let mut nodes = Vec::with_capacity(alloc, flow.nodes())?;
        for _place in 0..flow.nodes() {
            nodes.push(NodeDraft::new(alloc))?;
        }
        let mut edges = Vec::with_capacity(alloc, flow.edges())?;
        for _edge in 0..flow.edges() {
            edges.push(EdgeDraft {
                delivered: false,
                sent: false,
            })?;
        }
        Ok(Draft { nodes, edges })
    }

    // What was told of a node.
    fn node(&self, node: NodeId) -> &NodeDraft
        requires { node < length self.now.nodes }
        ensures { result.now ≡ told_of_node self.now node }
    {
        &self.nodes[node.place() as usize]
    }

    // Which lines of an edge were told; none past the last edge.
    fn edge(&self, edge: EdgeId) -> EdgeDraft
        ensures { result ≡ told_of_edge self.now edge }
    {
        match self.edges.get(edge.place() as usize) {
            Some(told) => *told,
            None => EdgeDraft {
                delivered: false,
                sent: false,
            },
        }
    }

    /// The rule that a statement breaks whose stamps lie in their domains: O4 of kinds, O5 of what is said twice, O6 of order, O7
    /// of what a record has to tell.
    pub(crate) fn fault(&self, flow: &Flow, statement: &Statement) -> Option<ChoiceCode>
        requires { StatementFits self.now statement.now }
        ensures { result ≡ fault_after flow.now self.now statement.now }
    {
        if !is_of_its_kind(flow, statement) {
            Some(ChoiceCode::O4)
        } else if !self.is_new(statement) {
            Some(ChoiceCode::O5)
        } else if !self.is_in_order(statement) {
            Some(ChoiceCode::O6)
        } else if !is_record_told(flow, statement) {
            Some(ChoiceCode::O7)
        } else {
            None
        }
    }

    // Whether a statement says nothing that was told, and nothing twice.
    fn is_new(&self, statement: &Statement) -> bool
        requires { StatementFits self.now statement.now }
        ensures { result ≡ spec.is_new_after self.now statement.now }
    {
        match statement {
            Statement::Node { node, .. } => self.node(*node).present.is_none(),
            Statement::Record { covers, .. } => are_covers_apart(covers.as_slice()),
            Statement::Range { node, .. } => self.node(*node).range.is_none(),
            Statement::Delivered { edge, .. } => !self.edge(*edge).delivered,
            Statement::Sent { edge, .. } => !self.edge(*edge).sent,
            Statement::Notified { node, .. } => self.node(*node).notified.is_none(),
            Statement::Counts { node, counts } => {
                self.node(*node).table.is_none() && are_counts_apart(counts)
            }
        }
    }

    // Whether a record lies above the last one of its node, and a range's second end above its first or at it.
    fn is_in_order(&self, statement: &Statement) -> bool
        requires { StatementFits self.now statement.now }
        ensures { result ≡ spec.is_in_order_after self.now statement.now }
    {
        match statement {
            Statement::Record { node, front, .. } => self.node(*node).takes_front(front),
            Statement::Range {
                least,
                greatest,
                ..
            } => least.subset(greatest),
            Statement::Node { .. }
            | Statement::Delivered { .. }
            | Statement::Sent { .. }
            | Statement::Notified { .. }
            | Statement::Counts { .. } => true,
        }
    }

    /// Takes what a statement says.
    pub(crate) fn tell(
        &mut self,
        alloc: Global,
        flow: &Flow,
        statement: Statement,
    ) -> Result<(), AllocError>
        requires of_flow { IsOf flow.now self.old }
        requires there { IsStatementOf flow.now statement }
        requires small { is_in_domains flow.now statement ≡ true }
        requires apart { spec.is_new_after self.old statement ≡ true }
        ensures { OnOk result (self.new ≡ with_statement flow.now self.old statement) }
    {
        match statement {
            Statement::Node { node, present } => self.nodes[node.place() as usize].take_presence(
                present,
            ),
            Statement::Record {
                node,
                front,
                covers,
            } => {
                let record = recorded(alloc, flow, node, front, &covers)?;
                self.nodes[node.place() as usize].take_record(record)?;
            }
            Statement::Range {
                node,
                least,
                greatest,
                and_all,
            } => {
                let range = offered_between(flow, node, least, greatest, and_all);
                self.nodes[node.place() as usize].take_range(range);
            }
            Statement::Delivered { edge, stamps } => self.tell_arrivals(flow, edge, &stamps)?,
            Statement::Sent { edge, stamps } => self.tell_sent(flow, edge, &stamps)?,
            Statement::Notified { node, stamps } => self.nodes[node.place() as usize].take_notices(
                stamps,
            ),
            Statement::Counts { node, counts } => {
                let table = table_of(alloc, &counts)?;
                self.nodes[node.place() as usize].take_table(table);
            }
        }
        Ok(())
    }

    // Takes the stamps of what came on an edge.
    fn tell_arrivals(
        &mut self,
        flow: &Flow,
        edge: EdgeId,
        stamps: &Notices,
    ) -> Result<(), AllocError>
        requires of_flow { IsOf flow.now self.old }
        requires there { edge < length flow.now.edges }
        ensures { OnOk result
            (self.new ≡ with_statement flow.now self.old (Statement.Delivered edge stamps.now)) }
    {
        flow_is_well_formed(flow);
        self.nodes[flow.dst(edge).place() as usize].take_arrivals(flow, edge, stamps)?;
        self.edges[edge.place() as usize].delivered = true;
        Ok(())
    }

    // Takes the stamps of what was sent on an edge.
    fn tell_sent(&mut self, flow: &Flow, edge: EdgeId, stamps: &Notices) -> Result<(), AllocError>
        requires of_flow { IsOf flow.now self.old }
        requires there { edge < length flow.now.edges }
        ensures { OnOk result
            (self.new ≡ with_statement flow.now self.old (Statement.Sent edge stamps.now)) }
    {
        flow_is_well_formed(flow);
        self.nodes[flow.src(edge).place() as usize].take_sent(flow, edge, stamps)?;
        self.edges[edge.place() as usize].sent = true;
        Ok(())
    }

    /// Whether all is told of each node.
    pub(crate) fn is_all_told(&self, flow: &Flow) -> bool
        requires { IsOf flow.now self.now }
        ensures { result ≡ is_whole flow.now self.now }
    {
        for place in 0..flow.nodes() {
            if !self.is_node_told(flow, NodeId::at(place as u32)) {
                return false;
            }
        }
        true
    }

    // Whether all that has to be told of a node is told.
    fn is_node_told(&self, flow: &Flow, node: NodeId) -> bool
        requires { node < length self.now.nodes }
        ensures { result ≡ is_node_whole flow.now self.now node }
    {
        let draft = self.node(node);
        let kind = flow.kind(node);
        let owes_arrivals = draft.is_present() || is_by_events(flow.restoring(node));
        let owes_sent = kind.is_input() || (draft.is_present() && !flow.policy(node).can_resend());
        draft.present.is_some()
            && (!owes_arrivals || self.are_arrivals_told(flow, node))
            && (!(owes_arrivals && kind.is_notified()) || draft.notified.is_some())
            && (!owes_sent || self.are_sent_told(flow, node))
            && (!kind.is_sequence() || draft.table.is_some())
    }

    // Whether the stamps of what came on each in-edge are told.
    fn are_arrivals_told(&self, flow: &Flow, node: NodeId) -> bool
        ensures { result ≡ list_all (λ d. (told_of_edge self.now d).delivered) (in_edges flow.now node) }
    {
        flow.in_edges(node)
            .iter()
            .all(|edge| self.edge(*edge).delivered)
    }

    // Whether the stamps of what was sent on each out-edge are told.
    fn are_sent_told(&self, flow: &Flow, node: NodeId) -> bool
        ensures { result ≡ list_all (λ e. (told_of_edge self.now e).sent) (out_edges flow.now node) }
    {
        flow.out_edges(node)
            .iter()
            .all(|edge| self.edge(*edge).sent)
    }

    /// What the nodes offer.
    pub(crate) fn into_offers(self, alloc: Global) -> Result<Offers, AllocError>
        ensures { IfOk result (λ offers. offers ≡ map offer_from self.nodes) }
    {
        let Draft { nodes, edges } = self;
        drop(edges);
        let mut offers = Vec::with_capacity(alloc, nodes.len())?;
        for node in nodes {
            offers.push(node.into_offer(alloc))?;
        }
        Ok(Offers { offers })
    }
}

// Adds messages of an edge at these stamps.
fn count_stamps(
    flow: &Flow,
    edge: EdgeId,
    stamps: &[Stamp],
    messages: &mut Vec<Counted>,
) -> Result<(), AllocError>
    ensures { OnOk result
        (messages.new.items ≡ messages.old.items ++ map (offered.counted_at flow.now edge) stamps.now) }
{
    for stamp in stamps {
        messages.push(counted(flow, edge, stamp))?;
    }
    Ok(())
}
