//! A flow as its text.
ghost use Rattle.std.specs.Prelude.{◌≡◌, ◌<◌, ◌^◌, ℕ, Some, length};
ghost use Rattle.fw_flow.specs.Dataflow.{node_at, kind_of};
ghost use Rattle.fw_lines.specs.Written.{spaced};
ghost use Rattle.fw_flow_text.specs.FlowText.{text_of_flow, loop_lines_text, node_lines_text, edge_lines_text, loop_line_of, node_line_of, edge_line_of, named_kind};
ghost use Rattle.fw_flow_text.specs.Spelled as spec;
ghost use Rattle.fw_flow_text.specs.Spelled.{policy_words, ending_words, selection_words, assignment_words, node_words, IsSmallAssignment, IsSmallKind, IsSmallTerm, IsSmallValue};

use fw_bag::{Assignment, Comparison, Field, NewValue, Selection, Term};
use fw_flow::laws::flow_is_well_formed;
use fw_flow::{EdgeId, Flow, Kind, LoopId, NodeId, Policy};
use std::fmt;
use std::marker::Model;

/// A flow as a text: the lines of its loops, of its nodes and of its edges, in this order, each ended by LF, as `read_flow`
/// takes them. Contracts see this text.
#[derive(Drop)]
pub struct FlowText<'a> {
    flow: &'a Flow,
}

impl<'a> Model for FlowText<'a> {
    ghost use Rattle.std.specs.Prelude.{ℕ, List};
    ghost use Rattle.fw_flow_text.specs.FlowText.{text_of_flow};

    ghost Value = { List ℕ };

    ghost view = { λ text. text_of_flow text.flow.now };
}

impl<'a> FlowText<'a> {
    /// The text of the flow.
    pub fn of(flow: &'a Flow) -> Self
        ensures { result ≡ text_of_flow flow.now }
    {
        FlowText { flow }
    }
}

impl<'a> fmt::Display for FlowText<'a> {
    ghost output = { λ text. Some text };

    fn fmt<W: fmt::Write>(&self, f: &mut fmt::Formatter<W>) -> fmt::Result {
        let flow = self.flow;
        write!(
            f,
            "{}{}{}",
            LoopLines { flow },
            NodeLines { flow },
            EdgeLines { flow }
        )
    }
}

// The lines of the loops.
#[derive(Drop)]
struct LoopLines<'a> {
    flow: &'a Flow,
}

impl<'a> fmt::Display for LoopLines<'a> {
    ghost output = { λ lines. Some (loop_lines_text lines.flow.now) };

    fn fmt<W: fmt::Write>(&self, f: &mut fmt::Formatter<W>) -> fmt::Result {
        flow_is_well_formed(self.flow);
        for place in 0..self.flow.loops() {
            let line = LoopLine {
                flow: self.flow,
                id: LoopId::at(place as u32),
            };
            write!(f, "{line}")?;
        }
        Ok(())
    }
}

// The line of a loop.
#[derive(Drop)]
struct LoopLine<'a> {
    flow: &'a Flow,
    id: LoopId,
}

impl<'a> fmt::Display for LoopLine<'a> {
    ghost output = { λ line. Some (loop_line_of line.flow.now line.id) };

    fn fmt<W: fmt::Write>(&self, f: &mut fmt::Formatter<W>) -> fmt::Result {
        let name = self.flow.loop_name(self.id);
        let max = self.flow.max(self.id);
        match self.flow.loop_parent(self.id) {
            Some(parent) => {
                let parent = self.flow.loop_name(parent);
                writeln!(f, "loop {name} max {max} in {parent}")
            }
            None => writeln!(f, "loop {name} max {max}"),
        }
    }
}

// The lines of the nodes.
#[derive(Drop)]
struct NodeLines<'a> {
    flow: &'a Flow,
}

impl<'a> fmt::Display for NodeLines<'a> {
    ghost output = { λ lines. Some (node_lines_text lines.flow.now) };

    fn fmt<W: fmt::Write>(&self, f: &mut fmt::Formatter<W>) -> fmt::Result {
        flow_is_well_formed(self.flow);
        for place in 0..self.flow.nodes() {
            let line = NodeLine {
                flow: self.flow,
                id: NodeId::at(place as u32),
            };
            write!(f, "{line}")?;
        }
        Ok(())
    }
}

// The line of a node.
#[derive(Drop)]
struct NodeLine<'a> {
    flow: &'a Flow,
    id: NodeId,
}

impl<'a> fmt::Display for NodeLine<'a> {
    ghost output = { λ line. Some (node_line_of line.flow.now line.id) };

    fn fmt<W: fmt::Write>(&self, f: &mut fmt::Formatter<W>) -> fmt::Result {
        let name = name_of(self.flow, self.id);
        let form = FormWords {
            flow: self.flow,
            kind: self.flow.kind(self.id),
            policy: self.flow.policy(self.id),
        };
        writeln!(f, "node {name}{form}")
    }
}

// The name of a node; past the last node it is empty.
fn name_of(flow: &Flow, node: NodeId) -> &str
    ensures { result.now ≡ (node_at flow.now node).name }
{
    if (node.place() as usize) < flow.nodes() {
        flow.node_name(node).as_str()
    } else {
        ""
    }
}

// What the line of a node says behind its name, each word behind a space.
#[derive(Drop)]
struct FormWords<'a> {
    flow: &'a Flow,
    kind: Kind,
    policy: Policy,
}

impl<'a> fmt::Display for FormWords<'a> {
    ghost output = { λ form. Some (spaced (node_words (named_kind form.flow.now form.kind) form.policy)) };

    fn fmt<W: fmt::Write>(&self, f: &mut fmt::Formatter<W>) -> fmt::Result {
        let flow = self.flow;
        let policy = self.policy;
        match self.kind {
            Kind::Input => write!(f, " input"),
            Kind::OutputEpoch => write!(f, " output epoch"),
            Kind::OutputNumber => write!(f, " output number"),
            Kind::Select { selection, within } => {
                let selection = SelectionWords { selection };
                let ending = EndingWords {
                    flow,
                    within,
                    policy,
                };
                write!(f, " select{selection}{ending}")
            }
            Kind::Concat { within } => {
                write!(
                    f,
                    " concat{}",
                    EndingWords {
                        flow,
                        within,
                        policy
                    }
                )
            }
            Kind::Distinct { within } => {
                write!(
                    f,
                    " distinct{}",
                    EndingWords {
                        flow,
                        within,
                        policy
                    }
                )
            }
            Kind::Join { within } => write!(
                f,
                " join{}",
                EndingWords {
                    flow,
                    within,
                    policy
                }
            ),
            Kind::Sum { within } => write!(
                f,
                " sum{}",
                EndingWords {
                    flow,
                    within,
                    policy
                }
            ),
            Kind::Enter(id) => write!(f, " enter {} policy {policy}", flow.loop_name(id)),
            Kind::Feedback(id) => write!(f, " feedback {} policy {policy}", flow.loop_name(id)),
            Kind::Leave(id) => write!(f, " leave {} policy {policy}", flow.loop_name(id)),
            Kind::Total => write!(f, " total policy {policy}"),
            Kind::Sequence => write!(f, " sequence policy {policy}"),
            Kind::Ledger => write!(f, " ledger policy {policy}"),
            Kind::Regroup(size) => write!(f, " regroup {size} policy {policy}"),
        }
    }
}

// The words of a loop, if a node stands in one, and of a policy, each behind a space.
#[derive(Drop)]
struct EndingWords<'a> {
    flow: &'a Flow,
    within: Option<LoopId>,
    policy: Policy,
}

impl<'a> fmt::Display for EndingWords<'a> {
    ghost use Rattle.std.specs.Prelude.{option_map};
    ghost use Rattle.fw_flow.specs.DomainText.{name_of_loop};

    ghost output = { λ ending. Some (spaced (ending_words (option_map (name_of_loop ending.flow.now) ending.within) ending.policy)) };

    fn fmt<W: fmt::Write>(&self, f: &mut fmt::Formatter<W>) -> fmt::Result {
        let policy = self.policy;
        match self.within {
            Some(id) => write!(f, " loop {} policy {policy}", self.flow.loop_name(id)),
            None => write!(f, " policy {policy}"),
        }
    }
}

// The words of a selection, each behind a space.
#[derive(Drop)]
struct SelectionWords {
    selection: Selection,
}

impl fmt::Display for SelectionWords {
    ghost output = { λ words. Some (spaced (selection_words words.selection)) };

    fn fmt<W: fmt::Write>(&self, f: &mut fmt::Formatter<W>) -> fmt::Result {
        let condition = self.selection.condition;
        let field = field_word(condition.field);
        let comparison = comparison_word(condition.comparison);
        let assignment = AssignmentWords {
            assignment: self.selection.assignment,
        };
        match condition.term {
            Term::Number(number) => write!(f, " {field} {comparison} {number}{assignment}"),
            Term::Field(other) => {
                write!(f, " {field} {comparison} {}{assignment}", field_word(other))
            }
        }
    }
}

// The words of an assignment, each behind a space; nothing where there is none.
#[derive(Drop)]
struct AssignmentWords {
    assignment: Option<Assignment>,
}

impl fmt::Display for AssignmentWords {
    ghost output = { λ words. Some (spaced (assignment_words words.assignment)) };

    fn fmt<W: fmt::Write>(&self, f: &mut fmt::Formatter<W>) -> fmt::Result {
        let Some(assignment) = self.assignment else {
            return Ok(());
        };
        let field = field_word(assignment.field);
        match assignment.value {
            NewValue::Number(number) => write!(f, " set {field} {number}"),
            NewValue::Field(other) => write!(f, " set {field} {}", field_word(other)),
            NewValue::FieldPlus(other, number) => {
                write!(f, " set {field} {} plus {number}", field_word(other))
            }
        }
    }
}

fn field_word(field: Field) -> &'static str
    ensures { result.now ≡ spec.field_word field }
{
    match field {
        Field::Key => "key",
        Field::Value => "value",
    }
}

fn comparison_word(comparison: Comparison) -> &'static str
    ensures { result.now ≡ spec.comparison_word comparison }
{
    match comparison {
        Comparison::Equal => "=",
        Comparison::NotEqual => "!=",
        Comparison::Less => "<",
        Comparison::LessOrEqual => "<=",
        Comparison::Greater => ">",
        Comparison::GreaterOrEqual => ">=",
    }
}

// The lines of the edges.
#[derive(Drop)]
struct EdgeLines<'a> {
    flow: &'a Flow,
}

impl<'a> fmt::Display for EdgeLines<'a> {
    ghost output = { λ lines. Some (edge_lines_text lines.flow.now) };

    fn fmt<W: fmt::Write>(&self, f: &mut fmt::Formatter<W>) -> fmt::Result {
        flow_is_well_formed(self.flow);
        for place in 0..self.flow.edges() {
            let line = EdgeLine {
                flow: self.flow,
                id: EdgeId::at(place as u32),
            };
            write!(f, "{line}")?;
        }
        Ok(())
    }
}

// The line of an edge.
#[derive(Drop)]
struct EdgeLine<'a> {
    flow: &'a Flow,
    id: EdgeId,
}

impl<'a> fmt::Display for EdgeLine<'a> {
    ghost output = { λ line. Some (edge_line_of line.flow.now line.id) };

    fn fmt<W: fmt::Write>(&self, f: &mut fmt::Formatter<W>) -> fmt::Result {
        let name = self.flow.edge_name(self.id);
        let sender = name_of(self.flow, self.flow.src(self.id));
        let receiver = name_of(self.flow, self.flow.dst(self.id));
        writeln!(f, "edge {name} {sender} {receiver}")
    }
}

// The numbers of the nodes' kinds are below 2^64.
pub(crate) fn numbers_are_small(flow: &Flow)
    ensures { (p : ℕ) → p < length flow.now.nodes → IsSmallKind (named_kind flow.now (kind_of flow.now p)) }
{
    flow_is_well_formed(flow);
    for place in 0..flow.nodes() {
        kind_is_small(flow, flow.kind(NodeId::at(place as u32)));
    }
}

fn kind_is_small(flow: &Flow, kind: Kind)
    ensures { IsSmallKind (named_kind flow.now kind) }
{
    let _ = flow;
    match kind {
        Kind::Select { selection, .. } => {
            term_is_small(selection.condition.term);
            assignment_is_small(selection.assignment);
        }
        Kind::Regroup(size) => number_is_small(size),
        _ => {}
    }
}

fn term_is_small(term: Term)
    ensures { IsSmallTerm term }
{
    if let Term::Number(number) = term {
        number_is_small(number);
    }
}

fn assignment_is_small(assignment: Option<Assignment>)
    ensures { IsSmallAssignment assignment }
{
    if let Some(assignment) = assignment {
        value_is_small(assignment.value);
    }
}

fn value_is_small(value: NewValue)
    ensures { IsSmallValue value }
{
    match value {
        NewValue::Number(number) | NewValue::FieldPlus(_, number) => number_is_small(number),
        NewValue::Field(_) => {}
    }
}

fn number_is_small(number: u64)
    ensures { number < 2 ^ 64 }
{
    let _ = number;
}
