//! Calls of progress.
ghost use Rattle.std.specs.Prelude.{◌≡◌, ◌<◌, length, IfOk};
ghost use Rattle.fw_progress.specs.Progress.{IsProgressOf, stamps_of_recs};

use fw_bag::Rec;
use fw_flow::{EdgeId, Flow, NodeId, Steps};
use fw_frontier::Front;
use fw_lines::Batches;
use fw_progress::{Growths, Progress, can_send};
use fw_time::Stamp;
use row_words::{
    Answers, NoAnswer, Row, columns, edge_of, mark, node_of, part, stamp_in, stamp_of, stamps_of,
    tell_row,
};
use std::alloc::{AllocError, Global};
use std::fmt::Write;
use std::marker::Brand;
use std::sync::ledger::{Blank, Ledger};

/// What progress keeps of the events of a flow.
#[derive(Drop)]
struct Events<'a> {
    alloc: Global,
    flow: &'a Flow,
    progress: Progress,
}

/// What happens.
#[derive(Clone, Copy)]
enum Happening {
    Inject,
    Deliver,
    Notify,
}

/// What is asked of a node.
#[derive(Clone, Copy)]
enum Question {
    May,
    First,
    Complete,
    Grown,
}

/// A call, by its word.
#[derive(Clone, Copy)]
enum Call {
    Event(Happening),
    Of(Question),
    Refresh,
    Kept,
    Epochs,
}

/// The call of a word.
fn call_of(word: &str) -> Result<Call, NoAnswer> {
    match word {
        "inject" => Ok(Call::Event(Happening::Inject)),
        "deliver" => Ok(Call::Event(Happening::Deliver)),
        "notify" => Ok(Call::Event(Happening::Notify)),
        "may" => Ok(Call::Of(Question::May)),
        "first" => Ok(Call::Of(Question::First)),
        "complete" => Ok(Call::Of(Question::Complete)),
        "grown" => Ok(Call::Of(Question::Grown)),
        "refresh" => Ok(Call::Refresh),
        "kept" => Ok(Call::Kept),
        "epochs" => Ok(Call::Epochs),
        "loop" | "node" | "edge" | "batches" => Err(NoAnswer::NotAsked),
        _ => Err(NoAnswer::NotSpelled),
    }
}

/// Tells the answers to calls, of a flow whose inputs have the batches of the lines `batches NODE COUNT`.
pub fn tell(alloc: Global, flow: &Flow, row: Row<'_>, told: &mut String) -> Result<(), AllocError> {
    match batches_of(alloc, flow, row.lines) {
        Ok(batches) => tell_events(alloc, flow, &batches, row, told),
        Err(_) => told.push_str("no batches\n"),
    }
}

/// Tells the answers to calls, of a flow whose inputs have these batches.
fn tell_events(
    alloc: Global,
    flow: &Flow,
    batches: &Batches,
    row: Row<'_>,
    told: &mut String,
) -> Result<(), AllocError> {
    let mut events = Events {
        alloc,
        flow,
        progress: Progress::new(alloc, flow, batches)?,
    };
    tell_row(alloc, row, &mut events, told)
}

/// The batches that the lines `batches NODE COUNT` tell.
fn batches_of(alloc: Global, flow: &Flow, lines: &str) -> Result<Batches, NoAnswer> {
    let mut batches = Batches::new(alloc);
    for line in lines.lines() {
        add_batches(flow, &mut batches, line)?;
    }
    Ok(batches)
}

/// Adds as many batches of one rec as a line `batches` says.
fn add_batches(flow: &Flow, batches: &mut Batches, line: &str) -> Result<(), NoAnswer> {
    let (word, rest) = part(line);
    if word != "batches" {
        return Ok(());
    }
    let (name, count) = part(rest);
    let node = node_of(flow, name)?;
    for _ in 0..count.parse::<u32>()? {
        batches.add(node.place(), &[Rec { key: 0, value: 0 }])?;
    }
    Ok(())
}

impl Answers for Events<'_> {
    ghost stands = { λ events. IsProgressOf events.flow.now events.progress };

    fn answer(&mut self, line: &str, said: &mut String) -> Result<(), NoAnswer> {
        let (word, rest) = part(line);
        match call_of(word) {
            Ok(call) => make(self.alloc, self.flow, &mut self.progress, call, rest, said),
            Err(none) => Err(none),
        }
    }
}

/// Makes a call, and says what it answers.
fn make(
    alloc: Global,
    flow: &Flow,
    progress: &mut Progress,
    call: Call,
    rest: &str,
    said: &mut String,
) -> Result<(), NoAnswer>
    requires { IsProgressOf flow.now progress.old }
    ensures { IsProgressOf flow.now progress.new }
{
    match call {
        Call::Event(event) => happens(alloc, flow, progress, event, rest),
        Call::Of(question) => of_node(alloc, flow, progress, question, rest, said),
        Call::Refresh => refresh(alloc, flow, progress, said),
        Call::Kept => say_fronts(flow, progress.kept(), said),
        Call::Epochs => epochs(alloc, flow, progress, rest, said),
    }
}

/// An event: `inject NODE : STAMP ..`, `deliver EDGE STAMP : STAMP ..` or `notify NODE STAMP : STAMP ..`.
fn happens(
    alloc: Global,
    flow: &Flow,
    progress: &mut Progress,
    event: Happening,
    text: &str,
) -> Result<(), NoAnswer>
    requires { IsProgressOf flow.now progress.old }
    ensures { IsProgressOf flow.now progress.new }
{
    let (what, sent) = columns(text, " :");
    let sent = stamps_of(alloc, sent)?;
    match event {
        Happening::Inject => inject(alloc, flow, progress, what, &sent),
        Happening::Deliver => deliver(alloc, flow, progress, what, &sent),
        Happening::Notify => notify(alloc, flow, progress, what, &sent),
    }
}

/// A rec of key 0 and value 0 at each of the stamps.
fn nothing_at(alloc: Global, stamps: &[Stamp]) -> Result<Vec<(Stamp, Rec)>, AllocError>
    ensures { IfOk result (λ recs. stamps_of_recs recs.items ≡ stamps.now) }
{
    let mut recs = Vec::with_capacity(alloc, stamps.len())?;
    for at in stamps {
        recs.push((at.copy(), Rec { key: 0, value: 0 }))?;
    }
    Ok(recs)
}

/// An input injects.
fn inject(
    alloc: Global,
    flow: &Flow,
    progress: &mut Progress,
    name: &str,
    sent: &[Stamp],
) -> Result<(), NoAnswer>
    requires { IsProgressOf flow.now progress.old }
    ensures { IsProgressOf flow.now progress.new }
{
    let node = node_of(flow, name)?;
    injected(alloc, flow, progress, node, sent)
}

/// An input injects, if it can send at these stamps.
fn injected(
    alloc: Global,
    flow: &Flow,
    progress: &mut Progress,
    node: NodeId,
    sent: &[Stamp],
) -> Result<(), NoAnswer>
    requires progress { IsProgressOf flow.now progress.old }
    requires there { node < length flow.now.nodes }
    ensures { IsProgressOf flow.now progress.new }
{
    if !can_send(flow, node, sent) {
        return Err(NoAnswer::NotSpelled);
    }
    let recs = nothing_at(alloc, sent)?;
    progress.injected(flow, node, &recs)?;
    Ok(())
}

/// A message is delivered.
fn deliver(
    alloc: Global,
    flow: &Flow,
    progress: &mut Progress,
    what: &str,
    sent: &[Stamp],
) -> Result<(), NoAnswer>
    requires { IsProgressOf flow.now progress.old }
    ensures { IsProgressOf flow.now progress.new }
{
    let (name, at) = part(what);
    let edge = edge_of(flow, name)?;
    let at = stamp_of(alloc, at)?;
    delivered(alloc, flow, progress, edge, &at, sent)
}

/// A message is delivered, if it can come at the stamp and the receiver can send at these.
fn delivered(
    alloc: Global,
    flow: &Flow,
    progress: &mut Progress,
    edge: EdgeId,
    at: &Stamp,
    sent: &[Stamp],
) -> Result<(), NoAnswer>
    requires progress { IsProgressOf flow.now progress.old }
    requires there { edge < length flow.now.edges }
    ensures { IsProgressOf flow.now progress.new }
{
    let node = flow.dst(edge);
    if !at.in_domain(&flow.domain(node)) || !can_send(flow, node, sent) {
        return Err(NoAnswer::NotSpelled);
    }
    let recs = nothing_at(alloc, sent)?;
    progress.delivered(flow, edge, at, &recs)?;
    Ok(())
}

/// A node is notified.
fn notify(
    alloc: Global,
    flow: &Flow,
    progress: &mut Progress,
    what: &str,
    sent: &[Stamp],
) -> Result<(), NoAnswer>
    requires { IsProgressOf flow.now progress.old }
    ensures { IsProgressOf flow.now progress.new }
{
    let (name, at) = part(what);
    let node = node_of(flow, name)?;
    let at = stamp_of(alloc, at)?;
    if !can_send(flow, node, sent) {
        return Err(NoAnswer::NotSpelled);
    }
    let recs = nothing_at(alloc, sent)?;
    progress.notified(flow, node, &at, &recs)?;
    Ok(())
}

/// What a node may or has: `may NODE STAMP`, `first NODE`, `complete NODE` or `grown NODE`.
fn of_node(
    alloc: Global,
    flow: &Flow,
    progress: &mut Progress,
    question: Question,
    text: &str,
    said: &mut String,
) -> Result<(), NoAnswer>
    requires { IsProgressOf flow.now progress.old }
    ensures { IsProgressOf flow.now progress.new }
{
    let (name, at) = part(text);
    let node = node_of(flow, name)?;
    match question {
        Question::May => may(alloc, flow, progress, node, at, said),
        Question::First => first(alloc, flow, progress, node, said),
        Question::Complete => complete(alloc, flow, progress, node, said),
        Question::Grown => grown(flow, progress, node, said),
    }
}

/// Whether a node may be notified of a stamp.
fn may(
    alloc: Global,
    flow: &Flow,
    progress: &mut Progress,
    node: NodeId,
    at: &str,
    said: &mut String,
) -> Result<(), NoAnswer>
    requires progress { IsProgressOf flow.now progress.old }
    requires there { node < length flow.now.nodes }
    ensures { IsProgressOf flow.now progress.new }
{
    let at = stamp_in(alloc, at, &flow.domain(node))?;
    let can = progress.can_notify(alloc, flow, node, &at)?;
    said.push_str(if can { "yes" } else { "no" })?;
    Ok(())
}

/// Says a node with a frontier.
fn say_front(flow: &Flow, node: NodeId, front: &Front, said: &mut String) -> Result<(), NoAnswer> {
    if (node.place() as usize) >= flow.nodes() {
        return Err(NoAnswer::NotSpelled);
    }
    mark(", ", said)?;
    write!(said, "{} {front}", flow.node_name(node))?;
    Ok(())
}

/// Says a frontier of each node.
fn say_fronts(flow: &Flow, fronts: &[Front], said: &mut String) -> Result<(), NoAnswer> {
    for (front, place) in fronts.iter().zip(0..=u32::MAX) {
        say_front(flow, NodeId::at(place), front, said)?;
    }
    Ok(())
}

/// The growths up to the complete frontiers, one after the other.
fn refresh(
    alloc: Global,
    flow: &Flow,
    progress: &mut Progress,
    said: &mut String,
) -> Result<(), NoAnswer>
    requires { IsProgressOf flow.now progress.old }
    ensures { IsProgressOf flow.now progress.new }
{
    let growths = growths(alloc, flow, progress)?;
    for growth in &growths {
        say_front(flow, growth.node, &growth.front, said)?;
    }
    Ok(())
}

/// The growths of a refresh.
fn growths(alloc: Global, flow: &Flow, progress: &mut Progress) -> Result<Growths, NoAnswer>
    requires { IsProgressOf flow.now progress.old }
    ensures { IsProgressOf flow.now progress.new }
{
    uncounted::<Brand>(alloc, flow, progress, Blank::new(1))
}

/// The same by a counter of its own.
fn uncounted<L: Ledger>(
    alloc: Global,
    flow: &Flow,
    progress: &mut Progress,
    blank: Blank,
) -> Result<Growths, NoAnswer>
    requires progress { IsProgressOf flow.now progress.old }
    requires name { blank.name ≡ L.name }
    requires parts { blank.parts ≡ L.parts }
    requires some { 0 < L.parts }
    ensures { IsProgressOf flow.now progress.new }
{
    let mut steps = Steps::<L>::none(blank);
    let growths = progress.refresh(alloc, flow, &mut steps)?;
    Ok(growths)
}

/// The complete frontier of a node.
fn complete(
    alloc: Global,
    flow: &Flow,
    progress: &mut Progress,
    node: NodeId,
    said: &mut String,
) -> Result<(), NoAnswer>
    requires progress { IsProgressOf flow.now progress.old }
    requires there { node < length flow.now.nodes }
    ensures { IsProgressOf flow.now progress.new }
{
    let front = progress.complete(alloc, flow, node)?;
    write!(said, "{front}")?;
    Ok(())
}

/// Epochs with one message each go through two edges, with a refresh after each event: `epochs NODE EDGE EDGE COUNT`. The
/// answer is how often a frontier grew.
fn epochs(
    alloc: Global,
    flow: &Flow,
    progress: &mut Progress,
    text: &str,
    said: &mut String,
) -> Result<(), NoAnswer>
    requires { IsProgressOf flow.now progress.old }
    ensures { IsProgressOf flow.now progress.new }
{
    let (source, rest) = part(text);
    let (first, rest) = part(rest);
    let (second, count) = part(rest);
    let node = node_of(flow, source)?;
    let first = edge_of(flow, first)?;
    let second = edge_of(flow, second)?;
    let count = count.parse::<u32>()?;
    let mut grew: u64 = 0;
    for epoch in 0..count {
        let more = through(alloc, flow, progress, node, first, second, epoch)?;
        grew = grew.saturating_add(more);
    }
    write!(said, "{grew}")?;
    Ok(())
}

/// One message of an epoch goes through two edges.
fn through(
    alloc: Global,
    flow: &Flow,
    progress: &mut Progress,
    node: NodeId,
    first: EdgeId,
    second: EdgeId,
    epoch: u32,
) -> Result<u64, NoAnswer>
    requires progress { IsProgressOf flow.now progress.old }
    requires there { node < length flow.now.nodes }
    requires first { first < length flow.now.edges }
    requires second { second < length flow.now.edges }
    ensures { IsProgressOf flow.now progress.new }
{
    let at = Stamp::new(&[epoch]);
    let sent = [Stamp::new(&[epoch])];
    injected(alloc, flow, progress, node, &sent)?;
    let once = growth_count(alloc, flow, progress)?;
    delivered(alloc, flow, progress, first, &at, &sent)?;
    let twice = growth_count(alloc, flow, progress)?;
    delivered(alloc, flow, progress, second, &at, &[])?;
    let thrice = growth_count(alloc, flow, progress)?;
    Ok(once.saturating_add(twice).saturating_add(thrice))
}

/// How many growths a refresh makes.
fn growth_count(alloc: Global, flow: &Flow, progress: &mut Progress) -> Result<u64, NoAnswer>
    requires { IsProgressOf flow.now progress.old }
    ensures { IsProgressOf flow.now progress.new }
{
    Ok(growths(alloc, flow, progress)?.len() as u64)
}

/// The first stamp of which a node may be notified.
fn first(
    alloc: Global,
    flow: &Flow,
    progress: &mut Progress,
    node: NodeId,
    said: &mut String,
) -> Result<(), NoAnswer>
    requires progress { IsProgressOf flow.now progress.old }
    requires there { node < length flow.now.nodes }
    ensures { IsProgressOf flow.now progress.new }
{
    match progress.first_notice(alloc, flow, node)? {
        Some(at) => write!(said, "{at}")?,
        None => said.push_str("none")?,
    }
    Ok(())
}

/// A node settles what is kept, if that is more, with what is settled then.
fn grown(
    flow: &Flow,
    progress: &mut Progress,
    node: NodeId,
    said: &mut String,
) -> Result<(), NoAnswer>
    requires progress { IsProgressOf flow.now progress.old }
    requires there { node < length flow.now.nodes }
    ensures { IsProgressOf flow.now progress.new }
{
    let Some(front) = progress.grown_at(flow, node)? else {
        said.push_str("no more")?;
        return Ok(());
    };
    write!(said, "{front}")?;
    progress.settle_at(flow, node, front);
    Ok(())
}
