//! What sequences sent, as a root has it.
ghost use Rattle.std.specs.Prelude.{◌<◌, length, IfOk};
ghost use Rattle.std.specs.List.{AllByRecursion, AllZip};
ghost use Rattle.fw_progress.specs.Counts.{sent_of};
ghost use Rattle.fw_resume.specs.Sends.{AreSendsTold};

use fw_flow::NodeId;
use fw_frontier::{Front, SentCounts};
use fw_progress::Counts;
use fw_settle::sends_inside;
use std::alloc::{AllocError, Global};

/// How many messages each of these sequences sent, by epoch. The error is want of memory, or that a sum would not fit 64 bits, or that
/// there are more epochs than 32 bits can count.
pub(crate) fn sends_of(
    alloc: Global,
    counts: &Counts,
    sequences: &[NodeId],
) -> Result<Vec<SentCounts>, AllocError>
    requires { AllByRecursion (λ p. p < length counts.now.sent.items) sequences.now }
    ensures { IfOk result (λ all. AllZip (AreSendsTold counts.now) sequences.now all.items) }
{
    let mut all = Vec::with_capacity(alloc, sequences.len())?;
    for node in sequences {
        all.push(sends_at(alloc, counts, *node)?)?;
    }
    Ok(all)
}

/// The same of one sequence. The error is the same.
fn sends_at(alloc: Global, counts: &Counts, node: NodeId) -> Result<SentCounts, AllocError>
    requires { node < length counts.now.sent.items }
    ensures { IfOk result (AreSendsTold counts.now node) }
{
    let table = &counts.sent[node.place() as usize];
    let sends = sends_inside(alloc, table, None, &Front::all(alloc))?;
    if sends.len() > u32::MAX as usize {
        return Err(AllocError);
    }
    Ok(SentCounts::of(sends))
}
