//! What was delivered, told and sent in two epochs of the running total, kept event by event.
ghost use Rattle.std.specs.Prelude.{◌≡◌, MatchResult};
ghost use Rattle.fw_flow.specs.declared.builder.BuildFault.TheVariants.{NoMemory};
ghost use Rattle.fw_examples.specs.RunningTotal.{total_flow};
ghost use Rattle.fw_examples.specs.Traced.{AreTracesOfTwo};

use fw_bag::Rec;
use fw_flow::{BuildFault, EdgeId, Flow, FlowBuilder, NodeId, Policy};
use fw_progress::Traces;
use fw_time::Stamp;
use std::alloc::Global;

/// The flow of the running total. The only error is want of memory.
pub fn totals_are_declared(alloc: Global) -> Result<Flow, BuildFault>
    ensures { MatchResult result (λ flow. flow ≡ total_flow) (λ fault. fault ≡ NoMemory) }
{
    FlowBuilder::new(alloc)
        .input("src")?
        .total("run", Policy::Lazy)?
        .output_epoch("out")?
        .edge("a", "src", "run")?
        .edge("b", "run", "out")?
        .build()
}

/// The traces once two epochs came through, and what the law of traces says of them. The only error is want of memory.
pub fn two_epochs_are_traced(alloc: Global) -> Result<Traces, BuildFault>
    ensures { MatchResult result AreTracesOfTwo (λ fault. fault ≡ NoMemory) }
{
    let flow = &totals_are_declared(alloc)?;
    let source = NodeId::at(0);
    let total = NodeId::at(1);
    let epoch = Stamp::new(&[1]);
    let sent = [(Stamp::new(&[1]), Rec { key: 1, value: 10 })];
    let mut traces = Traces::new(alloc, flow)?;
    traces.injected(flow, source, 0, &[])?;
    traces.injected(flow, source, 1, &sent)?;
    traces.delivered(flow, EdgeId::at(0), &epoch, &[])?;
    traces.notified(flow, total, &epoch, &sent)?;
    traces.delivered(flow, EdgeId::at(1), &epoch, &[])?;
    Ok(traces)
}
