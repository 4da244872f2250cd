//! A program that embeds the engine: a flow is made in code, and its batches come while it runs; nodes write events and checkpoints,
//! some of that is collected, and two nodes fail and are restored. What nodes write is kept in a store in memory.
#![tactic(auto)]

mod run;
mod shop;

use crate::run::Run;
use crate::shop::{first_orders, second_orders, shop};
use anyhow::{Context, Result, ensure};
use cimboery::{EdgeId, EngineFault, Flow, NodeId, Nodes, Stamp, Step};
use std::alloc::Global;

fn node(flow: &Flow, name: &str) -> Result<NodeId> {
    flow.node_named(name).context("no such node")
}

fn edge(flow: &Flow, name: &str) -> Result<EdgeId> {
    flow.edge_named(name).context("no such edge")
}

impl Run {
    // Takes a step, and prints what it shows.
    fn take<R: Print>(&mut self, rt: &R, step: &Step) -> Result<()> {
        self.step(step)?;
        self.show_last(rt)
    }

    // Prints what was told last.
    fn show_last<R: Print>(&self, rt: &R) -> Result<()> {
        let stepped = self.told().last().context("nothing was told")?;
        let shown = stepped.display(self.engine().flow());
        print!(rt; "{shown}")?;
        Ok(())
    }

    // Delivers what is pending on these edges, one after the other, of each a hundred messages at most.
    fn deliver<R: Print>(&mut self, rt: &R, edges: &[&str]) -> Result<()> {
        for name in edges {
            let edge = edge(self.engine().flow(), name)?;
            for _ in 0..100 {
                if self.is_delivered(edge)? {
                    break;
                }
                self.take(rt, &Step::Deliver(edge, None))?;
            }
        }
        Ok(())
    }

    // Whether nothing is pending on an edge.
    fn is_delivered(&self, edge: EdgeId) -> Result<bool> {
        let pending = self.engine().pending(edge).context("no such edge")?;
        Ok(pending.is_empty())
    }

    // Takes the first step that is enabled, so many times at most, and prints what the steps show.
    fn go_on<R: Print>(&mut self, rt: &R, most: u64) -> Result<()> {
        for _ in 0..most {
            if !self.auto_step()? {
                return Ok(());
            }
            self.show_last(rt)?;
        }
        Ok(())
    }

    // After want of memory no step is taken any more.
    fn stays_refused(&mut self) -> bool {
        let next = self.auto_step();
        matches!(next, Err(EngineFault::NoMemory))
    }

    // Acknowledges the oldest writes, so many.
    fn persist<R: Print>(&mut self, rt: &R, count: u64) -> Result<()> {
        for _ in 0..count {
            self.take(rt, &Step::Persist)?;
        }
        Ok(())
    }

    // The first batch comes, and goes through. What the nodes write of it is acknowledged, two events and two checkpoints, and the
    // events are collected.
    fn first_batch<R: Print>(&mut self, rt: &R, alloc: Global) -> Result<()> {
        self.feed(first_orders(alloc)?)?;
        let flow = self.engine().flow();
        let (orders, dear, sums) = (
            node(flow, "orders")?,
            node(flow, "dear")?,
            node(flow, "sums")?,
        );
        let (shop, audit) = (node(flow, "shop")?, node(flow, "audit")?);
        self.take(rt, &Step::Inject(orders))?;
        self.deliver(rt, &["to_cheap", "to_dear", "to_sums"])?;
        self.take(rt, &Step::Notify(sums, None))?;
        self.deliver(rt, &["to_shop", "to_audit"])?;
        self.take(rt, &Step::Progress)?;
        self.take(rt, &Step::Ack(shop))?;
        self.take(rt, &Step::Ack(audit))?;
        self.take(rt, &Step::Checkpoint(dear))?;
        self.take(rt, &Step::Checkpoint(sums))?;
        self.persist(rt, 4)?;
        self.take(rt, &Step::Collect)
    }

    // The second batch comes, and is under way: of two events one write is acknowledged, the other one in flight, as is a
    // checkpoint, and a message that is logged is pending.
    fn second_batch<R: Print>(&mut self, rt: &R, alloc: Global) -> Result<()> {
        self.feed(second_orders(alloc)?)?;
        let flow = self.engine().flow();
        let (orders, dear) = (node(flow, "orders")?, node(flow, "dear")?);
        self.take(rt, &Step::Inject(orders))?;
        self.deliver(rt, &["to_cheap", "to_dear", "to_sums"])?;
        self.persist(rt, 1)?;
        self.take(rt, &Step::Progress)?;
        self.take(rt, &Step::Checkpoint(dear))
    }

    // Prints what can be seen of the orders from 100 on.
    fn look<R: Print>(&self, rt: &R) -> Result<()> {
        let engine = self.engine();
        let flow = engine.flow();
        let (dear, audit) = (node(flow, "dear")?, node(flow, "audit")?);
        let settled = engine.settled(dear).context("no such node")?;
        let low = engine.low_watermark(dear).context("no such node")?;
        let queue = engine.pending(edge(flow, "to_audit")?);
        let pending = queue.context("no such edge")?.pending_at(&Stamp::new(&[1]));
        let acknowledged = engine.acknowledged(audit).context("no such output")?;
        print!(rt;
            "dear settled {settled} low {low} to_audit pending {pending} audit acknowledged {acknowledged}\n"
        )?;
        Ok(())
    }

    // Two nodes fail, one with a write of an event in flight, and are restored.
    fn failure<R: Print>(&mut self, rt: &R, alloc: Global) -> Result<()> {
        let flow = self.engine().flow();
        let (cheap, sums) = (node(flow, "cheap")?, node(flow, "sums")?);
        let failed = Nodes::new(vec![in alloc; cheap, sums]?);
        self.take(rt, &Step::Fail(failed))?;
        self.take(rt, &Step::Recover)
    }
}

// The run of the shop, to its end.
fn run_shop<R: Print>(rt: &R, alloc: Global, run: &mut Run) -> Result<()> {
    run.first_batch(rt, alloc)?;
    run.second_batch(rt, alloc)?;
    run.look(rt)?;
    run.failure(rt, alloc)?;
    run.go_on(rt, 100)?;
    run.close(alloc)?;
    run.go_on(rt, 100)
}

// How a run ended. If memory was refused in a step, one more is tried, which has to be refused too.
fn ended(run: &mut Run, came: Result<()>) -> Result<()> {
    if run.engine().is_refused() {
        ensure!(run.stays_refused(), "a step after want of memory");
    }
    came
}

fn main(rt: HostRuntime) -> Result<()> {
    let alloc = rt.alloc();
    let mut run = shop(alloc)?;
    let came = run_shop(&rt, alloc, &mut run);
    ended(&mut run, came)
}
