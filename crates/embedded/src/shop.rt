//! The flow and the batches of a shop, made in code.

use crate::node;
use crate::run::Run;
use anyhow::Result;
use cimboery::{
    BuildFault, Comparison, Condition, Field, Flow, FlowBuilder, Policy, Rec, Selection, Term,
};
use std::alloc::Global;

// The orders whose price is so.
fn priced(comparison: Comparison, price: u64) -> Selection {
    Selection {
        condition: Condition {
            field: Field::Value,
            comparison,
            term: Term::Number(price),
        },
        assignment: None,
    }
}

// Orders below 100 are added up by customer for the shop; each order from 100 on is audited.
fn shop_flow(alloc: Global) -> Result<Flow, BuildFault> {
    let below = priced(Comparison::Less, 100);
    let from = priced(Comparison::GreaterOrEqual, 100);
    FlowBuilder::new(alloc)
        .input("orders")?
        .select("cheap", below, Policy::Full)?
        .select("dear", from, Policy::Logged)?
        .total("sums", Policy::Lazy)?
        .output_epoch("shop")?
        .output_epoch("audit")?
        .edge("to_cheap", "orders", "cheap")?
        .edge("to_dear", "orders", "dear")?
        .edge("to_sums", "cheap", "sums")?
        .edge("to_shop", "sums", "shop")?
        .edge("to_audit", "dear", "audit")?
        .build()
}

fn order(customer: u64, price: u64) -> Rec {
    Rec {
        key: customer,
        value: price,
    }
}

/// The orders that come first.
pub(crate) fn first_orders(alloc: Global) -> Result<Vec<Rec>> {
    let orders = vec![in alloc; order(1, 20), order(2, 150)]?;
    Ok(orders)
}

/// The orders that come then.
pub(crate) fn second_orders(alloc: Global) -> Result<Vec<Rec>> {
    let orders = vec![in alloc; order(1, 70), order(4, 300)]?;
    Ok(orders)
}

/// A run of the shop, at its beginning.
pub(crate) fn shop(alloc: Global) -> Result<Run> {
    let flow = shop_flow(alloc)?;
    let orders = node(&flow, "orders")?;
    let run = Run::open(alloc, flow, orders)?;
    Ok(run)
}
