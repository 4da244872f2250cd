//! What the kinds send that send each rec on alone.
ghost use Rattle.std.specs.Prelude.{◌≡◌, ◌++◌, [], ◌∷◌, true, option_to_list, IfOk, OnOk};
ghost use Rattle.fw_time.specs.Stamp.{in_domain};
ghost use Rattle.fw_flow.specs.Dataflow.{bounds_of_domain, domain_of_kind, send_stamp_of_kind};
ghost use Rattle.fw_flow.specs.WellFormed.{IsGroupSize};
ghost use Rattle.fw_flow.specs.WholeBags as whole;
ghost use Rattle.fw_denote.specs.Domains.{AreIn};

use crate::Timed;
use fw_bag::Rec;
use fw_flow::{Flow, Kind};
use fw_time::Stamp;
use std::alloc::{AllocError, Global};

/// The rec at the stamp at which a node of the kind sends what came at `t`, if it sends it.
fn sent_at(flow: &Flow, kind: &Kind, t: &Stamp, rec: Rec) -> Option<Timed>
    requires in_domain { in_domain (bounds_of_domain flow.now (domain_of_kind flow.now kind.now)) t.now ≡ true }
    requires group { IsGroupSize kind.now }
    ensures { option_to_list result ≡ whole.timed_at_some (send_stamp_of_kind flow.now kind.now t.now) (rec ∷ []) }
{
    let at = flow.send_stamp_of_kind(*kind, t)?;
    Some(Timed::new(at, rec))
}

/// The rec that a node of the kind sends for one rec, if it sends it on.
fn rec_for(kind: &Kind, rec: Rec) -> Option<Rec>
    ensures { option_to_list result ≡ whole.recs_for_one kind.now rec }
{
    match kind {
        Kind::Select { selection, .. } => selection.apply(rec),
        _ => Some(rec),
    }
}

/// What a node of the kind sends for one timed rec, if it sends it on.
#[tactic(auto, using(crate::proofs::AloneLaws::sent_none, crate::proofs::AloneLaws::sent_some))]
fn sent_for(flow: &Flow, kind: &Kind, r: &Timed) -> Option<Timed>
    requires in_domain { in_domain (bounds_of_domain flow.now (domain_of_kind flow.now kind.now)) r.now.at ≡ true }
    requires group { IsGroupSize kind.now }
    ensures { option_to_list result
        ≡ whole.timed_at_some (send_stamp_of_kind flow.now kind.now r.now.at) (whole.recs_for_one kind.now r.now.rec) }
{
    match rec_for(kind, r.rec()) {
        Some(rec) => sent_at(flow, kind, r.at(), rec),
        None => None,
    }
}

/// Puts the timed rec at the end, if there is one.
fn put(sent: &mut Vec<Timed>, one: Option<Timed>) -> Result<(), AllocError>
    ensures { OnOk result (sent.new.items ≡ sent.old.items ++ option_to_list one) }
{
    if let Some(one) = one {
        sent.push(one)?;
    }
    Ok(())
}

/// Each timed rec alone, at the stamp at which the kind sends it. The error is want of memory.
pub(crate) fn one_by_one(
    alloc: Global,
    flow: &Flow,
    kind: &Kind,
    rs: &[Timed],
) -> Result<Vec<Timed>, AllocError>
    requires in_domain { AreIn flow.now kind.now rs.now }
    requires group { IsGroupSize kind.now }
    ensures { IfOk result (λ sent. sent.items ≡ whole.one_by_one flow.now kind.now rs.now) }
{
    let mut sent = Vec::with_capacity(alloc, rs.len())?;
    for r in rs {
        put(&mut sent, sent_for(flow, kind, r))?;
    }
    Ok(sent)
}
