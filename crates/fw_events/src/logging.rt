//! Events are logged.
ghost use Rattle.std.specs.Prelude.{◌≡◌, ◌↔◌, ◌<◌, ◌^◌, true, IsTrue, OnOk, OnErr, is_some};
ghost use Rattle.fw_running.specs.Drawn.{DrawsAtMost};
ghost use Rattle.fw_running.specs.Faults.{faults_after_step};
ghost use Rattle.fw_time.specs.Stamp.{in_domain};
ghost use Rattle.fw_flow.specs.declared.kind.Policy.TheVariants as policy;
ghost use Rattle.fw_flow.specs.Dataflow.{bounds_of, policy_of};
ghost use Rattle.fw_record.specs.Event.{stamp_of_event};
ghost use Rattle.fw_keep.specs.Stored.{IsStored};
ghost use Rattle.fw_stands.specs.Entries.{HasRecOf64Bits};
ghost use Rattle.fw_running.specs.Shaped.{IsShaped};
ghost use Rattle.fw_running.specs.Steps.{IsUndamaged};
ghost use Rattle.fw_running.specs.Logging.{ChangesKeep, IsAskRefused, IsEventAsked};

use fw_flow::{NodeId, Policy};
use fw_keep::no_stamps;
use fw_outside::Store;
use fw_record::{Event, Record};
use fw_running::{EngineFault, Running};

/// Whether a node logs each event.
pub(crate) fn logs_events(running: &Running, node: NodeId) -> bool
    ensures { IsTrue result ↔ (policy_of running.now.flow node ≡ policy.Full) }
{
    matches!(running.flow.policy(node), Policy::Full)
}

/// A node asks the write of an event. A fault leaves all as it was.
pub(crate) fn log_event<K: Store>(
    running: &mut Running,
    node: NodeId,
    event: Event,
    store: &mut K,
) -> Result<(), EngineFault>
    requires shaped { IsShaped running.old }
    requires stored { IsStored running.old.parts.keep (K.view store.old).records }
    requires stamp { in_domain (bounds_of running.old.flow node) (stamp_of_event event) ≡ true }
    ensures others { ChangesKeep running.old running.new }
    ensures shaped { IsShaped running.new }
    ensures stored { IsStored running.new.parts.keep (K.view store.new).records }
    ensures logged { OnOk result (IsEventAsked node event running.old.parts.keep.entries running.new.parts.keep.entries
        (K.view store.old).records (K.view store.new).records) }
    ensures stays { OnErr result (IsAskRefused running.old.parts.keep running.new.parts.keep
        (K.view store.old).records (K.view store.new).records) }
    ensures given { (K.view store.new).given ≡ (K.view store.old).given }
    ensures faults { (K.view store.new).faults ≡ faults_after_step result (K.view store.old).faults }
    ensures undamaged { IsUndamaged result }
    ensures tells { is_some (K.view store.new).records ≡ is_some (K.view store.old).records }
    ensures draws { DrawsAtMost 1 running.old.parts.keep running.new.parts.keep (K.view store.old).records (K.view store.new).records }
{
    rec_has_64_bits(&event);
    let what = Record::Event { node, event };
    running.ask(&what, no_stamps(running.alloc), store)
}

// The rec of an event has two numbers of 64 bits.
fn rec_has_64_bits(event: &Event)
    ensures { HasRecOf64Bits event.now }
{
    match event {
        Event::Deliver { rec, .. } => have_64_bits(rec.key, rec.value),
        Event::Notify { .. } => {}
    }
}

// A number has 64 bits.
fn have_64_bits(key: u64, value: u64)
    ensures key { key < 2 ^ 64 }
    ensures value { value < 2 ^ 64 }
{}
