//! A step of an engine over a store that holds more than what it wrote.
ghost use Rattle.std.specs.Prelude.{◌≡◌, ◌≢◌, IsErrOf, is_some};
ghost use Rattle.fw_engine.specs.Engine.{flow_of, keep_of};
ghost use Rattle.std.specs.Option.{ForSome};
ghost use Rattle.fw_flow.specs.declared.step.Step.TheVariants.{Recover};
ghost use Rattle.fw_keep.specs.Stored.{HasEntries};
ghost use Rattle.fw_running.specs.Faults.{faults_after_step};
ghost use Rattle.fw_running.specs.Steps.{MayCallByItself, MayCallStore};
ghost use Rattle.fw_session.specs.Session.{FirstGoesOn, IsAt, StepGoesOn};
ghost use Rattle.fw_lasting.specs.UnderWay.{LeavesRecords};

use fw_engine::Engine;
use fw_flow::Step;
use fw_flow::laws::flow_is_well_formed;
use fw_outside::Store;
use fw_running::{EngineFault, Stepped};
use fw_session::{Arrivals, is_held_back};

/// Takes a step, and sweeps nothing: Idle where it is not enabled, and where it is the injection of the last batch of an open source.
pub(crate) fn take_step<K: Store>(
    engine: &mut Engine,
    arrivals: &Arrivals,
    step: &Step,
    store: &mut K,
) -> Result<Stepped, EngineFault>
    requires stored { ForSome (K.view store.old).records (HasEntries (keep_of engine.old)) }
    ensures goes_on { StepGoesOn (flow_of engine.old) step.now result (K.view store.new).records
        (IsAt engine.old (K.view store.old).records arrivals.now) (IsAt engine.new (K.view store.new).records arrivals.now) }
    ensures leaves { LeavesRecords engine.old (K.view store.old).records engine.new (K.view store.new).records }
    ensures faults { (K.view store.new).faults ≡ faults_after_step result (K.view store.old).faults }
    ensures calls { IsErrOf result EngineFault.StoreFault → MayCallStore (flow_of engine.old) step.now }
    ensures tells { step.now ≢ Recover → is_some (K.view store.new).records ≡ is_some (K.view store.old).records }
{
    flow_is_well_formed(engine.flow());
    engine.share();
    if is_held_back(engine, arrivals, step) {
        return Ok(Stepped::Idle);
    }
    match step {
        Step::Collect => Ok(engine.raise_low()?),
        _ => engine.step(step, store),
    }
}

/// Takes the first step that is enabled, where no open source injects its last batch.
pub(crate) fn take_first<K: Store>(
    engine: &mut Engine,
    arrivals: &Arrivals,
    store: &mut K,
) -> Result<Stepped, EngineFault>
    requires stored { ForSome (K.view store.old).records (HasEntries (keep_of engine.old)) }
    ensures goes_on { FirstGoesOn (flow_of engine.old) arrivals.now result (IsAt engine.old (K.view store.old).records arrivals.now)
        (IsAt engine.new (K.view store.new).records arrivals.now) }
    ensures leaves { LeavesRecords engine.old (K.view store.old).records engine.new (K.view store.new).records }
    ensures faults { (K.view store.new).faults ≡ faults_after_step result (K.view store.old).faults }
    ensures calls { IsErrOf result EngineFault.StoreFault → MayCallByItself (flow_of engine.old) }
    ensures tells { is_some (K.view store.new).records ≡ is_some (K.view store.old).records }
{
    flow_is_well_formed(engine.flow());
    engine.share();
    engine.auto_step_within(&arrivals.came, store)
}
