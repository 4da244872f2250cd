//! The three texts.
ghost use Rattle.std.specs.Prelude.{◌≡◌};

use std::marker::Model;

/// The text of the flow, which is the same for each seed and size.
const FLOW: &str = "\
loop l max 3
node src input
node ent enter l policy none
node mix concat loop l policy logged
node inc select value < 700 set value value plus 100 loop l policy full
node fb feedback l policy none
node lv leave l policy none
node add sum policy lazy
node seq sequence policy eager
node led ledger policy logged
node out output number
node run total policy lazy
node tot output epoch
edge a src ent
edge b ent mix
edge c fb mix
edge d mix inc
edge e inc fb
edge f inc lv
edge g lv add
edge h add seq
edge i seq led
edge j led out
edge k lv run
edge l run tot
";

/// The texts of a flow, its inputs and a schedule. Contracts see the three.
#[derive(Drop)]
pub struct Texts {
    inputs: String,
    schedule: String,
}

impl Model for Texts {
    ghost use Rattle.std.specs.Prelude.{string_bytes};
    ghost use Rattle.fw_generate.specs.Texts as spec;
    ghost use Rattle.fw_generate.specs.Texts.{flow_text};

    ghost Value = { spec.Texts };

    ghost view = { λ texts. record { flow = flow_text; inputs = string_bytes texts.inputs; schedule = string_bytes texts.schedule } };
}

impl Texts {
    ghost use Rattle.std.specs.Prelude.{string_bytes};
    ghost use Rattle.fw_generate.specs.Texts.{flow_text};

    // The texts of these inputs and this schedule.
    pub(crate) fn of(inputs: String, schedule: String) -> Self
        ensures { result ≡ record { flow = flow_text; inputs = string_bytes inputs; schedule = string_bytes schedule } }
    {
        Texts { inputs, schedule }
    }

    /// The text of the flow.
    pub fn flow(&self) -> &'static str
        ensures { result.now ≡ self.now.flow }
    {
        // Where a field is read, what contracts see of the value is known.
        let _ = &self.inputs;
        FLOW
    }

    /// The text of the inputs.
    pub fn inputs(&self) -> &str
        ensures { result.now ≡ self.now.inputs }
    {
        self.inputs.as_str()
    }

    /// The text of the schedule.
    pub fn schedule(&self) -> &str
        ensures { result.now ≡ self.now.schedule }
    {
        self.schedule.as_str()
    }
}
