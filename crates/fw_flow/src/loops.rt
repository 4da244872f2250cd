//! The loops of a flow.
ghost use Rattle.std.specs.Prelude.{◌≡◌, length};
ghost use Rattle.fw_flow.specs.Dataflow.{declared_parent};
ghost use Rattle.fw_flow.specs.DomainText.{name_of_loop};

use crate::{Flow, LoopId};

impl Flow {
    /// How many loops it has: they stand at the places from 0 on.
    pub fn loops(&self) -> usize
        ensures { result ≡ length self.now.loops }
    {
        self.loops.len()
    }

    /// The loop in which a loop is declared, if in any; none past the last loop.
    #[tactic(auto, unfolding(crate::specs::Dataflow::declared_parent))]
    pub fn loop_parent(&self, id: LoopId) -> Option<LoopId>
        ensures { result ≡ declared_parent self.now id }
    {
        match self.loops.get(id.place() as usize) {
            Some(a_loop) => a_loop.parent,
            None => None,
        }
    }

    /// The name of a loop; past the last loop it is empty.
    pub fn loop_name(&self, id: LoopId) -> &str
        ensures { result.now ≡ name_of_loop self.now id }
    {
        match self.loops.get(id.place() as usize) {
            Some(a_loop) => a_loop.name.as_str(),
            None => "",
        }
    }
}
