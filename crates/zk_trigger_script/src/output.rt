ghost use Rattle.std.specs.Prelude.{IfOk};
ghost use Rattle.zk_trigger_script.specs.Output.{IsTriggerOutput};

use crate::side::TriggerSide;
use std::alloc::Global;
use zk_base::{NoMemory, Status};
use zk_side::side_output;
use zk_trigger::Trigger;

/// The whole output of a side script of triggered work, and the status that goes with it.
pub fn trigger_output(alloc: Global, input: &[u8]) -> Result<(Vec<u8>, Status), NoMemory>
    ensures { IfOk result (λ made. IsTriggerOutput made.1 input.now made.0.items) }
{
    side_output::<TriggerSide>(alloc, Trigger::new(alloc), input)
}
