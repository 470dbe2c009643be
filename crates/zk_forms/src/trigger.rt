ghost use Rattle.std.specs.Prelude.{IfOk};
ghost use Rattle.zk_trigger_script.specs.Output.{IsTriggerOutput};

use std::alloc::Global;
use zk_base::{NoMemory, Status};
use zk_trigger_script::trigger_output;

/// The whole output of `trigger` for this input, and the status that goes with it.
pub fn triggers_output(alloc: Global, input: Vec<u8>) -> Result<(Vec<u8>, Status), NoMemory>
    ensures { IfOk result (λ made. IsTriggerOutput made.1 input.items made.0.items) }
{
    trigger_output(alloc, &input)
}
