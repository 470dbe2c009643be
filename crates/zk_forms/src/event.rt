ghost use Rattle.std.specs.Prelude.{IfOk};
ghost use Rattle.zk_event_script.specs.Output.{IsEventOutput};

use std::alloc::Global;
use zk_base::{NoMemory, Status};
use zk_event_script::event_output;

/// The whole output of `event` for this input, and the status that goes with it.
pub fn events_output(alloc: Global, input: Vec<u8>) -> Result<(Vec<u8>, Status), NoMemory>
    ensures { IfOk result (λ made. IsEventOutput made.1 input.items made.0.items) }
{
    event_output(alloc, &input)
}
