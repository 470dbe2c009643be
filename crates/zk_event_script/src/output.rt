ghost use Rattle.std.specs.Prelude.{IfOk};
ghost use Rattle.zk_event_script.specs.Output.{IsEventOutput};

use crate::side::EventSide;
use std::alloc::Global;
use zk_base::{NoMemory, Status};
use zk_event::Event;
use zk_side::side_output;

/// The whole output of a side script of an event object, and the status that goes with it.
pub fn event_output(alloc: Global, input: &[u8]) -> Result<(Vec<u8>, Status), NoMemory>
    ensures { IfOk result (λ made. IsEventOutput made.1 input.now made.0.items) }
{
    side_output::<EventSide>(alloc, Event::new(alloc)?, input)
}
