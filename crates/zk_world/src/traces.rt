ghost use Rattle.std.specs.Prelude.{◌≡◌, IfOk};
ghost use Rattle.zk_services.specs.Alone.{plain_shown};
ghost use Rattle.zk_trace.specs.Form.{IsInForm};
ghost use Rattle.zk_world.specs.Sound.{IsSound};
ghost use Rattle.zk_world.specs.Traces.{world_trace, IsFaithful};
ghost use Rattle.zk_world.specs.World.{world};

use std::alloc::Global;
use zk_base::NoMemory;
use zk_gathering::gather;
use zk_scenario::Scenario;
use zk_services::Plain;
use zk_trace::{Ending, Trace, trace_sizes};
use zk_worker::Player;

/// The trace of all that these services have recorded and their players have done. It is lawful where it ends as told:
/// `ending_of` tells it, once no player can go on.
pub fn trace_of(
    alloc: Global,
    scenario: &Scenario,
    ending: Ending,
    services: Plain,
    players: Vec<Player>,
) -> Result<Trace, NoMemory>
    requires sound { IsSound scenario.now (world (plain_shown services) players.items) }
    ensures trace { IfOk result (λ trace.
        trace ≡ world_trace scenario.now ending (world (plain_shown services) players.items)) }
    ensures says { IfOk result (λ trace. IsFaithful scenario.now trace) }
    ensures form { IfOk result (λ trace. IsInForm scenario.now trace) }
{
    let trace = gather(alloc, scenario, ending, services, players)?;
    trace_sizes(&trace);
    Ok(trace)
}
