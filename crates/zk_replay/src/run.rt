ghost use Rattle.std.specs.Prelude.{IfOk};
ghost use Rattle.zk_scenario.specs.Valid.{IsValid};
ghost use Rattle.zk_trace.specs.Form.{IsInForm};
ghost use Rattle.zk_trace.specs.Lawful.{IsLawful};
ghost use Rattle.zk_world.specs.Over.{IsOver};
ghost use Rattle.zk_replay.specs.Replay.{IsReplay};

use crate::turns::play_rounds;
use std::alloc::Global;
use zk_base::NoMemory;
use zk_scenario::Scenario;
use zk_services::{first_players, first_services};
use zk_trace::Trace;
use zk_world::{ending_of, trace_of};

/// Plays a scenario: goes round its players, each making its next possible step, until none has one or one is spent.
///
/// The players are the threads in declared order, then the workers of the queues.
pub fn replay(alloc: Global, scenario: &Scenario) -> Result<Trace, NoMemory>
    ensures replay { IfOk result (λ trace. IsReplay scenario.now trace) }
    ensures lawful { IfOk result (λ trace. IsLawful scenario.now trace) }
    ensures over { IfOk result (λ trace. IsOver scenario.now trace) }
    ensures form { IfOk result (λ trace. IsInForm scenario.now trace) }
    ensures valid { IsValid scenario.now }
{
    let mut services = first_services(alloc, scenario)?;
    let mut players = first_players(alloc, scenario)?;
    play_rounds(alloc, &mut services, scenario, &mut players)?;
    let ending = ending_of(&services, scenario, &players);
    trace_of(alloc, scenario, ending, services, players)
}
