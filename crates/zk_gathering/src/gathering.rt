ghost use Rattle.std.specs.Prelude.{◌≡◌, map, IfOk};
ghost use Rattle.zk_worker.specs.Follows.{log_of};
ghost use Rattle.zk_services.specs.Alone.{plain_shown};
ghost use Rattle.zk_gathering.specs.Gathered.{gathered};
ghost use Rattle.zk_gathering.specs.Looks.{AreShort};

use crate::looks::{item_looks, signal_looks};
use std::alloc::Global;
use zk_base::NoMemory;
use zk_scenario::Scenario;
use zk_services::Plain;
use zk_trace::{Ending, Logs, Looks, Trace};
use zk_worker::{Log, Player};

/// What each player did.
fn logs_of(alloc: Global, scenario: &Scenario, players: Vec<Player>) -> Result<Logs, NoMemory>
    ensures { IfOk result (λ logs. logs ≡ map (log_of scenario.now) players.items) }
{
    let logs: Vec<Log> = players
        .into_iter()
        .map(|player| player.into_log(scenario))
        .collect(alloc)?;
    Ok(Logs::from_vec(logs))
}

/// The trace of all that plain services have recorded and their players have done, with this ending. Whoever asks says
/// how it ended, since only who played them knows when nothing was left to do.
pub fn gather(
    alloc: Global,
    scenario: &Scenario,
    ending: Ending,
    services: Plain,
    players: Vec<Player>,
) -> Result<Trace, NoMemory>
    requires { AreShort (map (log_of scenario.now) players.items) }
    ensures { IfOk result (λ trace. trace ≡ gathered ending (plain_shown services) (map (log_of scenario.now) players.items)) }
{
    let logs = logs_of(alloc, scenario, players)?;
    let all = services.into_histories(alloc)?;
    let items = item_looks(alloc, logs.items())?;
    let signals = signal_looks(alloc, all.signals.items().len(), logs.items())?;
    Ok(Trace {
        ending,
        work: all.work,
        clock: all.clock,
        table: all.table,
        sems: all.sems,
        msgqs: all.msgqs,
        signals: all.signals,
        chans: all.chans,
        observers: all.observers,
        looks: Looks { items, signals },
        logs,
    })
}
