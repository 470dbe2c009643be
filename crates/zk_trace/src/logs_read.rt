ghost use Rattle.std.specs.Prelude.{◌≡◌, [], ◌∷◌, length, MatchOption, IfOk};
ghost use Rattle.zk_scenario.specs.Players.{players as players_of};
ghost use Rattle.zk_trace.specs.Stood.{AreFew, stood};
ghost use Rattle.zk_trace.specs.WholeRead.{logs_of, logs_by};

use crate::standing::stood_lines;
use crate::steps_read::read_steps;
use crate::trace::{Logs, Trace};
use crate::whole_read::Players;
use std::alloc::Global;
use std::collections::VecDeque;
use zk_base::{Listed, NoMemory};
use zk_scenario::Scenario;
use zk_worker::{Log, Spots};

/// Takes the first of some things.
fn take_first<T: Drop>(items: &mut VecDeque<T>) -> Option<T>
    ensures { MatchOption result ((items.old.items ≡ []) × (items.new.items ≡ [])) (λ item. items.old.items ≡ item ∷ items.new.items) }
{
    items.pop_front()
}

/// The logs of players, each with where its steps stand.
fn logs_by(alloc: Global, steps: Vec<Spots>, players: Players) -> Result<Logs, NoMemory>
    ensures { IfOk result (λ logs. logs ≡ logs_by steps.items players) }
{
    let mut steps = VecDeque::from_vec(steps);
    let mut players = VecDeque::from_vec(players.into_vec());
    let mut logs = Vec::new(alloc);
    while let Some(spots) = take_first(&mut steps) {
        let Some((state, answers)) = take_first(&mut players) else {
            return Ok(Listed::from_vec(logs));
        };
        logs.push(Log {
            state,
            steps: spots,
            answers,
        })?;
    }
    Ok(Listed::from_vec(logs))
}

/// The log of each player of a trace without logs, by how each stands and what it was answered.
pub fn read_logs(
    alloc: Global,
    scenario: &Scenario,
    trace: &Trace,
    players: Players,
) -> Result<Logs, NoMemory>
    requires few { AreFew trace.now }
    requires all { length players ≡ length (players_of scenario.now.decls) }
    ensures { IfOk result (λ logs. logs ≡ logs_of (stood trace.now) 0 players) }
{
    let lines = stood_lines(alloc, trace)?;
    let steps = read_steps(alloc, &lines, scenario.players())?;
    logs_by(alloc, steps, players)
}
