ghost use Rattle.std.specs.Prelude.{◌≡◌, ◌^◌, ◌<◌, ◌≤◌, ◌&&◌, nat_lt, map, length, vec_len, All, IfOk, OnOk};
ghost use Rattle.zk_scenario.specs.Players.{players};
ghost use Rattle.zk_show_chart.specs.Bars.{players_of, start, runs_of, IsBar, AreInOrder, Steps};
ghost use Rattle.zk_show_chart.specs.Marks.{begins_at, begun_rows};

use crate::Bar;
use crate::lane::Lane;
use crate::marks::mark_of;
use crate::polls::{PollWait, poll_waits};
use std::alloc::Global;
use zk_base::NoMemory;
use zk_scenario::Scenario;
use zk_trace::{Stood, Trace};

/// The waits of a player's polls of signals alone.
fn polls_of(alloc: Global, trace: &Trace, player: usize) -> Result<Vec<PollWait>, NoMemory> {
    match trace.logs.items().get(player) {
        Some(log) => poll_waits(alloc, trace, log),
        None => Ok(Vec::new(alloc)),
    }
}

/// So many lanes, before their first steps.
fn lanes_of(alloc: Global, trace: &Trace, players: u32) -> Result<Vec<Lane>, NoMemory>
    ensures { IfOk result (λ lanes. vec_len lanes ≡ players) }
{
    let mut lanes = Vec::new(alloc);
    for player in 0..players {
        let polls = polls_of(alloc, trace, player as usize)?;
        lanes.push(Lane::new(alloc, polls))?;
    }
    Ok(lanes)
}

/// One step more, in this row.
fn step(
    lanes: &mut Vec<Lane>,
    bars: &mut Vec<Bar>,
    trace: &Trace,
    stood: Stood,
    row: u32,
) -> Result<(), NoMemory>
    ensures bars { OnOk result (Steps stood.player row (nat_lt stood.player (vec_len lanes.old) && begins_at trace.now stood.spot)
        bars.old.items bars.new.items) }
    ensures lanes { vec_len lanes.new ≡ vec_len lanes.old }
{
    let lane = stood.player as usize;
    if lanes.len() <= lane {
        return Ok(());
    }
    lanes[lane].step(bars, stood, mark_of(trace, stood.spot), row)
}

/// How many of some rows have numbers of 32 bits.
pub fn row_count(drawn: &[Stood]) -> u32
    ensures within { result ≤ length drawn.now }
    ensures all { length drawn.now < 2 ^ 32 → result ≡ length drawn.now }
{
    drawn.len().min(u32::MAX as usize) as u32
}

/// What takes more than one row, by its first row. `drawn` says of each row whose step it is, and where it stands.
pub fn bars_of(
    alloc: Global,
    scenario: &Scenario,
    trace: &Trace,
    drawn: &[Stood],
) -> Result<Vec<Bar>, NoMemory>
    ensures each { IfOk result (λ bars. All (IsBar (players_of drawn.now)) bars.items) }
    ensures order { IfOk result (λ bars. AreInOrder (map start bars.items)) }
    // Each run that a worker begins has a bar.
    ensures runs { IfOk result (λ bars. length drawn.now < 2 ^ 32 →
        runs_of (map start bars.items) ≡ begun_rows trace.now (length (players scenario.now.decls)) 0 drawn.now) }
{
    let mut lanes = lanes_of(alloc, trace, scenario.players())?;
    let mut bars = Vec::new(alloc);
    for row in 0..row_count(drawn) {
        step(&mut lanes, &mut bars, trace, drawn[row as usize], row)?;
    }
    Ok(bars)
}
