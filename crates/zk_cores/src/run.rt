ghost use Rattle.std.specs.Prelude.{◌<◌, ◌≤◌, length, IfOk};
ghost use Rattle.zk_scenario.specs.Valid.{IsValid};
ghost use Rattle.zk_trace.specs.Form.{IsInForm};
ghost use Rattle.zk_trace.specs.Lawful.{IsLawful};
ghost use Rattle.zk_world.specs.Over.{IsOver};
ghost use Rattle.zk_kernel.specs.Rests.{AreAllCallers};

use crate::cores::{cores_of, hands_of};
use crate::finish::finish;
use crate::round::play_cores;
use crate::seating::{seat_all, unseat_all};
use std::alloc::Global;
use std::sync::Wait;
use std::thread::Threads;
use zk_base::{Gate, NoMemory};
use zk_kernel::{Caller, Kernel};
use zk_pool::Pool;
use zk_replay::replay;
use zk_scenario::Scenario;
use zk_trace::Trace;

/// The most cores that play a scenario.
pub const MOST_CORES: u32 = 16;

/// Plays the callers of a kernel on so many cores: all of them, where they came to.
fn play_callers<R: Threads + Wait + Sync, G: Gate + Sync>(
    rt: &R,
    alloc: Global,
    kernel: &Kernel,
    callers: Vec<Caller>,
    cores: u32,
    gate: &G,
) -> Result<Vec<Caller>, NoMemory>
    requires cores { 0 < cores }
    requires some { 0 < length callers.items }
    requires all { AreAllCallers kernel.now callers.items }
    ensures all { IfOk result (λ callers. AreAllCallers kernel.now callers.items) }
{
    let seats = seat_all(alloc, kernel, callers)?;
    let count = seats.len();
    let (pool, hands, room) = Pool::new(alloc, seats, cores)?;
    let mut core_list = cores_of(alloc, &pool, hands, count)?;
    play_cores(rt, kernel, &pool, gate, &mut core_list);
    if core_list.iter().any(|core| core.refused) {
        return Err(NoMemory);
    }
    let hands = hands_of(alloc, &pool, core_list)?;
    let seats = pool.close(rt, hands, room);
    unseat_all(alloc, kernel, seats)
}

/// Plays a scenario on so many cores, from 1: each takes a player out of a pool that all share, makes some steps with it, and gives
/// it back, or keeps it as long as it waits. Once none of them gets further, one thread plays on until no player has a possible step.
///
/// Nothing says which lawful trace it makes, nor that it returns, since a core may wait for a turn.
pub fn play<R: Threads + Wait + Sync, G: Gate + Sync>(
    rt: &R,
    alloc: Global,
    scenario: &Scenario,
    cores: u32,
    gate: &G,
) -> Result<Trace, NoMemory>
    requires cores { 1 ≤ cores }
    ensures lawful { IfOk result (λ trace. IsLawful scenario.now trace) }
    ensures over { IfOk result (λ trace. IsOver scenario.now trace) }
    ensures form { IfOk result (λ trace. IsInForm scenario.now trace) }
    ensures valid { IfOk result (λ _. IsValid scenario.now) }
{
    if scenario.players() == 0 {
        return replay(alloc, scenario);
    }
    let (kernel, callers) = Kernel::new(alloc, scenario)?;
    let cores = cores.min(scenario.players());
    let callers = play_callers(rt, alloc, &kernel, callers, cores, gate)?;
    let mut rest = kernel.close(alloc, callers)?;
    finish(&mut rest)?;
    rest.trace(alloc)
}
