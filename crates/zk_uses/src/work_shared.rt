ghost use Rattle.std.specs.Prelude.{◌≡◌, ◌*◌, ◌≤◌, true, [], ◌∷◌, Some, IfOk};
ghost use Rattle.zk_base.specs.Legal.{IsLegal};
ghost use Rattle.zk_model_work.specs.declared.ops.WorkOp.TheVariants.{Submit};
ghost use Rattle.zk_model_work.specs.Machine.{work_machine};
ghost use Rattle.zk_work.specs.Seen.{work_start, work_history};
ghost use Rattle.zk_turn.specs.Passes.{IsNewPass, IsPassOf, pass_players, given_to};
ghost use Rattle.zk_uses.specs.Callers.{AreNew, HadTurns, HasSubmitted};

use crate::often::{Caller, call_often, put_together};
use std::sync::Wait;
use std::thread;
use std::thread::Threads;
use zk_base::NoMemory;
use zk_model_work::WorkOp;
use zk_turn::{Cell, Pass};
use zk_work::Work;

/// Two threads submit item 0 to queue 0 at once, each so many times. The pass that comes back stands for both players.
pub fn submitted_by_two<R: Threads + Wait + Sync>(
    rt: &R,
    cell: &Cell<Work>,
    first: Caller<Work>,
    second: Caller<Work>,
    times: u32,
) -> (Pass<Work>, Result<(), NoMemory>)
    requires times { times ≤ 20000 }
    requires range { work_machine.in_range (work_start (given_to cell.now)) (Submit 0 (Some 0)) ≡ true }
    requires new { AreNew (IsLegal work_machine) work_start cell.now first second }
    ensures own { IsPassOf (IsLegal work_machine) work_start cell.now result.0 }
    ensures players { pass_players result.0 ≡ first.who ∷ second.who ∷ [] }
    ensures first { HasSubmitted cell.now first.who times result }
    ensures second { HasSubmitted cell.now second.who times result }
    ensures turns { HadTurns (2 * times) result.1 result.0 }
{
    let (one, other) = thread::join(
        rt,
        move ||
            requires times { times ≤ 20000 }
            requires range { work_machine.in_range (work_start (given_to cell.now)) (Submit 0 (Some 0)) ≡ true }
            requires new { IsNewPass (IsLegal work_machine) work_start cell.now first.who first.pass }
            ensures own { IsPassOf (IsLegal work_machine) work_start cell.entry.now result.0 }
            ensures players { pass_players result.0 ≡ first.who ∷ [] }
            ensures called { HasSubmitted cell.entry.now first.who times result }
            ensures turns { HadTurns times result.1 result.0 }
        { call_often(rt, cell, first, WorkOp::Submit(0, Some(0)), times) },
        move ||
            requires times { times ≤ 20000 }
            requires range { work_machine.in_range (work_start (given_to cell.now)) (Submit 0 (Some 0)) ≡ true }
            requires new { IsNewPass (IsLegal work_machine) work_start cell.now second.who second.pass }
            ensures own { IsPassOf (IsLegal work_machine) work_start cell.entry.now result.0 }
            ensures players { pass_players result.0 ≡ second.who ∷ [] }
            ensures called { HasSubmitted cell.entry.now second.who times result }
            ensures turns { HadTurns times result.1 result.0 }
        { call_often(rt, cell, second, WorkOp::Submit(0, Some(0)), times) },
    );
    put_together(cell, one, other)
}

/// Four threads, two and two. The pass that comes back stands for all four players.
pub fn submitted_by_four<R: Threads + Wait + Sync>(
    rt: &R,
    cell: &Cell<Work>,
    first: (Caller<Work>, Caller<Work>),
    second: (Caller<Work>, Caller<Work>),
    times: u32,
) -> (Pass<Work>, Result<(), NoMemory>)
    requires times { times ≤ 20000 }
    requires range { work_machine.in_range (work_start (given_to cell.now)) (Submit 0 (Some 0)) ≡ true }
    requires first { AreNew (IsLegal work_machine) work_start cell.now first.0 first.1 }
    requires second { AreNew (IsLegal work_machine) work_start cell.now second.0 second.1 }
    ensures own { IsPassOf (IsLegal work_machine) work_start cell.now result.0 }
    ensures players { pass_players result.0 ≡ first.0.who ∷ first.1.who ∷ second.0.who ∷ second.1.who ∷ [] }
    ensures one { HasSubmitted cell.now first.0.who times result × HasSubmitted cell.now first.1.who times result }
    ensures other { HasSubmitted cell.now second.0.who times result × HasSubmitted cell.now second.1.who times result }
    ensures turns { HadTurns (4 * times) result.1 result.0 }
{
    let (a, b) = first;
    let (c, d) = second;
    let (one, other) = thread::join(
        rt,
        move ||
            requires times { times ≤ 20000 }
            requires range { work_machine.in_range (work_start (given_to cell.now)) (Submit 0 (Some 0)) ≡ true }
            requires new { AreNew (IsLegal work_machine) work_start cell.now a b }
            ensures own { IsPassOf (IsLegal work_machine) work_start cell.entry.now result.0 }
            ensures players { pass_players result.0 ≡ a.who ∷ b.who ∷ [] }
            ensures first { HasSubmitted cell.entry.now a.who times result }
            ensures second { HasSubmitted cell.entry.now b.who times result }
            ensures turns { HadTurns (2 * times) result.1 result.0 }
        { submitted_by_two(rt, cell, a, b, times) },
        move ||
            requires times { times ≤ 20000 }
            requires range { work_machine.in_range (work_start (given_to cell.now)) (Submit 0 (Some 0)) ≡ true }
            requires new { AreNew (IsLegal work_machine) work_start cell.now c d }
            ensures own { IsPassOf (IsLegal work_machine) work_start cell.entry.now result.0 }
            ensures players { pass_players result.0 ≡ c.who ∷ d.who ∷ [] }
            ensures first { HasSubmitted cell.entry.now c.who times result }
            ensures second { HasSubmitted cell.entry.now d.who times result }
            ensures turns { HadTurns (2 * times) result.1 result.0 }
        { submitted_by_two(rt, cell, c, d, times) },
    );
    put_together(cell, one, other)
}
