//! Threads that look at an item of a work service while others submit and cancel it.
ghost use Rattle.std.specs.Prelude.{◌≡◌, ◌*◌, ◌≤◌, true, [], ◌∷◌, Some, vec_capacity};
ghost use Rattle.zk_base.specs.Legal.{IsLegal};
ghost use Rattle.zk_model_work.specs.declared.ops.WorkOp.TheVariants.{Submit, Cancel};
ghost use Rattle.zk_model_work.specs.Machine.{work_machine};
ghost use Rattle.zk_work.specs.Seen.{work_start};
ghost use Rattle.zk_work.specs.Words.{work_word};
ghost use Rattle.zk_turn.specs.Passes.{IsNewPass, IsPassOf, pass_players, given_to};
ghost use Rattle.zk_uses.specs.Callers.{AreNew, HadTurns, HasSubmittedAndCancelled};
ghost use Rattle.zk_uses.specs.Looks.{AreReady, HasLooked, IsReady, KeptLooks};

use crate::looking::{Looker, look_often};
use crate::often::{Caller, call_in_turn, put_together};
use std::sync::Wait;
use std::thread;
use std::thread::Threads;
use zk_base::NoMemory;
use zk_model_work::WorkOp;
use zk_turn::{Cell, Pass};
use zk_work::Work;

/// Two threads look at item 0, so many times each.
pub fn looked_at_by_two<R: Threads + Sync>(
    rt: &R,
    cell: &Cell<Work>,
    first: Looker<Work>,
    second: Looker<Work>,
    times: u32,
) -> (Looker<Work>, Looker<Work>)
    requires times { times ≤ 20000 }
    requires ready { AreReady (IsLegal work_machine) work_start cell.now times first second }
    ensures first { HasLooked work_machine work_start work_word cell.now 0 first.who result.0 }
    ensures second { HasLooked work_machine work_start work_word cell.now 0 second.who result.1 }
    ensures looked { KeptLooks times result.0 × KeptLooks times result.1 }
{
    thread::join(
        rt,
        move ||
            requires times { times ≤ 20000 }
            requires ready { IsReady (IsLegal work_machine) work_start cell.now times first }
            ensures found { HasLooked work_machine work_start work_word cell.entry.now 0 first.who result }
            ensures looked { KeptLooks times result }
        { look_often(cell, first, 0, times) },
        move ||
            requires times { times ≤ 20000 }
            requires ready { IsReady (IsLegal work_machine) work_start cell.now times second }
            ensures found { HasLooked work_machine work_start work_word cell.entry.now 0 second.who result }
            ensures looked { KeptLooks times result }
        { look_often(cell, second, 0, times) },
    )
}

/// Two threads submit item 0 to queue 0 and cancel it in turn, so many calls each. The pass stands for both players.
pub fn submitted_and_cancelled_by_two<R: Threads + Wait + Sync>(
    rt: &R,
    cell: &Cell<Work>,
    first: Caller<Work>,
    second: Caller<Work>,
    times: u32,
) -> (Pass<Work>, Result<(), NoMemory>)
    requires times { times ≤ 20000 }
    requires submit { work_machine.in_range (work_start (given_to cell.now)) (Submit 0 (Some 0)) ≡ true }
    requires cancel { work_machine.in_range (work_start (given_to cell.now)) (Cancel 0) ≡ true }
    requires new { AreNew (IsLegal work_machine) work_start cell.now first second }
    ensures own { IsPassOf (IsLegal work_machine) work_start cell.now result.0 }
    ensures players { pass_players result.0 ≡ first.who ∷ second.who ∷ [] }
    ensures first { HasSubmittedAndCancelled cell.now first.who times result }
    ensures second { HasSubmittedAndCancelled cell.now second.who times result }
    ensures turns { HadTurns (2 * times) result.1 result.0 }
{
    let (one, other) = thread::join(
        rt,
        move ||
            requires times { times ≤ 20000 }
            requires submit { work_machine.in_range (work_start (given_to cell.now)) (Submit 0 (Some 0)) ≡ true }
            requires cancel { work_machine.in_range (work_start (given_to cell.now)) (Cancel 0) ≡ true }
            requires new { IsNewPass (IsLegal work_machine) work_start cell.now first.who first.pass }
            ensures own { IsPassOf (IsLegal work_machine) work_start cell.entry.now result.0 }
            ensures players { pass_players result.0 ≡ first.who ∷ [] }
            ensures called { HasSubmittedAndCancelled cell.entry.now first.who times result }
            ensures turns { HadTurns times result.1 result.0 }
        {
            call_in_turn(
                rt,
                cell,
                first,
                (WorkOp::Submit(0, Some(0)), WorkOp::Cancel(0)),
                times,
            )
        },
        move ||
            requires times { times ≤ 20000 }
            requires submit { work_machine.in_range (work_start (given_to cell.now)) (Submit 0 (Some 0)) ≡ true }
            requires cancel { work_machine.in_range (work_start (given_to cell.now)) (Cancel 0) ≡ true }
            requires new { IsNewPass (IsLegal work_machine) work_start cell.now second.who second.pass }
            ensures own { IsPassOf (IsLegal work_machine) work_start cell.entry.now result.0 }
            ensures players { pass_players result.0 ≡ second.who ∷ [] }
            ensures called { HasSubmittedAndCancelled cell.entry.now second.who times result }
            ensures turns { HadTurns times result.1 result.0 }
        {
            call_in_turn(
                rt,
                cell,
                second,
                (WorkOp::Submit(0, Some(0)), WorkOp::Cancel(0)),
                times,
            )
        },
    );
    put_together(cell, one, other)
}

/// Two threads look at item 0 while two others submit and cancel it: the lookers, and the pass of the others.
pub fn looked_at_meanwhile<R: Threads + Wait + Sync>(
    rt: &R,
    cell: &Cell<Work>,
    lookers: (Looker<Work>, Looker<Work>),
    callers: (Caller<Work>, Caller<Work>),
    looks: u32,
    calls: u32,
) -> (
    (Looker<Work>, Looker<Work>),
    (Pass<Work>, Result<(), NoMemory>),
)
    requires looks { looks ≤ 20000 }
    requires calls { calls ≤ 20000 }
    requires submit { work_machine.in_range (work_start (given_to cell.now)) (Submit 0 (Some 0)) ≡ true }
    requires cancel { work_machine.in_range (work_start (given_to cell.now)) (Cancel 0) ≡ true }
    requires ready { AreReady (IsLegal work_machine) work_start cell.now looks lookers.0 lookers.1 }
    requires new { AreNew (IsLegal work_machine) work_start cell.now callers.0 callers.1 }
    ensures first { HasLooked work_machine work_start work_word cell.now 0 lookers.0.who result.0.0 }
    ensures second { HasLooked work_machine work_start work_word cell.now 0 lookers.1.who result.0.1 }
    ensures looked { KeptLooks looks result.0.0 × KeptLooks looks result.0.1 }
    ensures own { IsPassOf (IsLegal work_machine) work_start cell.now result.1.0 }
    ensures players { pass_players result.1.0 ≡ callers.0.who ∷ callers.1.who ∷ [] }
    ensures one { HasSubmittedAndCancelled cell.now callers.0.who calls result.1 }
    ensures other { HasSubmittedAndCancelled cell.now callers.1.who calls result.1 }
    ensures turns { HadTurns (2 * calls) result.1.1 result.1.0 }
{
    let (a, b) = lookers;
    let (c, d) = callers;
    thread::join(
        rt,
        move ||
            requires looks { looks ≤ 20000 }
            requires ready { AreReady (IsLegal work_machine) work_start cell.now looks a b }
            ensures first { HasLooked work_machine work_start work_word cell.entry.now 0 a.who result.0 }
            ensures second { HasLooked work_machine work_start work_word cell.entry.now 0 b.who result.1 }
            ensures looked { KeptLooks looks result.0 × KeptLooks looks result.1 }
        { looked_at_by_two(rt, cell, a, b, looks) },
        move ||
            requires calls { calls ≤ 20000 }
            requires submit { work_machine.in_range (work_start (given_to cell.now)) (Submit 0 (Some 0)) ≡ true }
            requires cancel { work_machine.in_range (work_start (given_to cell.now)) (Cancel 0) ≡ true }
            requires new { AreNew (IsLegal work_machine) work_start cell.now c d }
            ensures own { IsPassOf (IsLegal work_machine) work_start cell.entry.now result.0 }
            ensures players { pass_players result.0 ≡ c.who ∷ d.who ∷ [] }
            ensures one { HasSubmittedAndCancelled cell.entry.now c.who calls result }
            ensures other { HasSubmittedAndCancelled cell.entry.now d.who calls result }
            ensures turns { HadTurns (2 * calls) result.1 result.0 }
        { submitted_and_cancelled_by_two(rt, cell, c, d, calls) },
    )
}
