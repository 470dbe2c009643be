ghost use Rattle.std.specs.Prelude.{◌≡◌, ◌*◌, ◌≤◌, true, [], ◌∷◌};
ghost use Rattle.zk_base.specs.Legal.{IsLegal};
ghost use Rattle.zk_model_wait.specs.declared.clock.ClockOp.TheVariants.{Announce};
ghost use Rattle.zk_model_wait.specs.Clock.{clock_machine};
ghost use Rattle.zk_time.specs.ClockSeen.{clock_start};
ghost use Rattle.zk_turn.specs.Passes.{IsNewPass, IsPassOf, pass_players, given_to};
ghost use Rattle.zk_uses.specs.Callers.{AreNew, HadTurns, HasTicked};

use crate::often::{Caller, call_often, put_together};
use std::sync::Wait;
use std::thread;
use std::thread::Threads;
use zk_base::NoMemory;
use zk_model_wait::ClockOp;
use zk_time::Clock;
use zk_turn::{Cell, Pass};

/// Two threads let a tick pass at once, each so many times. The pass that comes back stands for both players.
pub fn ticked_by_two<R: Threads + Wait + Sync>(
    rt: &R,
    cell: &Cell<Clock>,
    first: Caller<Clock>,
    second: Caller<Clock>,
    times: u32,
) -> (Pass<Clock>, Result<(), NoMemory>)
    requires times { times ≤ 20000 }
    requires range { clock_machine.in_range (clock_start (given_to cell.now)) (Announce 1) ≡ true }
    requires new { AreNew (IsLegal clock_machine) clock_start cell.now first second }
    ensures own { IsPassOf (IsLegal clock_machine) clock_start cell.now result.0 }
    ensures players { pass_players result.0 ≡ first.who ∷ second.who ∷ [] }
    ensures first { HasTicked cell.now first.who times result }
    ensures second { HasTicked cell.now second.who times result }
    ensures turns { HadTurns (2 * times) result.1 result.0 }
{
    let (one, other) = thread::join(
        rt,
        move ||
            requires times { times ≤ 20000 }
            requires range { clock_machine.in_range (clock_start (given_to cell.now)) (Announce 1) ≡ true }
            requires new { IsNewPass (IsLegal clock_machine) clock_start cell.now first.who first.pass }
            ensures own { IsPassOf (IsLegal clock_machine) clock_start cell.entry.now result.0 }
            ensures players { pass_players result.0 ≡ first.who ∷ [] }
            ensures called { HasTicked cell.entry.now first.who times result }
            ensures turns { HadTurns times result.1 result.0 }
        { call_often(rt, cell, first, ClockOp::Announce(1), times) },
        move ||
            requires times { times ≤ 20000 }
            requires range { clock_machine.in_range (clock_start (given_to cell.now)) (Announce 1) ≡ true }
            requires new { IsNewPass (IsLegal clock_machine) clock_start cell.now second.who second.pass }
            ensures own { IsPassOf (IsLegal clock_machine) clock_start cell.entry.now result.0 }
            ensures players { pass_players result.0 ≡ second.who ∷ [] }
            ensures called { HasTicked cell.entry.now second.who times result }
            ensures turns { HadTurns times result.1 result.0 }
        { call_often(rt, cell, second, ClockOp::Announce(1), times) },
    );
    put_together(cell, one, other)
}
