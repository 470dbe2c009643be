ghost use Rattle.std.specs.Prelude.{◌≡◌, ◌+◌, ◌<◌, ◌≤◌, true, false, ℕ, OnErr};
ghost use Rattle.zk_base.specs.Legal.{IsLegal, state_after};
ghost use Rattle.zk_base.specs.History.{IsAbove};
ghost use Rattle.zk_turn.specs.Players.{room_of_a_pass};
ghost use Rattle.zk_turn.specs.Passes.{given_to};
ghost use Rattle.zk_visit.specs.Seats.{IsAt, seen_at, holds_at, Visited};

use std::sync::Wait;
use zk_base::{NoMemory, Service, Who};
use zk_turn::{Cell, Pass};

/// One attempt at one service, with the caller's pass of it. The reply has the place of its entry.
pub fn visit<S: Service, R: Wait>(
    rt: &R,
    cell: &Cell<S>,
    seat: &mut Option<Pass<S>>,
    who: Who,
    step: u32,
    op: S::Op,
) -> Result<Option<(S::Reply, u64)>, NoMemory>
    requires at { (looked : ℕ) × IsAt (IsLegal S.machine) S.start cell.now who looked seat.old × (looked ≤ step) }
    requires number { step < room_of_a_pass }
    requires later { IsAbove (seen_at seat.old) who.number step }
    requires range { S.machine.in_range (S.start (given_to cell.now)) op ≡ true }
    ensures at { (looked : ℕ) → IsAt (IsLegal S.machine) S.start cell.now who looked seat.old → looked ≤ step →
        IsAt (IsLegal S.machine) S.start cell.now who looked seat.new }
    ensures visited { Visited S.machine (S.start (given_to cell.now)) who step op (seen_at seat.old) (seen_at seat.new) result }
    ensures holds { holds_at seat.new ≡ holds_at seat.old + 1 }
    // An operation whose room an earlier entry took wants no memory.
    ensures memory { OnErr result (S.closes (state_after S.machine (S.start (given_to cell.now)) (seen_at seat.new)) who op ≡
        false) }
{
    let Some(pass) = seat.take() else {
        unreachable!()
    };
    let mut held = cell.enter(rt, pass);
    let place = held.at();
    let answer = held.act(step, op);
    *seat = Some(cell.leave(held));
    match answer {
        Ok(Some(reply)) => Ok(Some((reply, place))),
        Ok(None) => Ok(None),
        Err(e) => Err(e),
    }
}
