ghost use Rattle.std.specs.Prelude.{◌≡◌, ◌+◌, ◌<◌, ◌≤◌, ℕ, length};
ghost use Rattle.zk_base.specs.Legal.{IsLegal, state_after};
ghost use Rattle.zk_base.specs.History.{IsAbove};
ghost use Rattle.zk_turn.specs.Players.{room_of_a_pass};
ghost use Rattle.zk_turn.specs.Passes.{given_to};
ghost use Rattle.zk_worker.specs.Single.{OthersGrew};
ghost use Rattle.zk_visit.specs.Seats.{IsAt, seen_at, holds_at};

use zk_base::{Service, Who};
use zk_turn::{Cell, Look, Pass};

/// A look at the word of an index: the word, and how many entries the service had then. It takes no turn.
pub fn look<S: Service>(
    cell: &Cell<S>,
    seat: &mut Option<Pass<S>>,
    who: Who,
    step: u32,
    index: u32,
) -> Look
    requires at { (looked : ℕ) × IsAt (IsLegal S.machine) S.start cell.now who looked seat.old × (looked ≤ step) }
    requires number { step < room_of_a_pass }
    requires later { IsAbove (seen_at seat.old) who.number step }
    requires index { index < S.WORDS }
    ensures at { IsAt (IsLegal S.machine) S.start cell.now who (step + 1) seat.new }
    ensures grew { OthersGrew who.number (seen_at seat.old) (seen_at seat.new) }
    ensures word { result.word ≡ S.word (state_after S.machine (S.start (given_to cell.now)) (seen_at seat.new)) index }
    ensures small { result.word < 65536 }
    ensures place { result.at ≡ length (seen_at seat.new) }
    ensures holds { holds_at seat.new ≡ holds_at seat.old }
{
    let Some(pass) = seat else { unreachable!() };
    cell.look(pass, index)
}
