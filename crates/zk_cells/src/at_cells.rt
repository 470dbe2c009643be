ghost use Rattle.std.specs.Prelude.{◌≡◌, ◌+◌, ◌<◌, ◌≢◌, true, false, ℕ, length, slice_get, Some, Option, List, [], set, OnErr};
ghost use Rattle.zk_base.specs.declared.ids.Entry.{Entry};
ghost use Rattle.zk_base.specs.Legal.{IsLegal, state_after};
ghost use Rattle.zk_base.specs.History.{IsAbove};
ghost use Rattle.zk_turn.specs.Players.{room_of_a_pass};
ghost use Rattle.zk_turn.specs.declared.cell.Cell.{Cell};
ghost use Rattle.zk_turn.specs.Passes.{given_to};
ghost use Rattle.zk_worker.specs.Families.{closes_at, takes_at};
ghost use Rattle.zk_visit.specs.Seats.{Visited, seen_at, holds_at};
ghost use Rattle.zk_cells.specs.Rows.{family, seen_all, holds_in, IsSeat, AreSeats, takes_in, VisitedAt};

use std::sync::Wait;
use zk_base::{NoMemory, Service, Who};
use zk_turn::{Cell, Pass};
use zk_visit::visit;

/// One attempt at the service of an object that has one.
fn visit_one<S: Service, R: Wait>(
    rt: &R,
    cell: &Option<Cell<S>>,
    seat: &mut Option<Pass<S>>,
    who: Who,
    step: u32,
    op: S::Op,
) -> Result<Option<(S::Reply, u64)>, NoMemory>
    requires seat { IsSeat (IsLegal S.machine) S.start who cell.now seat.old }
    requires number { step < room_of_a_pass }
    requires later { IsAbove (seen_at seat.old) who.number step }
    requires taken { takes_in S.machine S.start cell.now op ≡ true }
    ensures seat { IsSeat (IsLegal S.machine) S.start who cell.now seat.new }
    ensures visited { (c : Cell S S.Op S.Reply S.State) → cell.now ≡ Some c →
        Visited S.machine (S.start (given_to c)) who step op (seen_at seat.old) (seen_at seat.new) result }
    ensures holds { holds_at seat.new ≡ holds_at seat.old + 1 }
    ensures memory { (c : Cell S S.Op S.Reply S.State) → cell.now ≡ Some c →
        OnErr result (S.closes (state_after S.machine (S.start (given_to c)) (seen_at seat.new)) who op ≡ false) }
{
    let Some(cell) = cell else { unreachable!() };
    visit(rt, cell, seat, who, step, op)
}

/// One attempt at one of the objects of a kind, which stand by object number.
pub fn visit_at<S: Service, R: Wait>(
    rt: &R,
    cells: &[Option<Cell<S>>],
    seats: &mut Vec<Option<Pass<S>>>,
    object: u32,
    who: Who,
    step: u32,
    op: S::Op,
) -> Result<Option<(S::Reply, u64)>, NoMemory>
    requires seats { AreSeats (IsLegal S.machine) S.start who cells.now seats.old.items }
    requires number { step < room_of_a_pass }
    requires later { (h : List (Entry S.Op S.Reply)) →
        slice_get (seen_all seats.old.items) object ≡ Some h → IsAbove h who.number step }
    requires taken { takes_at (family S.machine S.start cells.now) object op ≡ true }
    ensures seats { AreSeats (IsLegal S.machine) S.start who cells.now seats.new.items }
    ensures visited { VisitedAt (family S.machine S.start cells.now) who step object op
        (seen_all seats.old.items) (seen_all seats.new.items) result }
    ensures holds { holds_in seats.new.items object ≡ holds_in seats.old.items object + 1 }
    ensures memory { OnErr result (closes_at S.closes (family S.machine S.start cells.now)
        (seen_all seats.new.items) who object op ≡ false) }
    ensures kept { set (seen_all seats.new.items) object [] ≡ set (seen_all seats.old.items) object [] }
    ensures others { (i : ℕ) → i ≢ object → holds_in seats.new.items i ≡ holds_in seats.old.items i }
{
    let object = object as usize;
    visit_one(rt, &cells[object], &mut seats[object], who, step, op)
}
