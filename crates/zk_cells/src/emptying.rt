ghost use Rattle.std.specs.Prelude.{◌≡◌, ◌≤◌, ◌*◌, ℕ, true, List, length, IfOk, All};
ghost use Rattle.zk_base.specs.Legal.{IsLegal};
ghost use Rattle.zk_base.specs.declared.ids.Who.{Who};
ghost use Rattle.zk_base.specs.declared.seen.Seen.{Seen};
ghost use Rattle.zk_poll.specs.Seen.{signal_history};
ghost use Rattle.zk_services.specs.Alone.{plain_machines, plain_shown};
ghost use Rattle.zk_services.specs.Objects.{histories_of};
ghost use Rattle.zk_turn.specs.Passes.{given_to, players_in};
ghost use Rattle.zk_turn.specs.Players.{is_by, room_of_a_pass};
ghost use Rattle.zk_world.specs.Legal.{IsLegalShown};
ghost use Rattle.zk_world.specs.Within.{AreWithin};
ghost use Rattle.zk_cells.specs.Closed.{IsClosed, AreClosed, AreBy, AllBy, ended, AreInStep, ArePlayed};
ghost use Rattle.zk_cells.specs.Desks.{cells_machines, desk_shown};
ghost use Rattle.zk_cells.specs.Joined.{StandsFor, StandsIn, AllStand, AreFor, HaveShared, left_at, numbers_of};
ghost use Rattle.zk_cells.specs.Kernels.{HasWhole, AreWhole};
ghost use Rattle.zk_cells.specs.Notes.{entries_of, writes_at};
ghost use Rattle.zk_visit.specs.Seats.{seen_at};

use crate::cells::Cells;
use crate::passes::Passes;
use crate::playing::empty_signals;
use std::alloc::Global;
use zk_base::{NoMemory, Service};
use zk_services::Plain;
use zk_turn::{Cell, Pass};

/// Takes a service out of its cell, for a pass that stands for all its players.
fn empty_one<S: Service>(cell: Cell<S>, pass: Option<Pass<S>>) -> S
    requires all { (ws : List Who) × StandsFor (IsLegal S.machine) S.start ws cell pass × (length ws ≡ length (players_in cell)) }
    ensures history { S.history result ≡ seen_at pass }
    ensures start { S.start result ≡ S.start (given_to cell) }
    ensures legal { IsLegal S.machine (S.start result) (S.history result) }
    ensures short { length (S.history result) ≤ room_of_a_pass * length (players_in cell) }
    ensures mine { (ws : List Who) → StandsFor (IsLegal S.machine) S.start ws cell pass →
        All (λ e. is_by ws e ≡ true) (S.history result) }
{
    let Some(pass) = pass else { unreachable!() };
    cell.close(pass)
}

/// Takes the service of an object out of its cell, where it has one.
fn empty_seat<S: Service>(cell: Option<Cell<S>>, pass: Option<Pass<S>>) -> Option<S>
    requires all { (ws : List Who) × StandsIn (IsLegal S.machine) S.start ws cell pass × HasWhole (length ws) cell }
    ensures { IsClosed (IsLegal S.machine) S.start S.history cell pass result }
{
    match cell {
        Some(cell) => Some(empty_one(cell, pass)),
        None => None,
    }
}

/// Takes the services of a kind out of their cells.
fn empty_rows<S: Service>(
    alloc: Global,
    mut cells: Vec<Option<Cell<S>>>,
    mut passes: Vec<Option<Pass<S>>>,
) -> Result<Vec<Option<S>>, NoMemory>
    requires all { (ws : List Who) × AllStand (IsLegal S.machine) S.start ws cells.items passes.items ×
        All (HasWhole (length ws)) cells.items }
    ensures { IfOk result (λ services. AreClosed (IsLegal S.machine) S.start S.history cells.items passes.items services.items) }
{
    let mut services = Vec::new(alloc);
    for index in 0..cells.len() {
        let cell = cells[index].take();
        let pass = passes[index].take();
        services.push(empty_seat(cell, pass))?;
    }
    Ok(services)
}

/// Takes all services out of their cells, for passes that stand for all players, and plays the writes at signals.
pub fn empty_cells(alloc: Global, cells: Cells, all: Passes) -> Result<Plain, NoMemory>
    requires all { (ws : List Who) × (found : ℕ → List Seen) × AreFor cells ws all
        × HaveShared (numbers_of ws) (left_at all.notes.items) found cells.signals.items all.signals.items
        × AreWhole cells (length ws) × (length ws ≤ 256) }
    requires steps { AreInStep all.notes.items }
    ensures machines { IfOk result (λ services. plain_machines services ≡ cells_machines cells) }
    ensures shown { IfOk result (λ services. plain_shown services ≡
        ended (desk_shown all) (histories_of signal_history services.signals.items)) }
    ensures legal { IfOk result (λ services. IsLegalShown (cells_machines cells)
        (ended (desk_shown all) (histories_of signal_history services.signals.items))) }
    ensures short { IfOk result (λ services. (ws : List Who) → AreWhole cells (length ws) →
        AreWithin (ended (desk_shown all) (histories_of signal_history services.signals.items)) (room_of_a_pass * length ws)) }
    ensures mine { IfOk result (λ services. (ws : List Who) → AreFor cells ws all → AreBy ws (entries_of all.notes.items) →
        AllBy ws (ended (desk_shown all) (histories_of signal_history services.signals.items))) }
    ensures played { IfOk result (λ services. (ws : List Who) (found : ℕ → List Seen) →
        HaveShared (numbers_of ws) (left_at all.notes.items) found cells.signals.items all.signals.items →
        ArePlayed (writes_at all.notes.items) found cells.signals.items services.signals.items) }
{
    Ok(Plain {
        work: empty_one(cells.work, all.work),
        items: cells.items,
        most: cells.most,
        clock: empty_one(cells.clock, all.clock),
        table: empty_one(cells.table, all.table),
        sems: empty_rows(alloc, cells.sems, all.sems)?,
        msgqs: empty_rows(alloc, cells.msgqs, all.msgqs)?,
        signals: empty_signals(alloc, cells.signals, all.signals, &all.notes)?,
        chans: empty_rows(alloc, cells.chans, all.chans)?,
        observers: empty_rows(alloc, cells.observers, all.observers)?,
    })
}
