ghost use Rattle.std.specs.Prelude.{◌≡◌, ◌++◌, ℕ, List, IfOk};
ghost use Rattle.zk_base.specs.Legal.{IsLegal};
ghost use Rattle.zk_base.specs.declared.ids.Who.{Who};
ghost use Rattle.zk_base.specs.declared.seen.Seen.{Seen};
ghost use Rattle.zk_turn.specs.Players.{GoesOn};
ghost use Rattle.zk_visit.specs.Seats.{seen_at};
ghost use Rattle.zk_cells.specs.Rows.{seen_all};
ghost use Rattle.zk_cells.specs.Desks.{desk_shown};
ghost use Rattle.zk_cells.specs.Joined.{StandsFor, StandsIn, AllStand, EachGoesOn, AreFor, AllGoOn, HasSharedIn, HaveShared};

use crate::cells::Cells;
use crate::passes::Passes;
use zk_base::{NoMemory, Service};
use zk_signal::{SharedSignal, SigPass};
use zk_turn::{Cell, Pass};

/// Puts two passes of one cell together.
pub fn join_two<S: Service>(cell: &Cell<S>, into: &mut Option<Pass<S>>, other: Option<Pass<S>>)
    requires own { (ws : List Who) × (us : List Who) × StandsFor (IsLegal S.machine) S.start ws cell.now into.old
        × StandsFor (IsLegal S.machine) S.start us cell.now other }
    ensures players { (ws us : List Who) → StandsFor (IsLegal S.machine) S.start ws cell.now into.old →
        StandsFor (IsLegal S.machine) S.start us cell.now other →
        StandsFor (IsLegal S.machine) S.start (ws ++ us) cell.now into.new }
    ensures first { (ws : List Who) → StandsFor (IsLegal S.machine) S.start ws cell.now into.old →
        GoesOn ws (seen_at into.old) (seen_at into.new) }
    ensures second { (us : List Who) → StandsFor (IsLegal S.machine) S.start us cell.now other →
        GoesOn us (seen_at other) (seen_at into.new) }
{
    let Some(mut pass) = into.take() else {
        unreachable!()
    };
    let Some(other) = other else { unreachable!() };
    cell.join(&mut pass, other);
    *into = Some(pass);
}

/// Puts two passes of one object together, where it has a cell.
fn join_one<S: Service>(cell: &Option<Cell<S>>, into: &mut Option<Pass<S>>, other: Option<Pass<S>>)
    requires own { (ws : List Who) × (us : List Who) × StandsIn (IsLegal S.machine) S.start ws cell.now into.old
        × StandsIn (IsLegal S.machine) S.start us cell.now other }
    ensures players { (ws us : List Who) → StandsIn (IsLegal S.machine) S.start ws cell.now into.old →
        StandsIn (IsLegal S.machine) S.start us cell.now other →
        StandsIn (IsLegal S.machine) S.start (ws ++ us) cell.now into.new }
    ensures first { (ws : List Who) → StandsIn (IsLegal S.machine) S.start ws cell.now into.old →
        GoesOn ws (seen_at into.old) (seen_at into.new) }
    ensures second { (us : List Who) → StandsIn (IsLegal S.machine) S.start us cell.now other →
        GoesOn us (seen_at other) (seen_at into.new) }
{
    match cell {
        Some(cell) => join_two(cell, into, other),
        None => {}
    }
}

/// Puts the passes of one kind together.
pub fn join_rows<S: Service>(
    cells: &[Option<Cell<S>>],
    into: &mut Vec<Option<Pass<S>>>,
    mut other: Vec<Option<Pass<S>>>,
)
    requires own { (ws : List Who) × (us : List Who) × AllStand (IsLegal S.machine) S.start ws cells.now into.old.items
        × AllStand (IsLegal S.machine) S.start us cells.now other.items }
    ensures players { (ws us : List Who) → AllStand (IsLegal S.machine) S.start ws cells.now into.old.items →
        AllStand (IsLegal S.machine) S.start us cells.now other.items →
        AllStand (IsLegal S.machine) S.start (ws ++ us) cells.now into.new.items }
    ensures first { (ws us : List Who) → AllStand (IsLegal S.machine) S.start ws cells.now into.old.items →
        AllStand (IsLegal S.machine) S.start us cells.now other.items →
        EachGoesOn ws (seen_all into.old.items) (seen_all into.new.items) }
    ensures second { (ws us : List Who) → AllStand (IsLegal S.machine) S.start ws cells.now into.old.items →
        AllStand (IsLegal S.machine) S.start us cells.now other.items →
        EachGoesOn us (seen_all other.items) (seen_all into.new.items) }
{
    for index in 0..cells.len() {
        let pass = other[index].take();
        join_one(&cells[index], &mut into[index], pass);
    }
}

/// Puts two passes of the signal of one object together, where it has one.
fn join_signal(signal: &Option<SharedSignal>, into: &mut Option<SigPass>, other: Option<SigPass>)
    requires own { (ns : List ℕ) × (ms : List ℕ) × (xs : List Seen) × (ys : List Seen) × (fs : List Seen) × (gs : List Seen)
        × HasSharedIn ns xs fs signal.now into.old × HasSharedIn ms ys gs signal.now other }
    ensures { (ns ms : List ℕ) (xs ys fs gs : List Seen) → HasSharedIn ns xs fs signal.now into.old →
        HasSharedIn ms ys gs signal.now other → HasSharedIn (ns ++ ms) (xs ++ ys) (fs ++ gs) signal.now into.new }
{
    let Some(signal) = signal else {
        return;
    };
    let Some(mut pass) = into.take() else {
        unreachable!()
    };
    let Some(other) = other else { unreachable!() };
    signal.join(&mut pass, other);
    *into = Some(pass);
}

/// Puts the passes of the signals together.
fn join_signals(
    signals: &[Option<SharedSignal>],
    into: &mut Vec<Option<SigPass>>,
    mut other: Vec<Option<SigPass>>,
)
    requires own { (ns : List ℕ) × (ms : List ℕ) × (xs : ℕ → List Seen) × (ys : ℕ → List Seen) × (fs : ℕ → List Seen)
        × (gs : ℕ → List Seen) × HaveShared ns xs fs signals.now into.old.items × HaveShared ms ys gs signals.now other.items }
    ensures { (ns ms : List ℕ) (xs ys fs gs : ℕ → List Seen) → HaveShared ns xs fs signals.now into.old.items →
        HaveShared ms ys gs signals.now other.items →
        HaveShared (ns ++ ms) (λ object. xs object ++ ys object) (λ object. fs object ++ gs object) signals.now into.new.items }
{
    for index in 0..signals.len() {
        let pass = other[index].take();
        join_signal(&signals[index], &mut into[index], pass);
    }
}

/// Puts all passes of two callers together, and their notes one after the other.
pub fn join_passes(cells: &Cells, into: &mut Passes, mut other: Passes) -> Result<(), NoMemory>
    requires own { (ws : List Who) × (us : List Who) × AreFor cells.now ws into.old × AreFor cells.now us other }
    requires shared { (ns : List ℕ) × (ms : List ℕ) × (xs : ℕ → List Seen) × (ys : ℕ → List Seen) × (fs : ℕ → List Seen)
        × (gs : ℕ → List Seen) × HaveShared ns xs fs cells.now.signals.items into.old.signals.items
        × HaveShared ms ys gs cells.now.signals.items other.signals.items }
    ensures players { IfOk result (λ _. (ws us : List Who) → AreFor cells.now ws into.old → AreFor cells.now us other →
        AreFor cells.now (ws ++ us) into.new) }
    ensures first { IfOk result (λ _. (ws us : List Who) → AreFor cells.now ws into.old → AreFor cells.now us other →
        AllGoOn ws (desk_shown into.old) (desk_shown into.new)) }
    ensures second { IfOk result (λ _. (ws us : List Who) → AreFor cells.now ws into.old → AreFor cells.now us other →
        AllGoOn us (desk_shown other) (desk_shown into.new)) }
    ensures notes { IfOk result (λ _. into.new.notes.items ≡ into.old.notes.items ++ other.notes.items) }
    ensures signals { IfOk result (λ _. (ns ms : List ℕ) (xs ys fs gs : ℕ → List Seen) →
        HaveShared ns xs fs cells.now.signals.items into.old.signals.items →
        HaveShared ms ys gs cells.now.signals.items other.signals.items →
        HaveShared (ns ++ ms) (λ object. xs object ++ ys object) (λ object. fs object ++ gs object) cells.now.signals.items
        into.new.signals.items) }
{
    into.notes.append(&mut other.notes)?;
    join_two(&cells.work, &mut into.work, other.work);
    join_two(&cells.clock, &mut into.clock, other.clock);
    join_two(&cells.table, &mut into.table, other.table);
    join_rows(&cells.sems, &mut into.sems, other.sems);
    join_rows(&cells.msgqs, &mut into.msgqs, other.msgqs);
    join_signals(&cells.signals, &mut into.signals, other.signals);
    join_rows(&cells.chans, &mut into.chans, other.chans);
    join_rows(&cells.observers, &mut into.observers, other.observers);
    Ok(())
}
