ghost use Rattle.std.specs.Prelude.{◌≡◌, ◌≤◌, length, map, option_map, is_some, All, IfOk};
ghost use Rattle.zk_base.specs.Legal.{IsLegal};
ghost use Rattle.zk_poll.specs.Seen.{signal_start};
ghost use Rattle.zk_services.specs.Alone.{plain_machines};
ghost use Rattle.zk_turn.specs.Passes.{given_to};
ghost use Rattle.zk_turn.specs.Players.{Differ};
ghost use Rattle.zk_cells.specs.Dealt.{IsBegun, IsUnused, AreUnused, AreLeft, AllLeft, AreSigLeft, AllSigLeft, AreUndealt};
ghost use Rattle.zk_cells.specs.Desks.{cells_machines};
ghost use Rattle.zk_cells.specs.Kernels.{HasWhole, IsSharedBy, AreWhole};
ghost use Rattle.zk_cells.specs.Rows.{starts_in};
ghost use Rattle.zk_cells.specs.Signals.{signal_family};

use crate::cells::Cells;
use crate::dealing::Undealt;
use std::alloc::Global;
use zk_base::{NoMemory, Service, Who, push_within};
use zk_poll::Signal;
use zk_services::Plain;
use zk_signal::{SharedSignal, SigPass};
use zk_turn::{Cell, Pass};

/// A cell for the service of an object, where it has one, and a pass for each player, in order.
fn open_seat<S: Service>(
    alloc: Global,
    service: Option<S>,
    whos: &[Who],
) -> Result<(Option<Cell<S>>, Vec<Pass<S>>), NoMemory>
    requires unused { IsUnused S.history service }
    requires few { length whos.now ≤ 256 }
    requires differ { Differ whos.now }
    ensures start { IfOk result (λ made. option_map (λ c. S.start (given_to c)) made.0 ≡ option_map S.start service) }
    ensures whole { IfOk result (λ made. HasWhole (length whos.now) made.0) }
    ensures passes { IfOk result (λ made. AreLeft (IsLegal S.machine) S.start whos.now made.0 made.1.items) }
{
    match service {
        Some(service) => {
            let (cell, passes) = Cell::new(alloc, service, whos)?;
            Ok((Some(cell), passes))
        }
        None => Ok((None, Vec::new(alloc))),
    }
}

/// A cell for each service of a kind, and a pass of each for each player, in order.
fn open_row<S: Service>(
    alloc: Global,
    services: Vec<Option<S>>,
    whos: &[Who],
) -> Result<(Vec<Option<Cell<S>>>, Vec<Vec<Pass<S>>>), NoMemory>
    requires unused { All (IsUnused S.history) services.items }
    requires few { length whos.now ≤ 256 }
    requires differ { Differ whos.now }
    ensures starts { IfOk result (λ made. starts_in S.start made.0.items ≡ map (option_map S.start) services.items) }
    ensures whole { IfOk result (λ made. All (HasWhole (length whos.now)) made.0.items) }
    ensures passes { IfOk result (λ made. AllLeft (IsLegal S.machine) S.start whos.now made.0.items made.1.items) }
{
    let mut cells = Vec::with_capacity(alloc, services.len())?;
    let mut lists = Vec::with_capacity(alloc, services.len())?;
    for service in services {
        let (cell, passes) = open_seat(alloc, service, whos)?;
        push_within(&mut cells, cell);
        push_within(&mut lists, passes);
    }
    Ok((cells, lists))
}

/// The numbers of these players.
fn numbers_of(alloc: Global, whos: &[Who]) -> Result<Vec<u32>, NoMemory>
    ensures { IfOk result (λ made. made.items ≡ map (λ w. w.number) whos.now) }
{
    let mut numbers = Vec::new(alloc);
    for who in whos {
        numbers.push(who.number)?;
    }
    Ok(numbers)
}

/// A shared signal where an object has a signal, and a pass for each player, in order.
fn open_signal(
    alloc: Global,
    has_one: bool,
    whos: &[Who],
) -> Result<(Option<SharedSignal>, Vec<SigPass>), NoMemory>
    requires few { length whos.now ≤ 256 }
    ensures some { IfOk result (λ made. is_some made.0 ≡ has_one) }
    ensures whole { IfOk result (λ made. IsSharedBy (length whos.now) made.0) }
    ensures passes { IfOk result (λ made. AreSigLeft whos.now made.0 made.1.items) }
{
    if has_one {
        let numbers = numbers_of(alloc, whos)?;
        let (signal, passes) = SharedSignal::new(alloc, &numbers)?;
        return Ok((Some(signal), passes));
    }
    Ok((None, Vec::new(alloc)))
}

/// A shared signal in place of each signal, and a pass of each for each player, in order.
fn open_signals(
    alloc: Global,
    services: &[Option<Signal>],
    whos: &[Who],
) -> Result<(Vec<Option<SharedSignal>>, Vec<Vec<SigPass>>), NoMemory>
    requires begun { All IsBegun services.now }
    requires few { length whos.now ≤ 256 }
    ensures starts { IfOk result (λ made. (signal_family made.0.items).starts ≡ map (option_map signal_start) services.now) }
    ensures whole { IfOk result (λ made. All (IsSharedBy (length whos.now)) made.0.items) }
    ensures passes { IfOk result (λ made. AllSigLeft whos.now made.0.items made.1.items) }
{
    let mut signals = Vec::with_capacity(alloc, services.len())?;
    let mut lists = Vec::with_capacity(alloc, services.len())?;
    for service in services {
        let (signal, passes) = open_signal(alloc, service.is_some(), whos)?;
        push_within(&mut signals, signal);
        push_within(&mut lists, passes);
    }
    Ok((signals, lists))
}

/// A cell for each service, a shared signal for each signal, and the passes of them for these players.
pub fn open_cells(
    alloc: Global,
    services: Plain,
    whos: &[Who],
) -> Result<(Cells, Undealt), NoMemory>
    requires unused { AreUnused services }
    requires few { length whos.now ≤ 256 }
    requires differ { Differ whos.now }
    ensures machines { IfOk result (λ made. cells_machines made.0 ≡ plain_machines services) }
    ensures whole { IfOk result (λ made. AreWhole made.0 (length whos.now)) }
    ensures passes { IfOk result (λ made. AreUndealt made.0 whos.now made.1) }
{
    let work = Cell::new(alloc, services.work, whos)?;
    let clock = Cell::new(alloc, services.clock, whos)?;
    let table = Cell::new(alloc, services.table, whos)?;
    let sems = open_row(alloc, services.sems, whos)?;
    let msgqs = open_row(alloc, services.msgqs, whos)?;
    let signals = open_signals(alloc, &services.signals, whos)?;
    let chans = open_row(alloc, services.chans, whos)?;
    let observers = open_row(alloc, services.observers, whos)?;
    let cells = Cells {
        work: work.0,
        items: services.items,
        most: services.most,
        clock: clock.0,
        table: table.0,
        sems: sems.0,
        msgqs: msgqs.0,
        signals: signals.0,
        chans: chans.0,
        observers: observers.0,
    };
    let undealt = Undealt {
        work: work.1,
        clock: clock.1,
        table: table.1,
        sems: sems.1,
        msgqs: msgqs.1,
        signals: signals.1,
        chans: chans.1,
        observers: observers.1,
    };
    Ok((cells, undealt))
}
