ghost use Rattle.std.specs.Prelude.{◌≡◌, ◌↔◌, ◌+◌, ◌^◌, ◌<◌, ◌≤◌, true, length, option_map, All, MatchOption, IfSome, IfOk};
ghost use Rattle.zk_model_wait.specs.Signal.{written, value_at};
ghost use Rattle.zk_trace.specs.Form.{IsInForm};
ghost use Rattle.zk_trace.specs.History.{AreLegal};
ghost use Rattle.zk_trace.specs.Look.{AreRight};
ghost use Rattle.zk_trace.specs.Place.{IsPlaced};
ghost use Rattle.zk_trace.specs.Stood.{stood};
ghost use Rattle.zk_worker.specs.Looks.{writes_of};
ghost use Rattle.zk_failures.specs.First.{IsFirst};
ghost use Rattle.zk_failures.specs.LookFailure.{IsWrong};
ghost use Rattle.zk_failures.specs.LookOrder.{IsWithin};
ghost use Rattle.zk_failures.specs.LooksHeld.{all_orders, is_in_order, IsKnownAt, IsFit, AreHeld, IsFirstUnheld};

use crate::item_looks::first_missed;
use crate::look_order::orders_of;
use std::alloc::Global;
use zk_base::{Entry, Listed, NoMemory, Seen};
use zk_model_wait::{SignalOp, SignalReply};
use zk_scenario::Scenario;
use zk_trace::{History, Stood, Trace};
use zk_worker::{Log, Spot};

/// What the write of a stamp leaves.
fn written(stamp: u32, op: SignalOp) -> Seen
    ensures { result ≡ written stamp op }
{
    let (raised, result) = match op {
        SignalOp::Raise(result) => (true, result),
        SignalOp::Clear => (false, 0),
    };
    Seen {
        raised,
        result,
        stamp,
    }
}

/// Whether a look found what a signal with these writes was.
fn is_known(writes: &[Entry<SignalOp, SignalReply>], seen: Seen) -> bool
    ensures { (result ≡ true) ↔ ((seen.stamp ≤ length writes.now) × (value_at (writes_of writes.now) seen.stamp ≡ seen)) }
{
    match (seen.stamp as usize).checked_sub(1) {
        None => seen == written(0, SignalOp::Clear),
        Some(before) => match writes.get(before) {
            Some(entry) => seen == written(seen.stamp, entry.op),
            None => false,
        },
    }
}

/// Whether a look found what the signal of an object number was.
fn is_known_at(signals: &[History<SignalOp, SignalReply>], object: u32, seen: Seen) -> bool
    ensures { (result ≡ true) ↔ IsKnownAt signals.now object seen }
{
    match signals.get(object as usize) {
        Some(history) => is_known(history.items(), seen),
        None => false,
    }
}

/// Whether a line's step has seen nothing older than the earlier ones, and nothing newer than what its player wrote
/// later.
fn is_in_order(orders: &[Listed<bool>], line: &Stood) -> bool
    ensures { result ≡ is_in_order orders.now line.now }
{
    match orders.get(line.player as usize) {
        Some(steps) => match steps.items().get(line.step as usize) {
            Some(order) => *order,
            None => true,
        },
        None => true,
    }
}

/// Whether a line stands in order and found what was there, where it is a look; one at an item may have found anything.
fn is_fit(signals: &[History<SignalOp, SignalReply>], orders: &[Listed<bool>], line: &Stood) -> bool
    ensures { (result ≡ true) ↔ IsFit signals.now orders.now line.now }
{
    match line.spot {
        Spot::LookItem(..) => is_in_order(orders, line),
        Spot::LookSignal(object, seen) => {
            is_in_order(orders, line) && is_known_at(signals, object, seen)
        }
        _ => true,
    }
}

/// The place of the first line that isn't fit, or is the one that missed what was there.
fn first_unheld(
    signals: &[History<SignalOp, SignalReply>],
    orders: &[Listed<bool>],
    missed: Option<usize>,
    rows: &[Stood],
) -> Option<usize>
    ensures { MatchOption result
        (AreHeld signals.now orders.now missed rows.now)
        (λ place. IsFirstUnheld signals.now orders.now missed rows.now place) }
{
    for (place, line) in rows.iter().enumerate() {
        if missed == Some(place) || !is_fit(signals, orders, line) {
            return Some(place);
        }
    }
    None
}

/// Whether each step of each player stands in order.
fn all_orders(alloc: Global, objects: usize, logs: &[Log]) -> Result<Vec<Listed<bool>>, NoMemory>
    requires { All (λ log. All (IsWithin objects) log.steps) logs.now }
    ensures { IfOk result (λ orders. orders.items ≡ all_orders logs.now) }
{
    let mut orders = Vec::with_capacity(alloc, logs.len())?;
    for log in logs {
        let steps = orders_of(alloc, objects, log.steps.items())?;
        orders.push(Listed::from_vec(steps))?;
    }
    Ok(orders)
}

/// The row of a look at an item: these stand behind the entries of work.
fn row_of_look(trace: &Trace, place: Option<usize>) -> Option<usize>
    requires { IfSome place (λ place. length trace.now.work + place < 2 ^ 64) }
    ensures { result ≡ option_map (λ place. length trace.now.work + place) place }
{
    match place {
        Some(place) => Some(trace.work.items().len() + place),
        None => None,
    }
}

/// The row of the first look that isn't right, if there is one.
pub fn look_failure(
    alloc: Global,
    scenario: &Scenario,
    trace: &Trace,
    rows: &[Stood],
) -> Result<Option<u64>, NoMemory>
    requires form { IsInForm scenario.now trace.now }
    requires placed { IsPlaced scenario.now trace.now }
    requires legal { AreLegal scenario.now trace.now }
    requires rows { rows.now ≡ stood trace.now }
    ensures { IfOk result (λ row. MatchOption row
        (AreRight scenario.now trace.now)
        (λ row. IsFirst (IsWrong scenario.now trace.now) row)) }
{
    let _valid = scenario.decls();
    let missed = first_missed(alloc, scenario, trace)?;
    let missed_row = row_of_look(trace, missed);
    let objects = trace.signals.items().len();
    let orders = all_orders(alloc, objects, trace.logs.items())?;
    match first_unheld(trace.signals.items(), &orders, missed_row, rows) {
        Some(row) => Ok(Some(row as u64)),
        None => Ok(None),
    }
}
