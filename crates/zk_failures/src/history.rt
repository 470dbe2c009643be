ghost use Rattle.std.specs.Prelude.{◌≡◌, ◌<◌, [], None, length, All, IfOk, MatchOption};
ghost use Rattle.zk_base.specs.Limits.{most_entries};
ghost use Rattle.zk_worker.specs.Machines.{machines_of};
ghost use Rattle.zk_worker.specs.Shown.{nothing_shown};
ghost use Rattle.zk_services.specs.Alone.{plain_machines, plain_shown};
ghost use Rattle.zk_trace.specs.Form.{IsInForm};
ghost use Rattle.zk_trace.specs.History.{AreLegal};
ghost use Rattle.zk_trace.specs.Place.{IsPlaced};
ghost use Rattle.zk_trace.specs.Shown.{trace_shown};
ghost use Rattle.zk_failures.specs.Answering.{Sought, single_lines, waited_lines, bus_lines, SinglesStand, WaitedStand, BusStands};
ghost use Rattle.zk_failures.specs.First.{IsFirst};
ghost use Rattle.zk_failures.specs.HistoryFailure.{IsUnlikeIn, IsUnanswered};
ghost use Rattle.zk_failures.specs.Playable.{ArePlayable};

use crate::unlike::{first_among, first_unlike, line_count};
use zk_base::NoMemory;
use zk_scenario::Scenario;
use zk_services::Plain;
use zk_trace::Trace;

/// The first line of the services of which there is one that isn't answered so, among their lines.
fn single_failure(services: &mut Plain, trace: &Trace) -> Result<Option<u64>, NoMemory>
    requires playable { ArePlayable (plain_machines services.old) trace.now }
    requires work { (plain_shown services.old).work ≡ [] }
    requires clock { (plain_shown services.old).clock ≡ [] }
    requires table { (plain_shown services.old).table ≡ [] }
    ensures found { IfOk result (λ row. Sought (SinglesStand (plain_machines services.old) trace.now)
        (IsUnlikeIn (plain_machines services.old) trace.now) (single_lines trace.now) row) }
    ensures shown { IfOk result (λ row. row ≡ None → plain_shown services.new
        ≡ record (plain_shown services.old) { work = trace.now.work; clock = trace.now.clock; table = trace.now.table }) }
    ensures machines { plain_machines services.new ≡ plain_machines services.old }
{
    if let Some(place) = first_unlike(&mut services.work, trace.work.items())? {
        return Ok(Some(place));
    }
    let lines = (trace.work.items().len() + trace.looks.items.items().len()) as u64;
    if let Some(place) = first_unlike(&mut services.clock, trace.clock.items())? {
        return Ok(Some(lines + place));
    }
    let lines = lines + trace.clock.items().len() as u64;
    match first_unlike(&mut services.table, trace.table.items())? {
        Some(place) => Ok(Some(lines + place)),
        None => Ok(None),
    }
}

/// The same of what players wait for.
fn waited_failure(services: &mut Plain, trace: &Trace) -> Result<Option<u64>, NoMemory>
    requires playable { ArePlayable (plain_machines services.old) trace.now }
    requires sems { All (λ h. h ≡ []) (plain_shown services.old).sems }
    requires msgqs { All (λ h. h ≡ []) (plain_shown services.old).msgqs }
    requires signals { All (λ h. h ≡ []) (plain_shown services.old).signals }
    ensures found { IfOk result (λ row. Sought (WaitedStand (plain_machines services.old) trace.now)
        (IsUnlikeIn (plain_machines services.old) trace.now) (waited_lines trace.now) row) }
    ensures shown { IfOk result (λ row. row ≡ None → plain_shown services.new
        ≡ record (plain_shown services.old) { sems = trace.now.sems; msgqs = trace.now.msgqs; signals = trace.now.signals }) }
    ensures machines { plain_machines services.new ≡ plain_machines services.old }
{
    if let Some(row) = first_among(&mut services.sems, trace.sems.items(), &[])? {
        return Ok(Some(row));
    }
    let lines = line_count(trace.sems.items(), &[]);
    if let Some(row) = first_among(&mut services.msgqs, trace.msgqs.items(), &[])? {
        return Ok(Some(lines + row));
    }
    let lines = lines + line_count(trace.msgqs.items(), &[]);
    let looks = trace.looks.signals.items();
    match first_among(&mut services.signals, trace.signals.items(), looks)? {
        Some(row) => Ok(Some(lines + row)),
        None => Ok(None),
    }
}

/// The same of the bus.
fn bus_failure(services: &mut Plain, trace: &Trace) -> Result<Option<u64>, NoMemory>
    requires playable { ArePlayable (plain_machines services.old) trace.now }
    requires chans { All (λ h. h ≡ []) (plain_shown services.old).chans }
    requires observers { All (λ h. h ≡ []) (plain_shown services.old).observers }
    ensures found { IfOk result (λ row. Sought (BusStands (plain_machines services.old) trace.now)
        (IsUnlikeIn (plain_machines services.old) trace.now) (bus_lines trace.now) row) }
    ensures shown { IfOk result (λ row. row ≡ None → plain_shown services.new
        ≡ record (plain_shown services.old) { chans = trace.now.chans; observers = trace.now.observers }) }
    ensures machines { plain_machines services.new ≡ plain_machines services.old }
{
    if let Some(row) = first_among(&mut services.chans, trace.chans.items(), &[])? {
        return Ok(Some(row));
    }
    let lines = line_count(trace.chans.items(), &[]);
    match first_among(&mut services.observers, trace.observers.items(), &[])? {
        Some(row) => Ok(Some(lines + row)),
        None => Ok(None),
    }
}

/// How many lines the services have of which there is one.
fn single_count(trace: &Trace) -> u64
    requires { length (single_lines trace.now) < most_entries }
    ensures { result ≡ length (single_lines trace.now) }
{
    let work = trace.work.items().len() + trace.looks.items.items().len();
    let others = trace.clock.items().len() + trace.table.items().len();
    (work + others) as u64
}

/// How many lines there are of what players wait for.
fn waited_count(trace: &Trace) -> u64
    requires { length (waited_lines trace.now) < most_entries }
    ensures { result ≡ length (waited_lines trace.now) }
{
    let sems = line_count(trace.sems.items(), &[]);
    let msgqs = line_count(trace.msgqs.items(), &[]);
    sems + msgqs + line_count(trace.signals.items(), trace.looks.signals.items())
}

/// The first line, among those of all entries and looks, that is an entry which its service doesn't answer so.
///
/// The services are those of the scenario, at which nothing was done. Where there is no such line they are played to the
/// end of the trace.
pub fn history_failure(
    services: &mut Plain,
    scenario: &Scenario,
    trace: &Trace,
) -> Result<Option<u64>, NoMemory>
    requires form { IsInForm scenario.now trace.now }
    requires placed { IsPlaced scenario.now trace.now }
    requires machines { plain_machines services.old ≡ machines_of scenario.now }
    requires fresh { plain_shown services.old ≡ nothing_shown scenario.now.decls }
    ensures found { IfOk result (λ row. MatchOption row
        (AreLegal scenario.now trace.now × (plain_shown services.new ≡ trace_shown trace.now)
        × (plain_machines services.new ≡ machines_of scenario.now))
        (λ row. IsFirst (IsUnanswered scenario.now trace.now) row)) }
{
    let _valid = scenario.decls();
    if let Some(row) = single_failure(services, trace)? {
        return Ok(Some(row));
    }
    let lines = single_count(trace);
    if let Some(row) = waited_failure(services, trace)? {
        return Ok(Some(lines + row));
    }
    let lines = lines + waited_count(trace);
    match bus_failure(services, trace)? {
        Some(row) => Ok(Some(lines + row)),
        None => Ok(None),
    }
}
