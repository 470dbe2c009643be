ghost use Rattle.std.specs.Prelude.{◌≡◌, ◌<◌, ◌≤◌, [], ◌++◌, length, take, All, Contains, MatchOption, OnOk, IfOk};
ghost use Rattle.zk_base.specs.Legal.{IsLegal};
ghost use Rattle.zk_base.specs.Limits.{most_entries};
ghost use Rattle.zk_base.specs.Order.{Ascends, by_key};
ghost use Rattle.zk_model_work.specs.Machine.{work_machine};
ghost use Rattle.zk_work.specs.Seen.{work_start, work_history};
ghost use Rattle.zk_worker.specs.Machines.{work_start_of};
ghost use Rattle.zk_failures.specs.ItemLooks.{FirstMissed, IsReached, by_front, finds, finds_now, missed_places};
ghost use Rattle.zk_failures.specs.LookOrder.{lower_of};

use std::alloc::Global;
use zk_base::{Entry, NoMemory, Service};
use zk_model_work::{WorkOp, WorkReply};
use zk_scenario::Scenario;
use zk_services::first_services;
use zk_trace::{ItemLook, Trace};
use zk_work::Work;

/// A look at an item, with its place among all of them.
#[derive(Clone, Copy)]
pub struct Fronted {
    pub place: usize,
    pub look: ItemLook,
}

/// Looks by the number of entries that there were.
fn by_front(alloc: Global, looks: &[ItemLook]) -> Result<Vec<Fronted>, NoMemory>
    ensures { IfOk result (λ fronts. fronts.items ≡ by_front looks.now) }
{
    let mut fronts = Vec::with_capacity(alloc, looks.len())?;
    for (place, look) in looks.iter().enumerate() {
        fronts.push(Fronted { place, look: *look })?;
    }
    sort_by_front(&mut fronts)?;
    Ok(fronts)
}

fn sort_by_front(fronts: &mut Vec<Fronted>) -> Result<(), NoMemory>
    ensures { OnOk result (fronts.new.items ≡ by_key (λ one. one.look.at) fronts.old.items) }
{
    fronts.sort_by_key(|one| one.look.at)?;
    Ok(())
}

/// Plays entries that are known to stand.
fn play(work: &mut Work, entries: &[Entry<WorkOp, WorkReply>]) -> Result<(), NoMemory>
    requires legal { IsLegal work_machine (work_start work.old) (work_history work.old ++ entries.now) }
    requires short { length (work_history work.old ++ entries.now) < most_entries }
    ensures start { work_start work.new ≡ work_start work.old }
    ensures history { OnOk result (work_history work.new ≡ work_history work.old ++ entries.now) }
{
    for entry in entries {
        work.act(entry.who, entry.step, entry.op)?;
    }
    Ok(())
}

/// Whether the work service has these flags now at the item that was looked at.
fn finds_now(work: &Work, items: &[Option<u32>], look: &ItemLook) -> bool
    ensures { result ≡ finds_now (work_start work.now) items.now (work_history work.now) look.now }
{
    match items.get(look.item as usize) {
        Some(Some(item)) => work.word(*item) == u32::from(look.flags),
        _ => false,
    }
}

/// Whether a look found what was there: the work service goes on to its front.
fn finds(
    work: &mut Work,
    items: &[Option<u32>],
    entries: &[Entry<WorkOp, WorkReply>],
    look: &ItemLook,
) -> Result<bool, NoMemory>
    requires legal { IsLegal work_machine (work_start work.old) entries.now }
    requires short { length entries.now < most_entries }
    requires reached { IsReached (work_history work.old) entries.now }
    requires ahead { length (work_history work.old) ≤ look.now.at }
    ensures start { work_start work.new ≡ work_start work.old }
    ensures reached { OnOk result (work_history work.new ≡ take look.now.at entries.now) }
    ensures found { IfOk result (λ found. found ≡ finds (work_start work.old) items.now entries.now look.now) }
{
    let front = work.history().len();
    let end = entries.len() as u64;
    let at = look.at.min(end) as usize;
    play(work, &entries[front..at])?;
    Ok(look.at <= end && finds_now(work, items, look))
}

/// The places of the looks that didn't find what was there.
fn missed_places(
    alloc: Global,
    work: &mut Work,
    items: &[Option<u32>],
    entries: &[Entry<WorkOp, WorkReply>],
    fronts: &[Fronted],
) -> Result<Vec<usize>, NoMemory>
    requires none { work_history work.old ≡ [] }
    requires legal { IsLegal work_machine (work_start work.old) entries.now }
    requires short { length entries.now < most_entries }
    requires sorted { Ascends (λ one. one.look.at) fronts.now }
    ensures { IfOk result (λ places.
        places.items ≡ missed_places (work_start work.old) items.now entries.now fronts.now) }
{
    let mut missed = Vec::new(alloc);
    for one in fronts {
        if !finds(work, items, entries, &one.look)? {
            missed.push(one.place)?;
        }
    }
    Ok(missed)
}

/// The lowest of some places.
fn lowest(places: &[usize]) -> Option<usize>
    ensures { MatchOption result (places.now ≡ []) (λ lowest.
        Contains places.now lowest × All (λ place. lowest ≤ place) places.now) }
{
    let mut lowest = None;
    for place in places {
        lowest = Some(lower_of(*place, lowest));
    }
    lowest
}

/// The lower of two places, where there are both.
fn lower_of(place: usize, other: Option<usize>) -> usize
    ensures { Some result ≡ lower_of (Some place) other }
{
    match other {
        None => place,
        Some(other) => place.min(other),
    }
}

/// The place of the first look at an item that didn't find what was there.
pub fn first_missed(
    alloc: Global,
    scenario: &Scenario,
    trace: &Trace,
) -> Result<Option<usize>, NoMemory>
    requires legal { IsLegal work_machine (work_start_of scenario.now) trace.now.work }
    requires short { length trace.now.work < most_entries }
    ensures { IfOk result (λ first. FirstMissed scenario.now trace.now first) }
{
    let fronts = by_front(alloc, trace.looks.items.items())?;
    let mut services = first_services(alloc, scenario)?;
    let missed = missed_places(
        alloc,
        &mut services.work,
        &services.items,
        trace.work.items(),
        &fronts,
    )?;
    Ok(lowest(&missed))
}
