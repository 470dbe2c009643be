ghost use Rattle.std.specs.Prelude.{◌≡◌, ◌+◌, nat_lt, option_map, position, IfOk};
ghost use Rattle.std.specs.Option.{option_map_or};
ghost use Rattle.zk_base.specs.Order.{put_by};
ghost use Rattle.zk_model_work.specs.Lists.{first};
ghost use Rattle.zk_model_work.specs.Questions.{waiting, running, running_queue, last_queue, line, run, is_empty_and_idle, is_cancelling, armed, live_arm, deadline_of, is_due, due, is_flushing, item_of, waits_as, runs_as, is_open_as, waits_for, flushes, passes_at};
ghost use Rattle.zk_model_work.specs.Answers.{is_worker, flushed, is_started, is_plugged, drained_of, is_unanswered};
ghost use Rattle.zk_model_work.specs.Machine.{has_come};

use crate::{Admission, Arm, Awaited, Closing, Item, Queue, Wait};
use std::alloc::Global;
use zk_base::NoMemory;

/// The number of the item's waiting admission.
pub fn waiting(admissions: &[Admission], item: u32) -> Option<usize>
    ensures { result ≡ waiting admissions.now item }
{
    admissions
        .iter()
        .position(|a| a.item == item && a.life.is_waiting())
}

/// The number of the item's running admission.
pub fn running(admissions: &[Admission], item: u32) -> Option<usize>
    ensures { result ≡ running admissions.now item }
{
    admissions
        .iter()
        .position(|a| a.item == item && a.life.is_running())
}

/// The queue that runs the item.
fn running_queue(admissions: &[Admission], item: u32) -> Option<u32>
    ensures { result ≡ running_queue admissions.now item }
{
    admissions
        .iter()
        .find(|a| a.item == item && a.life.is_running())
        .map(|a| a.queue)
}

/// The queue of the item's last admission.
fn last_queue(admissions: &[Admission], item: u32) -> Option<u32>
    ensures { result ≡ last_queue admissions.now item }
{
    admissions
        .iter()
        .rev()
        .find(|a| a.item == item)
        .map(|a| a.queue)
}

/// The place of the first admission that waits for the queue.
fn place_in_line(admissions: &[Admission], queue: u32) -> Option<usize>
    ensures { result ≡ position (waits_for queue) admissions.now }
{
    admissions
        .iter()
        .position(|a| a.queue == queue && a.life.is_waiting())
}

/// The number of the first admission in the queue's line.
pub fn first_in_line(admissions: &[Admission], queue: u32) -> Option<usize>
    ensures { result ≡ first (line admissions.now queue) }
{
    place_in_line(admissions, queue)
}

/// The number of the admission that the queue runs.
pub fn run(admissions: &[Admission], queue: u32) -> Option<usize>
    ensures { result ≡ run admissions.now queue }
{
    admissions
        .iter()
        .position(|a| a.queue == queue && a.life.is_running())
}

/// Whether no admission to the queue waits or runs.
pub fn is_empty_and_idle(admissions: &[Admission], queue: u32) -> bool
    ensures { result ≡ is_empty_and_idle admissions.now queue }
{
    admissions
        .iter()
        .all(|a| !(a.queue == queue && a.life.is_open()))
}

/// The number of the admission that a flush of the item waits for.
pub fn flushed(admissions: &[Admission], item: u32) -> Option<usize>
    ensures { result ≡ flushed (waiting admissions.now item) (running admissions.now item) }
{
    waiting(admissions, item).or(running(admissions, item))
}

/// Whether this player is the queue's worker.
pub fn is_worker(queues: &[Queue], number: u32, player: u32) -> bool
    ensures { result ≡ is_worker queues.now number player }
{
    match queues.get(number as usize) {
        None => false,
        Some(queue) => player == queue.worker,
    }
}

/// Whether this queue is started.
pub fn is_started(queues: &[Queue], number: u32) -> bool
    ensures { result ≡ is_started queues.now number }
{
    match queues.get(number as usize) {
        None => false,
        Some(queue) => queue.started,
    }
}

/// Whether this queue is plugged.
pub fn is_plugged(queues: &[Queue], number: u32) -> bool
    ensures { result ≡ is_plugged queues.now number }
{
    match queues.get(number as usize) {
        None => false,
        Some(queue) => queue.plugged,
    }
}

/// How many drainings of this queue have ended.
pub fn drained_of(queues: &[Queue], number: u32) -> u64
    ensures { result ≡ drained_of queues.now number }
{
    match queues.get(number as usize) {
        None => 0,
        Some(queue) => queue.drained,
    }
}

/// Whether what is awaited has come, where it is of this kind.
pub fn has_come(
    admissions: &[Admission],
    queues: &[Queue],
    closing: Closing,
    awaited: Awaited,
) -> bool
    ensures { result ≡ has_come admissions.now queues.now closing awaited }
{
    match (closing, awaited) {
        (Closing::Cancel, Awaited::Cancel(number)) => match admissions.get(number as usize) {
            None => false,
            Some(a) => a.life.is_ended(),
        },
        (Closing::Flush, Awaited::Flush(number)) => match admissions.get(number as usize) {
            None => false,
            Some(a) => !a.life.is_open(),
        },
        (Closing::Drain, Awaited::Drain(queue, count)) => count < drained_of(queues, queue),
        _ => false,
    }
}

/// Whether this is the player's wait of this place, and isn't answered yet.
pub fn is_unanswered(wait: Wait, place: u64, player: u32) -> bool
    ensures { result ≡ is_unanswered place player wait }
{
    wait.place == place && wait.player == player && !wait.answered
}

/// Whether the admission of this number is a running one of the item.
fn is_run_of(admissions: &[Admission], item: u32, number: u64) -> bool
    ensures { result ≡ passes_at (runs_as item) admissions.now number }
{
    match admissions.get(number as usize) {
        None => false,
        Some(a) => a.item == item && a.life.is_running(),
    }
}

/// Whether a run of the item is marked by a cancel.
fn is_cancelling(admissions: &[Admission], marks: &[u64], item: u32) -> bool
    ensures { result ≡ is_cancelling admissions.now marks.now item }
{
    marks.iter().any(|mark| is_run_of(admissions, item, *mark))
}

/// The place of the item's live arm.
pub fn armed(arms: &[Arm], item: u32) -> Option<usize>
    ensures { result ≡ armed arms.now item }
{
    arms.iter().position(|a| a.item == item && a.fate.is_live())
}

/// The item's live arm.
pub fn live_arm(arms: &[Arm], item: u32) -> Option<Arm>
    ensures { result ≡ live_arm arms.now item }
{
    match armed(arms, item) {
        None => None,
        Some(place) => Some(arms[place]),
    }
}

/// Whether the arm is to expire by this time, in ticks.
pub fn is_due(arm: Arm, time: u64) -> bool
    ensures { result ≡ is_due time arm }
{
    arm.fate.is_live() && arm.deadline <= time
}

/// The deadline of the item's live arm.
pub fn deadline_of(arms: &[Arm], item: u32) -> Option<u64>
    ensures { result ≡ deadline_of arms.now item }
{
    live_arm(arms, item).map(|arm| arm.deadline)
}

/// The place of the first arm whose deadline is above this one.
fn later(arms: &[Arm], deadline: u64) -> Option<usize>
    ensures { result ≡ position (λ a. nat_lt deadline a.deadline) arms.now }
{
    arms.iter().position(|a| deadline < a.deadline)
}

/// One arm more, behind all whose deadline isn't above its own.
fn put_in_order(due: &mut Vec<Arm>, arm: Arm) -> Result<(), NoMemory>
    ensures { IfOk result (λ _. due.new.items ≡ put_by (λ a. a.deadline) arm due.old.items) }
{
    let place = later(due, arm.deadline).unwrap_or(due.len());
    due.insert(place, arm)?;
    Ok(())
}

/// The arms that are to expire by this time, in the order in which they do.
pub fn due(alloc: Global, arms: &[Arm], time: u64) -> Result<Vec<Arm>, NoMemory>
    ensures { IfOk result (λ found. found.items ≡ due time arms.now) }
{
    let mut found = Vec::new(alloc);
    for index in 0..arms.len() {
        if is_due(arms[index], time) {
            put_in_order(&mut found, arms[index])?;
        }
    }
    Ok(found)
}

/// Whether the admission of this number is one of the item that waits or runs.
fn is_open_of(admissions: &[Admission], item: u32, number: u64) -> bool
    ensures { result ≡ passes_at (is_open_as item) admissions.now number }
{
    match admissions.get(number as usize) {
        None => false,
        Some(a) => a.item == item && a.life.is_open(),
    }
}

/// Whether this is a flush of such an admission.
fn flushes(admissions: &[Admission], item: u32, awaited: Awaited) -> bool
    ensures { result ≡ flushes admissions.now item awaited }
{
    match awaited {
        Awaited::Flush(number) => is_open_of(admissions, item, number),
        _ => false,
    }
}

/// Whether a flush names an admission of the item that waits or runs.
pub fn is_flushing(admissions: &[Admission], waits: &[Wait], item: u32) -> bool
    ensures { result ≡ is_flushing admissions.now waits.now item }
{
    waits
        .iter()
        .any(|wait| flushes(admissions, item, wait.awaited))
}

/// What the answers ask of an item.
pub fn item_of(admissions: &[Admission], marks: &[u64], item: u32) -> Item
    ensures { result ≡ item_of admissions.now marks.now item }
{
    Item {
        cancelling: is_cancelling(admissions, marks, item),
        queued: waiting(admissions, item).is_some(),
        running: running(admissions, item).is_some(),
        home: running_queue(admissions, item),
        last: last_queue(admissions, item),
        next: admissions.len() as u64,
    }
}
