ghost use Rattle.std.specs.Prelude.{◌≡◌, ◌+◌, ◌-◌, ◌^◌, ◌<◌, ◌++◌, length, map, All, option_to_list};
ghost use Rattle.zk_model_work.specs.Questions.{running, runs_on, waits_as, arms_item, is_empty_and_idle};
ghost use Rattle.zk_model_work.specs.Machine.{set_life, begin, end_run, drop_waiting, disarm, expire, changed_queue, change, drain, stop, answer_where, answer_one, settle_one, settle, end_one, drop_one, disarm_one, expire_one};

use crate::{
    Admission, Arm, Change, Closing, Fate, Life, Queue, Wait, closes, first_in_line, is_due,
    is_empty_and_idle, is_plugged,
};
use zk_base::Who;

/// The admission, ended if the queue runs it.
fn end_one(admission: Admission, queue: u32) -> Admission
    ensures { result ≡ end_one queue admission }
{
    if admission.queue == queue && admission.life.is_running() {
        Admission {
            life: Life::Ended,
            ..admission
        }
    } else {
        admission
    }
}

/// What the queue ran has ended.
pub fn end_run(admissions: &mut [Admission], queue: u32)
    ensures { admissions.new ≡ end_run admissions.old queue }
{
    for index in 0..admissions.len() {
        admissions[index] = end_one(admissions[index], queue);
    }
}

/// The admission, dropped if it is a waiting one of the item.
fn drop_one(admission: Admission, item: u32) -> Admission
    ensures { result ≡ drop_one item admission }
{
    if admission.item == item && admission.life.is_waiting() {
        Admission {
            life: Life::Dropped,
            ..admission
        }
    } else {
        admission
    }
}

/// The item's waiting admission is dropped.
pub fn drop_waiting(admissions: &mut [Admission], item: u32)
    ensures { admissions.new ≡ drop_waiting admissions.old item }
{
    for index in 0..admissions.len() {
        admissions[index] = drop_one(admissions[index], item);
    }
}

/// The arm, disarmed if it is a live one of the item.
fn disarm_one(arm: Arm, item: u32) -> Arm
    ensures { result ≡ disarm_one item arm }
{
    if arm.item == item && arm.fate.is_live() {
        Arm {
            fate: Fate::Disarmed,
            ..arm
        }
    } else {
        arm
    }
}

/// The item's live arm is disarmed.
pub fn disarm(arms: &mut [Arm], item: u32)
    ensures { arms.new ≡ disarm arms.old item }
{
    for index in 0..arms.len() {
        arms[index] = disarm_one(arms[index], item);
    }
}

/// The arm, expired if it is due.
fn expire_one(arm: Arm, time: u64) -> Arm
    ensures { result ≡ expire_one time arm }
{
    if is_due(arm, time) {
        Arm {
            fate: Fate::Expired,
            ..arm
        }
    } else {
        arm
    }
}

/// The arms that are due have expired.
pub fn expire(arms: &mut [Arm], time: u64)
    ensures { arms.new ≡ expire arms.old time }
{
    for index in 0..arms.len() {
        arms[index] = expire_one(arms[index], time);
    }
}

/// The admission of this number, if there is one, has another life.
pub fn set_life(admissions: &mut [Admission], number: usize, life: Life)
    ensures { admissions.new ≡ set_life admissions.old number life }
{
    if number < admissions.len() {
        admissions[number].life = life;
    }
}

/// The first in the queue's line runs.
pub fn begin(admissions: &mut [Admission], queue: u32)
    ensures { admissions.new ≡ begin admissions.old queue }
{
    match first_in_line(admissions, queue) {
        None => {}
        Some(number) => set_life(admissions, number, Life::Running),
    }
}

/// The queue after a change of it.
fn changed_queue(queue: Queue, how: Change) -> Queue
    ensures { result ≡ changed_queue how queue }
{
    let mut queue = queue;
    match how {
        Change::Start => queue.started = true,
        Change::Plug => queue.plugged = true,
        Change::Unplug => queue.plugged = false,
        Change::Stop => queue.started = false,
        Change::Drain => queue.draining = true,
    }
    queue
}

/// The queue of this number, if there is one, is changed so.
pub fn change(queues: &mut [Queue], number: u32, how: Change)
    ensures { queues.new ≡ change how queues.old number }
{
    let number = number as usize;
    if number < queues.len() {
        queues[number] = changed_queue(queues[number], how);
    }
}

/// The queue of this number, after the start of a drain.
pub fn drain(queues: &mut [Queue], number: u32, idle: bool, plug: bool)
    ensures { queues.new ≡ drain idle plug queues.old number }
{
    if plug {
        change(queues, number, Change::Plug);
    }
    if !idle {
        change(queues, number, Change::Drain);
    }
}

/// The queue of this number, after a stop: not started any more where it is plugged, and idle.
pub fn stop(queues: &mut [Queue], number: u32, idle: bool)
    ensures { queues.new ≡ stop idle queues.old number }
{
    if is_plugged(queues, number) && idle {
        change(queues, number, Change::Stop);
    }
}

/// The queue, drained once more if it drains, and is empty and idle.
fn settle_one(admissions: &[Admission], number: u32, queue: Queue) -> Queue
    requires { queue.drained < 2 ^ 64 - 1 }
    ensures { result ≡ settle_one (is_empty_and_idle admissions.now) number queue }
{
    if queue.draining && is_empty_and_idle(admissions, number) {
        Queue {
            draining: false,
            drained: queue.drained + 1,
            ..queue
        }
    } else {
        queue
    }
}

/// The draining of each queue ends, where it is empty and idle.
pub fn settle(admissions: &[Admission], queues: &mut [Queue])
    requires counted { All (λ q. q.drained < 2 ^ 64 - 1) queues.old }
    requires few { length queues.old < 2 ^ 32 }
    ensures { queues.new ≡ settle admissions.now queues.old }
{
    for number in 0..queues.len() {
        queues[number] = settle_one(admissions, number as u32, queues[number]);
    }
}

/// The wait, answered where this is so.
fn answer_where(so: bool, wait: Wait) -> Wait
    ensures { result ≡ answer_where so wait }
{
    if so {
        Wait {
            answered: true,
            ..wait
        }
    } else {
        wait
    }
}

/// The waits that a closing operation ends are answered.
pub fn answer(
    admissions: &[Admission],
    queues: &[Queue],
    waits: &mut [Wait],
    closing: Closing,
    who: Who,
    place: u64,
)
    ensures { waits.new ≡ map (answer_one admissions.now queues.now closing who place) waits.old }
{
    for index in 0..waits.len() {
        let so = closes(admissions, queues, closing, who, place, waits[index]);
        waits[index] = answer_where(so, waits[index]);
    }
}
