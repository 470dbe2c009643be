ghost use Rattle.std.specs.Prelude.{◌≡◌, ◌+◌, ◌<◌, ◌≤◌, [], ◌∷◌, ◌++◌, ◌==◌, not, nat_lt, position, length, map, drop, slice_get, vec_len, vec_capacity, IsOk, IfOk, OnOk, OnErr};
ghost use Rattle.std.specs.List.{filter, list_any};
ghost use Rattle.std.specs.VecDeque.{deque_len, deque_capacity};
ghost use Rattle.zk_trigger.specs.Live.{meets_sought, deadline_time, put_sought, all_sought, fire_live, is_arm_of, is_fire_of, has_item, waits_with, fires_with};

use crate::live::{LiveArm, LiveFire, Sought};
use std::alloc::Global;
use std::collections::VecDeque;
use std::marker::Model;
use zk_base::{NoMemory, push_within};
use zk_model_trigger::Cause;

/// The arms that wait and the fires that aren't taken. Each arm has the room of its fire.
#[derive(Drop)]
pub struct LiveArms {
    // By number.
    waiting: Vec<LiveArm>,
    // Where those are put in order that fire at once: empty between two calls.
    found: Vec<LiveArm>,
    // In the order of firing.
    fires: VecDeque<LiveFire>,
}

impl Model for LiveArms {
    ghost use Rattle.std.specs.Prelude.{◌≡◌, [], vec_len, vec_capacity};
    ghost use Rattle.std.specs.VecDeque.{deque_len, deque_capacity};
    ghost use Rattle.zk_trigger.specs.Live.{LiveView, HasRoom, room_for};

    ghost Value = { LiveView };

    ghost view = { λ a. record {
      waiting = a.waiting.items;
      fires = a.fires.items;
      room = room_for (vec_len a.waiting) (vec_capacity a.waiting) (vec_capacity a.found) (deque_len a.fires)
          (deque_capacity a.fires);
    } };

    ghost invariant = { λ a. (a.found.items ≡ [])
        × HasRoom (vec_len a.waiting) (vec_capacity a.found) (deque_len a.fires) (deque_capacity a.fires) };
}

/// The place of the first arm whose deadline is above this one.
fn later(arms: &[LiveArm], deadline: u64) -> Option<usize>
    ensures { result ≡ position (λ a. nat_lt deadline (deadline_time a)) arms.now }
{
    arms.iter().position(|a| deadline < a.deadline_time())
}

/// One more that was sought, where it fires in order. There is room.
fn put_found(found: &mut Vec<LiveArm>, sought: Sought, arm: LiveArm)
    requires { vec_len found.old < vec_capacity found.old }
    ensures items { found.new.items ≡ put_sought sought arm found.old.items }
    ensures len { vec_len found.new ≡ vec_len found.old + 1 }
    ensures capacity { vec_capacity found.old ≤ vec_capacity found.new }
{
    let place = match sought {
        Sought::Events(_) => found.len(),
        Sought::Until(_) => later(found, arm.deadline_time()).unwrap_or(found.len()),
    };
    match found.insert(place, arm) {
        Ok(()) => {}
        Err(_) => unreachable!(),
    }
}

/// Finds those that are sought, in the order in which they fire. There is room.
fn find_all(waiting: &[LiveArm], sought: Sought, found: &mut Vec<LiveArm>)
    requires none { found.old.items ≡ [] }
    requires room { length waiting.now ≤ vec_capacity found.old }
    ensures items { found.new.items ≡ all_sought sought waiting.now }
    ensures capacity { vec_capacity found.old ≤ vec_capacity found.new }
{
    for index in 0..waiting.len() {
        if waiting[index].meets(sought) {
            put_found(found, sought, waiting[index]);
        }
    }
}

/// These have fired with this cause. There is room.
fn add_fires(fires: &mut VecDeque<LiveFire>, arms: &[LiveArm], cause: Cause)
    requires { deque_len fires.old + length arms.now ≤ deque_capacity fires.old }
    ensures items { fires.new.items ≡ fires.old.items ++ map (fire_live cause) arms.now }
    ensures len { deque_len fires.new ≡ deque_len fires.old + length arms.now }
    ensures capacity { deque_capacity fires.new ≡ deque_capacity fires.old }
{
    for arm in arms {
        fires.push_back_reserved(LiveFire { arm: *arm, cause });
    }
}

/// Those that are sought wait no longer.
fn keep_others(waiting: &mut Vec<LiveArm>, sought: Sought)
    ensures items { waiting.new.items ≡ filter (λ a. not (meets_sought sought a)) waiting.old.items }
    ensures len { vec_len waiting.new ≤ vec_len waiting.old }
    ensures capacity { vec_capacity waiting.new ≡ vec_capacity waiting.old }
{
    waiting.retain(|arm| !arm.meets(sought));
}

/// The item's arm waits no longer.
fn keep_other_items(waiting: &mut Vec<LiveArm>, item: u32)
    ensures items { waiting.new.items ≡ filter (λ a. not (is_arm_of item a)) waiting.old.items }
    ensures len { vec_len waiting.new ≤ vec_len waiting.old }
    ensures capacity { vec_capacity waiting.new ≡ vec_capacity waiting.old }
{
    waiting.retain(|arm| arm.item != item);
}

/// Whether an arm of the item waits.
fn is_waiting(waiting: &[LiveArm], item: u32) -> bool
    ensures { result ≡ list_any (is_arm_of item) waiting.now }
{
    waiting.iter().any(|arm| arm.item == item)
}

/// Whether a fire of the item isn't taken.
fn is_fired(fires: &VecDeque<LiveFire>, item: u32) -> bool
    ensures { result ≡ list_any (is_fire_of item) fires.now.items }
{
    for index in 0..fires.len() {
        if fires[index].arm.item == item {
            return true;
        }
    }
    false
}

impl LiveArms {
    /// Nothing is armed. It takes no memory.
    pub fn new(alloc: Global) -> LiveArms
        ensures waiting { result.waiting ≡ [] }
        ensures fires { result.fires ≡ [] }
    {
        LiveArms {
            waiting: Vec::new(alloc),
            found: Vec::new(alloc),
            fires: VecDeque::new(alloc),
        }
    }

    /// Whether the item has an arm that waits, or a fire that isn't taken.
    pub fn has_item(&self, item: u32) -> bool
        ensures { result ≡ has_item self.now.waiting self.now.fires item }
    {
        is_waiting(&self.waiting, item) || is_fired(&self.fires, item)
    }

    /// Makes room for so many arms more.
    pub fn reserve(&mut self, more: usize) -> Result<(), NoMemory>
        requires { more ≤ 3 }
        ensures room { IfOk result (λ _. more ≤ self.new.room) }
        ensures more { self.old.room ≤ self.new.room }
        ensures waiting { self.new.waiting ≡ self.old.waiting }
        ensures fires { self.new.fires ≡ self.old.fires }
        ensures roomy { more ≤ self.old.room → IsOk result }
    {
        self.waiting.reserve(more)?;
        self.found.reserve(self.waiting.len() + more)?;
        self.fires.reserve(self.waiting.len() + more)?;
        Ok(())
    }

    /// How many arms fit without memory.
    pub fn room(&self) -> u64
        ensures { result ≡ self.now.room }
    {
        let waiting = self.waiting.len();
        let found = self.found.capacity() - waiting;
        let fires = self.fires.capacity() - (self.fires.len() + waiting);
        (self.waiting.capacity() - waiting).min(found.min(fires)) as u64
    }

    /// One arm more, which fires at once where there is a cause.
    pub fn add(&mut self, arm: LiveArm, cause: Option<Cause>) -> Result<(), NoMemory>
        ensures waiting { OnOk result (self.new.waiting ≡ self.old.waiting ++ waits_with arm cause) }
        ensures fires { OnOk result (self.new.fires ≡ self.old.fires ++ fires_with arm cause) }
        ensures err_waiting { OnErr result (self.new.waiting ≡ self.old.waiting) }
        ensures err_fires { OnErr result (self.new.fires ≡ self.old.fires) }
        ensures roomy { 1 ≤ self.old.room → IsOk result }
        ensures room { self.old.room ≤ self.new.room + 1 }
        ensures kept { OnErr result (self.old.room ≤ self.new.room) }
    {
        self.reserve(1)?;
        match cause {
            None => push_within(&mut self.waiting, arm),
            Some(cause) => self.fires.push_back_reserved(LiveFire { arm, cause }),
        }
        Ok(())
    }

    /// Those that are sought fire with this cause. It takes no memory.
    pub fn fire(&mut self, sought: Sought, cause: Cause)
        ensures waiting { self.new.waiting ≡ filter (λ a. not (meets_sought sought a)) self.old.waiting }
        ensures fires { self.new.fires ≡ self.old.fires ++ map (fire_live cause) (all_sought sought self.old.waiting) }
        ensures room { self.old.room ≤ self.new.room }
    {
        find_all(&self.waiting, sought, &mut self.found);
        if self.found.is_empty() {
            return;
        }
        add_fires(&mut self.fires, &self.found, cause);
        keep_others(&mut self.waiting, sought);
        self.found.clear();
    }

    /// Gives up the item's arm, if it waits. Whether it did.
    pub fn cancel(&mut self, item: u32) -> bool
        ensures result { result ≡ list_any (is_arm_of item) self.old.waiting }
        ensures waiting { self.new.waiting ≡ filter (λ a. not (is_arm_of item a)) self.old.waiting }
        ensures fires { self.new.fires ≡ self.old.fires }
        ensures room { self.old.room ≤ self.new.room }
    {
        let waits = is_waiting(&self.waiting, item);
        keep_other_items(&mut self.waiting, item);
        waits
    }

    /// Whether each fire is taken.
    pub fn is_idle(&self) -> bool
        ensures { result ≡ (length self.now.fires == 0) }
    {
        self.fires.is_empty()
    }

    /// Takes the first fire.
    pub fn take(&mut self) -> Option<LiveFire>
        ensures first { result ≡ slice_get self.old.fires 0 }
        ensures fires { self.new.fires ≡ drop 1 self.old.fires }
        ensures waiting { self.new.waiting ≡ self.old.waiting }
        ensures room { self.old.room ≤ self.new.room }
    {
        self.fires.pop_front()
    }
}
