ghost use Rattle.std.specs.Prelude.{◌≡◌, ◌+◌, ◌-◌, ◌^◌, ◌<◌, ◌≤◌, ◌++◌, All, true, false, not, option_map, set, is_some, length, map, drop, slice_get, slice_index_or, if◌then◌else◌, IsOk, IfOk, OnOk, OnErr};
ghost use Rattle.std.specs.List.{filter, find, list_any};
ghost use Rattle.zk_base.specs.Limits.{most_entries};
ghost use Rattle.zk_model_trigger.specs.Arms.{found_cause, is_reached};
ghost use Rattle.zk_model_trigger.specs.Machine.{new_triggers, IsTimely};
ghost use Rattle.zk_trigger.specs.Live.{is_arm_of, has_item, waits_with, fires_with, told_live};
ghost use Rattle.zk_trigger.specs.Steps.{set_at, cause_at, asked_live, IsAnswered, HasFired};
ghost use Rattle.zk_trigger.specs.Stands.{StandsFor};

use crate::live::{LiveArm, Sought, word_of};
use crate::live_arms::LiveArms;
use std::alloc::Global;
use zk_base::{Engine, Few, NoMemory, Who};
use zk_model_trigger::{Cause, TriggerOp, TriggerReply, TriggerState, deadline_after, is_reached};

/// So many events there are.
const EVENTS: usize = 64;

/// What triggers compute and keep: an arm is forgotten once it was taken or cancelled.
#[derive(Drop)]
pub struct TriggerEngine {
    now: u64,
    entries: u64,
    // How many arms were made.
    made: u64,
    // For each event whether it is ready.
    ready: [bool; EVENTS],
    live: LiveArms,
}

/// The first of these events that is ready.
fn first_ready(ready: &[bool], events: &[u32]) -> Option<u32>
    requires { All (λ e. e < length ready.now) events.now }
    ensures { result ≡ find (set_at ready.now) events.now }
{
    for event in events {
        if ready[*event as usize] {
            return Some(*event);
        }
    }
    None
}

/// Why an arm with these events and this deadline would fire now.
fn first_cause(ready: &[bool], now: u64, events: &[u32], deadline: Option<u64>) -> Option<Cause>
    requires { All (λ e. e < length ready.now) events.now }
    ensures { result ≡ cause_at ready.now now events.now deadline }
{
    match first_ready(ready, events) {
        Some(event) => Some(Cause::Event(event)),
        None => {
            if is_reached(now, deadline) {
                Some(Cause::Time)
            } else {
                None
            }
        }
    }
}

/// The word with the bit of one event.
fn mask_of(event: u32) -> u64
    requires { event < 64 }
    ensures { result ≡ 2 ^ event }
{
    1 << event
}

impl TriggerEngine {
    /// The engine before the first entry. It takes no memory.
    pub fn new(alloc: Global) -> TriggerEngine
        ensures { StandsFor result new_triggers }
    {
        TriggerEngine {
            now: 0,
            entries: 0,
            made: 0,
            ready: [false; EVENTS],
            live: LiveArms::new(alloc),
        }
    }

    /// Arms the item, unless it has a live arm.
    fn arm(
        &mut self,
        item: u32,
        queue: u32,
        events: &Few,
        ticks: Option<u32>,
    ) -> Result<TriggerReply, NoMemory>
        requires short { self.old.entries < most_entries }
        requires timely { IsTimely self.old.now self.old.entries self.old.made }
        requires range { All (λ e. e < 64) events.now }
        ensures answered { IfOk result (IsAnswered item queue events.now ticks self.old self.new) }
        ensures err { OnErr result (self.new ≡ record self.old { live = self.new.live }) }
        ensures err_live { OnErr result
            ((self.new.live.waiting ≡ self.old.live.waiting) × (self.new.live.fires ≡ self.old.live.fires)) }
        ensures roomy { 1 ≤ self.old.live.room → IsOk result }
        ensures room { self.old.live.room ≤ self.new.live.room + 1 }
        ensures kept { OnErr result (self.old.live.room ≤ self.new.live.room) }
    {
        if self.live.has_item(item) {
            self.entries += 1;
            return Ok(TriggerReply::Busy);
        }
        let events = events.numbers();
        let deadline = deadline_after(self.now, ticks);
        let arm = LiveArm {
            number: self.made,
            item,
            queue,
            events: word_of(events),
            deadline,
        };
        let cause = first_cause(&self.ready, self.now, events, deadline);
        self.live.add(arm, cause)?;
        self.made += 1;
        self.entries += 1;
        Ok(TriggerReply::Armed(arm.number))
    }

    /// The event is ready, and those that wait for it fire.
    fn post(&mut self, event: u32)
        requires short { self.old.entries < most_entries }
        requires range { event < 64 }
        ensures next { self.new ≡ record self.old {
          entries = self.old.entries + 1;
          ready = set self.old.ready event true;
          live = self.new.live;
        } }
        ensures fired { HasFired (Sought.Events (2 ^ event)) (Cause.Event event) self.old.live self.new.live }
    {
        self.ready[event as usize] = true;
        self.live
            .fire(Sought::Events(mask_of(event)), Cause::Event(event));
        self.entries += 1;
    }

    /// The event isn't ready.
    fn unpost(&mut self, event: u32)
        requires short { self.old.entries < most_entries }
        requires range { event < 64 }
        ensures { self.new ≡ record self.old {
          entries = self.old.entries + 1;
          ready = set self.old.ready event false;
        } }
    {
        self.ready[event as usize] = false;
        self.entries += 1;
    }

    /// So many ticks pass, and those fire whose time is out.
    fn tick(&mut self, ticks: u32) -> TriggerReply
        requires short { self.old.entries < most_entries }
        requires timely { IsTimely self.old.now self.old.entries self.old.made }
        ensures reply { result ≡ TriggerReply.Now (self.old.now + ticks) }
        ensures small { ticks < 2 ^ 32 }
        ensures next { self.new ≡ record self.old {
          now = self.old.now + ticks;
          entries = self.old.entries + 1;
          live = self.new.live;
        } }
        ensures fired { HasFired (Sought.Until (self.old.now + ticks)) Cause.Time self.old.live self.new.live }
    {
        self.now += u64::from(ticks);
        self.live.fire(Sought::Until(self.now), Cause::Time);
        self.entries += 1;
        TriggerReply::Now(self.now)
    }

    /// Gives up the item's arm, if it waits.
    fn cancel(&mut self, item: u32) -> TriggerReply
        requires short { self.old.entries < most_entries }
        ensures reply { result ≡
            (if list_any (is_arm_of item) self.old.live.waiting then TriggerReply.Done else TriggerReply.Inval) }
        ensures next { self.new ≡ record self.old { entries = self.old.entries + 1; live = self.new.live } }
        ensures waiting { self.new.live.waiting ≡ filter (λ a. not (is_arm_of item a)) self.old.live.waiting }
        ensures fires { self.new.live.fires ≡ self.old.live.fires }
        ensures room { self.old.live.room ≤ self.new.live.room }
    {
        let waits = self.live.cancel(item);
        self.entries += 1;
        if waits {
            TriggerReply::Done
        } else {
            TriggerReply::Inval
        }
    }

    /// Takes the first fire.
    fn next(&mut self) -> Option<TriggerReply>
        requires short { self.old.entries < most_entries }
        ensures reply { result ≡ option_map told_live (slice_get self.old.live.fires 0) }
        ensures next { self.new ≡ record self.old {
          entries = self.old.entries + (if is_some result then 1 else 0);
          live = self.new.live;
        } }
        ensures waiting { self.new.live.waiting ≡ self.old.live.waiting }
        ensures fires { self.new.live.fires ≡ drop 1 self.old.live.fires }
        ensures room { self.old.live.room ≤ self.new.live.room }
    {
        let fire = self.live.take()?;
        self.entries += 1;
        Some(fire.told())
    }
}

impl Engine for TriggerEngine {
    type Op = TriggerOp;

    type Reply = TriggerReply;

    type State = TriggerState;

    ghost use Rattle.std.specs.Prelude.{false, []};
    ghost use Rattle.zk_model_trigger.specs.Machine.{trigger_machine};
    ghost use Rattle.zk_trigger.specs.Stands.{StandsFor};

    ghost stands_for = { StandsFor };

    ghost room = { λ e. e.live.room };

    ghost machine = { trigger_machine };

    ghost entries = { λ s. s.entries };

    ghost owed = { λ s. 0 };

    ghost closes = { λ s who op. false };

    ghost grows = { λ op. false };

    // Nothing is published for looks.
    ghost word = { λ s index. 0 };

    ghost WORDS = { 0 };

    const WORDS: u32 = 0;

    ghost touched = { λ e. [] };

    fn step(
        &mut self,
        _who: Who,
        op: &TriggerOp,
    ) -> Result<Option<(TriggerReply, TriggerReply)>, NoMemory> {
        match op {
            TriggerOp::Arm(item, queue, events, ticks) => {
                let reply = self.arm(*item, *queue, events, *ticks)?;
                Ok(Some((reply, reply)))
            }
            TriggerOp::Post(event) => {
                self.post(*event);
                Ok(Some((TriggerReply::Done, TriggerReply::Done)))
            }
            TriggerOp::Unpost(event) => {
                self.unpost(*event);
                Ok(Some((TriggerReply::Done, TriggerReply::Done)))
            }
            TriggerOp::Tick(ticks) => {
                let reply = self.tick(*ticks);
                Ok(Some((reply, reply)))
            }
            TriggerOp::Cancel(item) => {
                let reply = self.cancel(*item);
                Ok(Some((reply, reply)))
            }
            TriggerOp::Next => match self.next() {
                None => Ok(None),
                Some(reply) => Ok(Some((reply, reply))),
            },
        }
    }

    fn is_closing(&self, _who: Who, _op: &TriggerOp) -> bool {
        false
    }

    fn is_futile(&self, _who: Who, op: &TriggerOp) -> bool {
        match op {
            TriggerOp::Next => self.live.is_idle(),
            _ => false,
        }
    }

    fn owed(&self) -> u64 {
        0
    }

    fn word(&self, _index: u32) -> u32 {
        0
    }

    fn touched(&self) -> &[u32] {
        &[]
    }

    fn reserve(&mut self) -> Result<(), NoMemory> {
        self.live.reserve(3)
    }

    fn room(&self) -> u64 {
        self.live.room()
    }

    fn counts_entries() {}
}
