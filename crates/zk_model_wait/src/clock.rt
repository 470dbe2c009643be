ghost use Rattle.std.specs.Prelude.{◌≡◌, false, ◌+◌, ◌-◌, ◌^◌, ◌<◌, ◌≤◌, ◌++◌, ◌∷◌, [], position, length, vec_len, vec_capacity, if◌then◌else◌, IsOk, IfOk, OnOk, OnErr};
ghost use Rattle.zk_base.specs.History.{AddsNone};
ghost use Rattle.zk_base.specs.Lists.{without_first};
ghost use Rattle.zk_base.specs.Limits.{most_entries};
ghost use Rattle.zk_model_wait.specs.Clock.{new_clock, is_alarm, has_alarm, is_due, clock_reply, after_reply, sets_alarm};

use std::alloc::Global;
use std::marker::Model;
use zk_base::{NoMemory, Who};

/// What can be asked of the clock. Time is counted in ticks, from 0.
#[derive(Clone, Copy, Debug, PartialEq, Eq)]
pub enum ClockOp {
    /// So many ticks pass. Zephyr's `sys_clock_announce`.
    Announce(u32),
    /// Sets an alarm of the caller, so many ticks ahead. It begins a timeout, as `k_sleep` does.
    Alarm(u32),
    /// Ends an alarm of the caller, of this moment. It isn't possible before the time has come.
    AlarmEnd(u64),
}

/// What the clock answers.
#[derive(Clone, Copy, Debug, PartialEq, Eq)]
pub enum ClockReply {
    /// The time from now on, in ticks.
    Now(u64),
    /// The moment of the alarm: the time at which it may end, in ticks.
    At(u64),
    /// The alarm has ended, as its moment had come.
    Due,
}

/// An alarm that was set and hasn't ended.
#[derive(Clone, Copy, PartialEq, Eq)]
pub struct Alarm {
    /// The player who set it.
    pub player: u32,
    /// The time from which on it may end, in ticks.
    pub moment: u64,
}

/// The state of the clock's machine, with the memory that it has for alarms.
#[derive(Drop)]
pub struct ClockStore {
    time: u64,
    entries: u64,
    alarms: Vec<Alarm>,
}

impl Model for ClockStore {
    ghost use Rattle.std.specs.Prelude.{◌-◌, vec_len, vec_capacity};
    ghost use Rattle.zk_model_wait.specs.Clock.{ClockView, IsTimely};

    ghost Value = { ClockView };

    ghost view = { λ a. record {
      clock = record { time = a.time; entries = a.entries; alarms = a.alarms.items };
      room = vec_capacity a.alarms - vec_len a.alarms;
    } };

    ghost invariant = { λ a. IsTimely a.time a.entries };
}

/// The state of the clock's machine alone, which contracts see as its definition has it.
#[derive(Drop)]
pub struct ClockState {
    store: ClockStore,
}

impl Model for ClockState {
    ghost use Rattle.zk_model_wait.specs.Clock.{Clock};

    ghost Value = { Clock };

    ghost view = { λ a. a.store.clock };
}

/// Whether it is an alarm of this player and moment.
fn is_alarm(alarm: Alarm, player: u32, moment: u64) -> bool
    ensures { result ≡ is_alarm player moment alarm }
{
    alarm.player == player && alarm.moment == moment
}

/// Whether the player has an alarm of this moment.
fn has_alarm(alarms: &[Alarm], player: u32, moment: u64) -> bool
    ensures { result ≡ has_alarm alarms.now player moment }
{
    alarms.iter().any(|alarm| is_alarm(*alarm, player, moment))
}

/// Whether the player may end an alarm of this moment.
fn is_due(time: u64, alarms: &[Alarm], player: u32, moment: u64) -> bool
    ensures { result ≡ is_due time alarms.now player moment }
{
    moment <= time && has_alarm(alarms, player, moment)
}

/// The place of the first alarm of this player and moment.
fn place(alarms: &[Alarm], player: u32, moment: u64) -> Option<usize>
    ensures { result ≡ position (is_alarm player moment) alarms.now }
{
    alarms
        .iter()
        .position(|alarm| is_alarm(*alarm, player, moment))
}

/// One alarm more.
fn set_alarm(alarms: &mut Vec<Alarm>, player: u32, moment: u64) -> Result<(), NoMemory>
    ensures ok { OnOk result (alarms.new.items ≡
        alarms.old.items ++ record { player = player; moment = moment } ∷ []) }
    ensures err { OnErr result (alarms.new.items ≡ alarms.old.items) }

    // Memory: one place of it is enough.
    ensures roomy { vec_len alarms.old < vec_capacity alarms.old → IsOk result }
    ensures len { vec_len alarms.new ≤ vec_len alarms.old + 1 }
    ensures capacity { vec_capacity alarms.old ≤ vec_capacity alarms.new }
{
    alarms.push(Alarm { player, moment })?;
    Ok(())
}

/// The first alarm of this player and moment, if there is one, is taken away.
fn end_alarm(alarms: &mut Vec<Alarm>, player: u32, moment: u64)
    ensures next { alarms.new.items ≡ without_first (is_alarm player moment) alarms.old.items }

    // Memory: it takes none, and gives none back.
    ensures len { vec_len alarms.new ≤ vec_len alarms.old }
    ensures capacity { vec_capacity alarms.new ≡ vec_capacity alarms.old }
{
    if let Some(place) = place(alarms, player, moment) {
        alarms.remove(place);
    }
}

impl ClockState {
    /// The clock before the first entry. It takes no memory.
    pub fn new(alloc: Global) -> ClockState
        ensures { result ≡ new_clock }
    {
        ClockState {
            store: ClockStore::new(alloc),
        }
    }
}

impl ClockStore {
    /// The clock before the first entry. It takes no memory.
    pub fn new(alloc: Global) -> ClockStore
        ensures { result.clock ≡ new_clock }
    {
        ClockStore {
            time: 0,
            entries: 0,
            alarms: Vec::new(alloc),
        }
    }

    fn announce(&mut self, who: Who, ticks: u32) -> Option<ClockReply>
        requires { self.old.clock.entries < most_entries }
        ensures reply { result ≡ clock_reply self.old.clock who (ClockOp.Announce ticks) }
        ensures next { self.new.clock
            ≡ after_reply self.old.clock who (ClockOp.Announce ticks) result }
        ensures room { self.new.room ≡ self.old.room }
    {
        self.time += ticks as u64;
        self.entries += 1;
        Some(ClockReply::Now(self.time))
    }

    fn alarm(&mut self, who: Who, ticks: u32) -> Result<Option<ClockReply>, NoMemory>
        requires { self.old.clock.entries < most_entries }
        ensures reply { IfOk result (λ reply.
            reply ≡ clock_reply self.old.clock who (ClockOp.Alarm ticks)) }
        ensures next { IfOk result (λ reply.
            self.new.clock ≡ after_reply self.old.clock who (ClockOp.Alarm ticks) reply) }
        ensures unchanged { OnErr result (self.new.clock ≡ self.old.clock) }
        ensures roomy { 1 ≤ self.old.room → IsOk result }
        ensures room { self.old.room ≤ self.new.room + 1 }
        ensures kept { AddsNone result → self.old.room ≤ self.new.room }
    {
        let moment = self.time + ticks as u64;
        set_alarm(&mut self.alarms, who.number, moment)?;
        self.entries += 1;
        Ok(Some(ClockReply::At(moment)))
    }

    fn alarm_end(&mut self, who: Who, moment: u64) -> Option<ClockReply>
        requires { self.old.clock.entries < most_entries }
        ensures reply { result ≡ clock_reply self.old.clock who (ClockOp.AlarmEnd moment) }
        ensures next { self.new.clock
            ≡ after_reply self.old.clock who (ClockOp.AlarmEnd moment) result }
        ensures room { self.old.room ≤ self.new.room }
    {
        if !is_due(self.time, &self.alarms, who.number, moment) {
            return None;
        }
        end_alarm(&mut self.alarms, who.number, moment);
        self.entries += 1;
        Some(ClockReply::Due)
    }
}

/// One operation of the clock's machine: its reply and its next state.
///
/// `None` says that the operation isn't possible now. Only `Alarm` takes memory.
pub fn clock_next(
    store: &mut ClockStore,
    who: Who,
    op: &ClockOp,
) -> Result<Option<ClockReply>, NoMemory>
    requires { store.old.clock.entries < most_entries }
    ensures reply { IfOk result (λ reply. reply ≡ clock_reply store.old.clock who op.now) }
    ensures next { IfOk result (λ reply.
        store.new.clock ≡ after_reply store.old.clock who op.now reply) }
    ensures unchanged { OnErr result (store.new.clock ≡ store.old.clock) }

    // Memory: one place is enough, and is taken only by an alarm that is set.
    ensures memory { sets_alarm op.now ≡ false → IsOk result }
    ensures roomy { 1 ≤ store.old.room → IsOk result }
    ensures room { store.old.room ≤ store.new.room + 1 }
    ensures kept { AddsNone result → store.old.room ≤ store.new.room }
{
    match *op {
        ClockOp::Announce(ticks) => Ok(store.announce(who, ticks)),
        ClockOp::Alarm(ticks) => store.alarm(who, ticks),
        ClockOp::AlarmEnd(moment) => Ok(store.alarm_end(who, moment)),
    }
}
