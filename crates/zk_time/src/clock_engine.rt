ghost use Rattle.std.specs.Prelude.{◌≡◌, ℕ, ◌+◌, ◌^◌, ◌<◌, ◌≤◌, ◌&&◌, nat_lt, nat_le, IsOk, IfOk, OnOk, OnErr};
ghost use Rattle.zk_base.specs.Limits.{most_entries};
ghost use Rattle.zk_model_wait.specs.Clock.{new_clock, IsTimely};
ghost use Rattle.zk_time.specs.Alarms.{how_often, alarms_room, IsOneMore, AreSame, StandsFor};

use crate::alarms::Alarms;
use std::alloc::Global;
use zk_base::{Engine, NoMemory, Who};
use zk_model_wait::{ClockOp, ClockReply, ClockState};

/// What the clock computes and keeps: the time, and how often each alarm is set that hasn't ended.
#[derive(Drop)]
pub struct ClockEngine {
    time: u64,
    entries: u64,
    alarms: Alarms,
}

impl ClockEngine {
    /// The clock before the first entry. It takes no memory.
    pub fn new(alloc: Global) -> ClockEngine
        ensures { StandsFor result new_clock }
    {
        ClockEngine {
            time: 0,
            entries: 0,
            alarms: Alarms::new(alloc),
        }
    }

    /// So many ticks pass.
    fn announce(&mut self, ticks: u32) -> ClockReply
        requires short { self.old.entries < most_entries }
        requires timely { IsTimely self.old.time self.old.entries }
        ensures reply { result ≡ ClockReply.Now (self.old.time + ticks) }
        ensures next { self.new ≡ record self.old { time = self.old.time + ticks; entries = self.old.entries + 1 } }
    {
        self.time += u64::from(ticks);
        self.entries += 1;
        ClockReply::Now(self.time)
    }

    /// Sets an alarm of the player, so many ticks ahead.
    fn alarm(&mut self, player: u32, ticks: u32) -> Result<ClockReply, NoMemory>
        requires short { self.old.entries < most_entries }
        requires timely { IsTimely self.old.time self.old.entries }
        requires fewest { self.old.alarms.count ≤ self.old.entries }
        requires fewer { (p m : ℕ) → m < 2 ^ 64 → how_often self.old.alarms p m ≤ self.old.entries }
        ensures reply { IfOk result (λ reply. reply ≡ ClockReply.At (self.old.time + ticks)) }
        ensures time { self.new.time ≡ self.old.time }
        ensures entries { OnOk result (self.new.entries ≡ self.old.entries + 1) }
        ensures one { OnOk result (IsOneMore player (self.old.time + ticks) self.old.alarms self.new.alarms) }
        ensures count { OnOk result (self.new.alarms.count ≡ self.old.alarms.count + 1) }
        ensures err_entries { OnErr result (self.new.entries ≡ self.old.entries) }
        ensures err { OnErr result (AreSame self.old.alarms self.new.alarms) }
        ensures err_count { OnErr result (self.new.alarms.count ≡ self.old.alarms.count) }
        ensures short_moment { self.old.time + ticks < 2 ^ 64 }
        ensures roomy { 1 ≤ alarms_room self.old.alarms → IsOk result }
        ensures room { alarms_room self.old.alarms ≤ alarms_room self.new.alarms + 1 }
        ensures kept { OnErr result (alarms_room self.old.alarms ≤ alarms_room self.new.alarms) }
    {
        let moment = self.time + u64::from(ticks);
        self.alarms.set(player, moment)?;
        self.entries += 1;
        Ok(ClockReply::At(moment))
    }

    /// Whether an alarm of the player may end that is of this moment.
    fn is_due(&self, player: u32, moment: u64) -> bool
        ensures due { result ≡ (nat_le moment self.now.time && nat_lt 0 (how_often self.now.alarms player moment)) }
        ensures short { moment < 2 ^ 64 }
    {
        moment <= self.time && self.alarms.has(player, moment)
    }

    /// Ends such an alarm: there has to be one.
    fn end_alarm(&mut self, player: u32, moment: u64)
        requires short { self.old.entries < most_entries }
        requires there { 0 < how_often self.old.alarms player moment }
        requires some { 0 < self.old.alarms.count }
        ensures time { self.new.time ≡ self.old.time }
        ensures entries { self.new.entries ≡ self.old.entries + 1 }
        ensures one { IsOneMore player moment self.new.alarms self.old.alarms }
        ensures count { self.new.alarms.count + 1 ≡ self.old.alarms.count }
        ensures room { alarms_room self.old.alarms ≤ alarms_room self.new.alarms + 1 }
    {
        self.alarms.end(player, moment);
        self.entries += 1;
    }
}

impl Engine for ClockEngine {
    type Op = ClockOp;

    type Reply = ClockReply;

    type State = ClockState;

    ghost use Rattle.std.specs.Prelude.{false, []};
    ghost use Rattle.zk_model_wait.specs.Clock.{clock_owed, clock_closes, clock_machine};
    ghost use Rattle.zk_time.specs.Alarms.{alarms_room, StandsFor};

    ghost stands_for = { StandsFor };

    ghost room = { λ e. alarms_room e.alarms };

    ghost machine = { clock_machine };

    ghost entries = { λ c. c.entries };

    ghost owed = { clock_owed };

    ghost closes = { λ c who op. clock_closes op };

    ghost grows = { λ op. false };

    // Nothing is published for looks.
    ghost word = { λ s index. 0 };

    ghost WORDS = { 0 };

    const WORDS: u32 = 0;

    ghost touched = { λ e. [] };

    fn step(
        &mut self,
        who: Who,
        op: &ClockOp,
    ) -> Result<Option<(ClockReply, ClockReply)>, NoMemory> {
        match *op {
            ClockOp::Announce(ticks) => {
                let reply = self.announce(ticks);
                Ok(Some((reply, reply)))
            }
            ClockOp::Alarm(ticks) => {
                let reply = self.alarm(who.number, ticks)?;
                Ok(Some((reply, reply)))
            }
            ClockOp::AlarmEnd(moment) => {
                if !self.is_due(who.number, moment) {
                    return Ok(None);
                }
                self.end_alarm(who.number, moment);
                Ok(Some((ClockReply::Due, ClockReply::Due)))
            }
        }
    }

    fn is_closing(&self, _who: Who, op: &ClockOp) -> bool {
        matches!(op, ClockOp::AlarmEnd(_))
    }

    fn is_futile(&self, _who: Who, op: &ClockOp) -> bool {
        match op {
            ClockOp::AlarmEnd(moment) => self.time < *moment,
            _ => false,
        }
    }

    fn owed(&self) -> u64 {
        self.alarms.count()
    }

    fn word(&self, _index: u32) -> u32 {
        0
    }

    fn touched(&self) -> &[u32] {
        &[]
    }

    fn reserve(&mut self) -> Result<(), NoMemory> {
        self.alarms.reserve(3)
    }

    fn room(&self) -> u64 {
        self.alarms.room()
    }

    fn counts_entries() {}
}
