ghost use Rattle.std.specs.Prelude.{◌≡◌, ℕ, ◌+◌, ◌-◌, ◌^◌, ◌<◌, ◌≤◌, true, false, is_some, option_map, [], ◌++◌, option_to_list, vec_len, vec_capacity, length, AllPairs, ◌≢◌, None, Some, replicate, IsOk, IfOk, IfSome, OnErr};
ghost use Rattle.zk_base.specs.History.{AddsNone};
ghost use Rattle.zk_base.specs.Limits.{most_entries};
ghost use Rattle.zk_model_work.specs.State.{State, start_of};
ghost use Rattle.zk_model_work.specs.Answers.{admitted_to};
ghost use Rattle.zk_model_work.specs.Machine.{is_among};
ghost use Rattle.zk_time.specs.Timeouts.{is_armed, due_first, drop_due, count_due, pair_of};
ghost use Rattle.zk_work.specs.EngineState.{IsWhole, StandsFor, work_closes, work_grows};
ghost use Rattle.zk_work.specs.Touched.{touched_item, told_items};
ghost use Rattle.zk_work.specs.Words.{most_items, most_queues};
ghost use Rattle.zk_work.specs.Engine.{item_of, answer_of, MayAdmit, admitted, submitted, disarmed, is_pending_in, delayed, delay_reply_in, hurried, expiry_of, expired_next, expired, told, announced, announce_reply, flags_of, may_close, closed, reply_of, after_reply, IsTimely};

use crate::active::{Active, settle};
use crate::flushed::{Flushed, no_flushed, note};
use crate::open_waits::OpenWaits;
use crate::told::{copy_of, tell};
use crate::touched::tell_items;
use crate::waits::{close, mark_flushing, may_close};
use bitflags::Flags;
use std::alloc::Global;
use std::marker::Model;
use zk_base::{Engine, Listed, NoMemory, Who, push_within};
use zk_model_work::{
    BusyFlags, Change, Closing, Expiry, Item, Queue, Submitted, WorkOp, WorkReply, WorkState,
    cancel_start_reply, cancel_wait, change, drain, drain_reply, drain_wait, flush_start_reply,
    flush_wait, fresh_queues, is_pending, is_worker, remaining, start_reply, stop, stop_reply,
    submission, unplug_reply,
};

/// What an operation answers, where there is memory: its reply, where it is possible.
type Replied = Result<Option<WorkReply>, NoMemory>;

/// The most items of a scenario: each has a word.
pub const MOST_ITEMS: u32 = 256;

/// What the work service computes and keeps: the open admissions, and of all others only how many
/// there were, and to which queue the last one of each item was.
#[derive(Drop)]
pub struct WorkEngine {
    time: u64,
    entries: u64,
    // How many admissions were made: the number of the next one.
    made: u64,
    // How many of them run.
    running: u64,
    // The queue of each item's last admission. An item that runs, runs there.
    last: Vec<Option<u32>>,
    // What waits, what runs, and the items that are armed.
    active: Active,
    waits: OpenWaits,
    // Of each item, which of its admissions flushes wait for.
    flushed: Vec<Flushed>,
    queues: Vec<Queue>,
    // The items whose busy flags the last operation may have changed. There is room for each item.
    touched: Vec<u32>,
}

impl Model for WorkEngine {
    ghost use Rattle.std.specs.Prelude.{◌≡◌, ◌+◌, ◌^◌, ◌≤◌, length, vec_capacity};
    ghost use Rattle.zk_work.specs.EngineState.{EngineState, EngineView};
    ghost use Rattle.zk_work.specs.Flushed.{AreKept, AreOld};
    ghost use Rattle.zk_work.specs.Flushing.{AreFlushing};

    ghost Value = { EngineView };

    ghost view = { λ a. record {
      state = record {
        time = a.time;
        entries = a.entries;
        made = a.made;
        running = a.running;
        last = a.last.items;
        active = a.active.admissions;
        timeouts = a.active.timeouts;
        waits = a.waits.waits;
        queues = a.queues.items;
      };
      room = a.waits.room;
      touched = a.touched.items;
    } };

    ghost invariant = { λ a. record {
      runs : a.running ≤ 2 ^ 32;
      items : length a.last.items ≡ a.active.admissions.items;
      touched : a.active.admissions.items + 1 ≤ vec_capacity a.touched;
      flushing : AreFlushing a.made a.active.admissions a.active.flushing a.waits.waits;
      kept : AreKept a.active.admissions a.flushed.items a.waits.waits;
      old : AreOld a.made a.flushed.items;
      placed : a.waits.next ≤ a.entries;
    } };
}

/// No queue for each item.
fn no_queues(alloc: Global, items: u32) -> Result<Vec<Option<u32>>, NoMemory>
    ensures { IfOk result (λ last. last.items ≡ replicate items None) }
{
    let mut last = Vec::new(alloc);
    last.resize(items as usize, None)?;
    Ok(last)
}

impl WorkEngine {
    /// The engine before the first entry.
    pub fn new(
        alloc: Global,
        items: u32,
        workers: &[u32],
        started: &[bool],
    ) -> Result<WorkEngine, NoMemory>
        requires same { length workers.now ≡ length started.now }
        requires differ { AllPairs (λ a b. a ≢ b) workers.now }
        requires queues { length workers.now ≤ most_queues }
        requires items { items ≤ most_items }
        ensures { IfOk result (λ e. StandsFor e.state (start_of items workers.now started.now)) }
    {
        let queues = fresh_queues(alloc, workers, started)?;
        let active = Active::new(alloc, items, workers.len() as u32)?;
        let last = no_queues(alloc, items)?;
        let flushed = no_flushed(alloc, items)?;
        let touched = Vec::with_capacity(alloc, items as usize + 1)?;
        Ok(WorkEngine {
            time: 0,
            entries: 0,
            made: 0,
            running: 0,
            last,
            active,
            waits: OpenWaits::new(alloc),
            flushed,
            queues,
            touched,
        })
    }

    /// What the answers ask of an item.
    fn item(&self, item: u32) -> Item
        requires item { item < self.now.state.active.items }
        ensures { result ≡ item_of self.now.state item }
    {
        let busy = self.active.busy(item);
        let last = self.last[item as usize];
        Item {
            cancelling: busy.cancelling,
            queued: busy.waits,
            running: busy.runs,
            home: if busy.runs { last } else { None },
            last,
            next: self.made,
        }
    }

    /// The answer to a submission of the item by this player, or by nobody.
    fn answer(&self, caller: Option<u32>, item: u32, named: Option<u32>) -> Submitted
        requires whole { IsWhole self.now.state }
        requires item { item < self.now.state.active.items }
        ensures answer { result ≡ answer_of self.now.state caller item named }
        ensures admits { (queue : ℕ) → admitted_to result
            ≡ Some queue → MayAdmit self.now.state item queue }
    {
        submission(self.item(item), &self.queues, caller, named)
    }

    /// One more admission.
    fn admit(&mut self, item: u32, queue: u32)
        requires whole { IsWhole self.old.state }
        requires item { item < self.old.state.active.items }
        requires may { MayAdmit self.old.state item queue }
        ensures next { self.new.state ≡ admitted self.old.state item queue }
        ensures room { self.new.room ≡ self.old.room }
    {
        self.active.admit(item, queue, self.made);
        self.last[item as usize] = Some(queue);
        self.made += 1;
    }

    /// The item is admitted, where the answer to its submission says so.
    fn admit_if(&mut self, item: u32, answer: Submitted)
        requires whole { IsWhole self.old.state }
        requires item { item < self.old.state.active.items }
        requires may { (queue : ℕ) → admitted_to answer
            ≡ Some queue → MayAdmit self.old.state item queue }
        ensures next { self.new.state ≡ submitted self.old.state item answer }
        ensures whole { self.old.state.made + length self.old.state.timeouts.live < self.old.state.entries →
            IsWhole self.new.state }
        ensures room { self.new.room ≡ self.old.room }
    {
        match answer {
            Submitted::Fresh(_, queue) => self.admit(item, queue),
            Submitted::Rerun(_, queue) => self.admit(item, queue),
            _ => {}
        }
    }

    fn submit(&mut self, who: Who, item: u32, named: Option<u32>) -> Option<WorkReply>
        requires whole { IsWhole self.old.state }
        requires item { item < self.old.state.active.items }
        ensures reply { result ≡ reply_of self.old.state who (WorkOp.Submit item named) }
        ensures next { self.new.state
            ≡ after_reply self.old.state who (WorkOp.Submit item named) result }
        ensures room { self.new.room ≡ self.old.room }
    {
        let answer = self.answer(Some(who.number), item, named);
        self.admit_if(item, answer);
        self.entries += 1;
        Some(WorkReply::Sub(answer))
    }

    /// The busy flags of the item: its word.
    fn flags(&self, item: u32) -> BusyFlags
        requires item { item < self.now.state.active.items }
        ensures { result.0 ≡ flags_of self.now.state item }
    {
        self.active.flags(item)
    }

    fn cancel(&mut self, who: Who, item: u32) -> Option<WorkReply>
        requires whole { IsWhole self.old.state }
        requires item { item < self.old.state.active.items }
        ensures reply { result ≡ reply_of self.old.state who (WorkOp.Cancel item) }
        ensures next { self.new.state ≡ after_reply self.old.state who (WorkOp.Cancel item) result }
        ensures room { self.new.room ≡ self.old.room }
    {
        self.active.cancel(item);
        mark_flushing(&mut self.active, &self.waits, &self.flushed, item);
        settle(&self.active, &mut self.queues);
        self.entries += 1;
        Some(WorkReply::Flags(self.flags(item).bits()))
    }

    fn cancel_start(&mut self, who: Who, item: u32) -> Replied
        requires whole { IsWhole self.old.state }
        requires item { item < self.old.state.active.items }
        ensures reply { IfOk result (λ reply.
            reply ≡ reply_of self.old.state who (WorkOp.CancelStart item)) }
        ensures next { IfOk result (λ reply.
            self.new.state ≡ after_reply self.old.state who (WorkOp.CancelStart item) reply) }
        ensures unchanged { OnErr result (self.new.state ≡ self.old.state) }
        ensures roomy { 3 ≤ self.old.room → IsOk result }
        ensures room { self.old.room ≤ self.new.room + 3 }
        ensures kept { AddsNone result → self.old.room ≤ self.new.room }
    {
        let flags = self.flags(item);
        let run = self.active.running(item);
        let wait = cancel_wait(self.entries, who, run);
        self.waits.put(self.entries, wait)?;
        self.active.cancel(item);
        mark_flushing(&mut self.active, &self.waits, &self.flushed, item);
        settle(&self.active, &mut self.queues);
        self.entries += 1;
        Ok(Some(cancel_start_reply(flags.bits(), run.is_some())))
    }

    fn flush_start(&mut self, who: Who, item: u32) -> Replied
        requires whole { IsWhole self.old.state }
        requires item { item < self.old.state.active.items }
        ensures reply { IfOk result (λ reply.
            reply ≡ reply_of self.old.state who (WorkOp.FlushStart item)) }
        ensures next { IfOk result (λ reply.
            self.new.state ≡ after_reply self.old.state who (WorkOp.FlushStart item) reply) }
        ensures unchanged { OnErr result (self.new.state ≡ self.old.state) }
        ensures roomy { 3 ≤ self.old.room → IsOk result }
        ensures room { self.old.room ≤ self.new.room + 3 }
        ensures kept { AddsNone result → self.old.room ≤ self.new.room }
    {
        self.waits.reserve(1)?;
        self.hurry(who, item);
        let waiting = self.active.waiting(item);
        let running = self.active.running(item);
        let number = waiting.or(running);
        let wait = flush_wait(self.entries, who, number);
        self.waits.put(self.entries, wait)?;
        note(&mut self.flushed, item, running, number);
        mark_flushing(&mut self.active, &self.waits, &self.flushed, item);
        self.entries += 1;
        Ok(Some(flush_start_reply(number)))
    }

    /// The item isn't armed any more.
    fn disarm(&mut self, item: u32)
        requires whole { IsWhole self.old.state }
        requires item { item < self.old.state.active.items }
        ensures next { self.new.state ≡ disarmed self.old.state item }
        ensures whole { IsWhole self.new.state }
        ensures free { is_armed self.new.state.timeouts item ≡ false }
        ensures room { self.new.room ≡ self.old.room }
    {
        self.active.disarm(item);
    }

    /// The item's delay ends, if it has one: the item is submitted by the player.
    fn hurry(&mut self, who: Who, item: u32)
        requires whole { IsWhole self.old.state }
        requires item { item < self.old.state.active.items }
        ensures next { self.new.state ≡ hurried self.old.state who item }
        ensures room { self.new.room ≡ self.old.room }
    {
        let queue = self.active.queue(item);
        self.disarm(item);
        if let Some(queue) = queue {
            let answer = self.answer(Some(who.number), item, Some(queue));
            self.admit_if(item, answer);
        }
    }

    /// Whether the item is delayed, queued or being cancelled.
    fn is_pending(&self, item: u32) -> bool
        requires item { item < self.now.state.active.items }
        ensures { result ≡ is_pending_in self.now.state item }
    {
        is_pending(self.item(item), self.active.is_armed(item))
    }

    /// Gives an item that isn't armed a delay: with none it is submitted.
    fn delay(&mut self, who: Who, item: u32, queue: u32, delay: u32) -> WorkReply
        requires whole { IsWhole self.old.state }
        requires item { item < self.old.state.active.items }
        requires short { self.old.state.entries < most_entries }
        requires free { is_armed self.old.state.timeouts item ≡ false }
        ensures reply { result ≡ delay_reply_in self.old.state who item queue delay }
        ensures next { self.new.state ≡ delayed self.old.state who item queue delay }
        ensures room { self.new.room ≡ self.old.room }
    {
        if delay == 0 {
            let answer = self.answer(Some(who.number), item, Some(queue));
            self.admit_if(item, answer);
            return WorkReply::Sub(answer);
        }
        let deadline = self.time + u64::from(delay);
        self.active.arm(item, queue, deadline);
        WorkReply::Armed
    }

    fn schedule(&mut self, who: Who, item: u32, queue: u32, delay: u32) -> Option<WorkReply>
        requires whole { IsWhole self.old.state }
        requires item { item < self.old.state.active.items }
        requires short { self.old.state.entries < most_entries }
        ensures reply { result ≡ reply_of self.old.state who (WorkOp.Schedule item queue delay) }
        ensures next { self.new.state
            ≡ after_reply self.old.state who (WorkOp.Schedule item queue delay) result }
        ensures timely { delay < 2 ^ 32 }
        ensures room { self.new.room ≡ self.old.room }
    {
        if self.is_pending(item) {
            self.entries += 1;
            return Some(WorkReply::Sub(Submitted::Already));
        }
        let reply = self.delay(who, item, queue, delay);
        self.entries += 1;
        Some(reply)
    }

    fn reschedule(&mut self, who: Who, item: u32, queue: u32, delay: u32) -> Option<WorkReply>
        requires whole { IsWhole self.old.state }
        requires item { item < self.old.state.active.items }
        requires short { self.old.state.entries < most_entries }
        ensures reply { result ≡ reply_of self.old.state who (WorkOp.Reschedule item queue delay) }
        ensures next { self.new.state
            ≡ after_reply self.old.state who (WorkOp.Reschedule item queue delay) result }
        ensures timely { delay < 2 ^ 32 }
        ensures room { self.new.room ≡ self.old.room }
    {
        self.disarm(item);
        let reply = self.delay(who, item, queue, delay);
        self.entries += 1;
        Some(reply)
    }

    fn remaining(&mut self, who: Who, item: u32) -> Option<WorkReply>
        requires whole { IsWhole self.old.state }
        requires item { item < self.old.state.active.items }
        ensures reply { result ≡ reply_of self.old.state who (WorkOp.Remaining item) }
        ensures next { self.new.state
            ≡ after_reply self.old.state who (WorkOp.Remaining item) result }
        ensures room { self.new.room ≡ self.old.room }
    {
        let remaining = remaining(self.active.deadline(item), self.time);
        self.entries += 1;
        Some(WorkReply::Number(remaining))
    }

    /// Takes out the first item that is due by this time, if there is one: the item and its queue.
    fn take_due(&mut self, time: u64) -> Option<(u32, u32)>
        requires whole { IsWhole self.old.state }
        ensures reply { result ≡ option_map pair_of (due_first time self.old.state.timeouts.live) }
        ensures next { self.new.state
            ≡ record self.old.state { timeouts = drop_due self.old.state.timeouts time } }
        ensures whole { IsWhole self.new.state }
        ensures known { IfSome result (λ t. t.0 < self.old.state.active.items) }
        ensures room { self.new.room ≡ self.old.room }
    {
        self.active.due(time)
    }

    /// The first item that is due by this time is submitted by nobody. One has to be due.
    fn expire_next(&mut self, time: u64) -> Expiry
        requires whole { IsWhole self.old.state }
        requires due { is_some (due_first time self.old.state.timeouts.live) ≡ true }
        ensures expiry { Some result
            ≡ option_map (expiry_of self.old.state) (due_first time self.old.state.timeouts.live) }
        ensures next { self.new.state ≡ expired_next time self.old.state }
        ensures whole { IsWhole self.new.state }
        ensures room { self.new.room ≡ self.old.room }
    {
        let Some((item, queue)) = self.take_due(time) else {
            unreachable!();
        };
        let submitted = self.answer(None, item, Some(queue));
        self.admit_if(item, submitted);
        Expiry { item, submitted }
    }

    /// All items that are due by this time are submitted by nobody, and what became of each is told twice.
    fn expire(&mut self, time: u64, expiries: &mut Vec<Expiry>, copy: &mut Vec<Expiry>)
        requires whole { IsWhole self.old.state }
        requires room { count_due self.old.state.timeouts time ≤ vec_capacity expiries.old }
        requires copy { count_due self.old.state.timeouts time ≤ vec_capacity copy.old }
        requires none { (expiries.old.items ≡ []) × (copy.old.items ≡ []) }
        ensures next { self.new.state
            ≡ expired (count_due self.old.state.timeouts time) time self.old.state }
        ensures told { expiries.new.items
            ≡ told (count_due self.old.state.timeouts time) time self.old.state }
        ensures copy { copy.new.items
            ≡ told (count_due self.old.state.timeouts time) time self.old.state }
        ensures count { vec_len expiries.new ≡ count_due self.old.state.timeouts time }
        ensures entries { self.new.state.entries ≡ self.old.state.entries }
        ensures items { self.new.state.active.items ≡ self.old.state.active.items }
        ensures room { self.new.room ≡ self.old.room }
    {
        for _ in 0..self.active.count_due(time) {
            let expiry = self.expire_next(time);
            tell(expiries, expiry);
            tell(copy, expiry);
        }
    }

    /// It is this time from now on, at an entry that is counted.
    fn set_time(&mut self, time: u64)
        requires short { self.old.state.entries < most_entries }
        ensures next { self.new.state
            ≡ record self.old.state { time = time; entries = self.old.state.entries + 1 } }
        ensures room { self.new.room ≡ self.old.room }
        ensures touched { self.new.touched ≡ self.old.touched }
    {
        self.time = time;
        self.entries += 1;
    }

    /// So many ticks have passed. The reply comes twice, since one of them is kept in the history.
    fn announce(&mut self, ticks: u32) -> Result<(WorkReply, WorkReply), NoMemory>
        requires whole { IsWhole self.old.state }
        requires short { self.old.state.entries < most_entries }
        ensures reply { IfOk result (λ two. two.0 ≡ announce_reply self.old.state ticks) }
        ensures twice { IfOk result (λ two. two.1 ≡ two.0) }
        ensures next { IfOk result (λ two. self.new.state
            ≡ record (announced self.old.state ticks) {
              entries = self.old.state.entries + 1;
            }) }
        ensures unchanged { OnErr result (self.new.state ≡ self.old.state) }
        ensures touched { IfOk result (λ two. self.new.touched ≡ told_items two.0) }
        ensures timely { ticks < 2 ^ 32 }
        ensures room { self.new.room ≡ self.old.room }
    {
        self.touched.clear();
        let alloc = *self.touched.allocator();
        let time = self.time + u64::from(ticks);
        let due = self.active.count_due(time);
        let mut expiries = Vec::with_capacity(alloc, due)?;
        let mut copy = Vec::with_capacity(alloc, due)?;
        self.expire(time, &mut expiries, &mut copy);
        tell_items(&mut self.touched, &expiries);
        self.set_time(time);
        Ok((
            WorkReply::Now(time, Listed::from_vec(expiries)),
            WorkReply::Now(time, Listed::from_vec(copy)),
        ))
    }

    fn drain_start(&mut self, who: Who, queue: u32, plug: bool) -> Replied
        requires whole { IsWhole self.old.state }
        requires queue { queue < self.old.state.active.queues }
        ensures reply { IfOk result (λ reply.
            reply ≡ reply_of self.old.state who (WorkOp.DrainStart queue plug)) }
        ensures next { IfOk result (λ reply.
            self.new.state ≡ after_reply self.old.state who (WorkOp.DrainStart queue plug) reply) }
        ensures unchanged { OnErr result (self.new.state ≡ self.old.state) }
        ensures roomy { 3 ≤ self.old.room → IsOk result }
        ensures room { self.old.room ≤ self.new.room + 3 }
        ensures kept { AddsNone result → self.old.room ≤ self.new.room }
    {
        let idle = self.active.is_idle(queue);
        let wait = drain_wait(idle, self.entries, &self.queues, who, queue);
        self.waits.put(self.entries, wait)?;
        drain(&mut self.queues, queue, idle, plug);
        self.entries += 1;
        Ok(Some(drain_reply(idle)))
    }

    /// Whether the player may end its wait of this place.
    fn may_close(&self, closing: Closing, who: Who, place: u64) -> bool
        ensures { result ≡ may_close self.now.state closing who place }
    {
        may_close(&self.active, &self.queues, &self.waits, closing, who, place)
    }

    /// Ends the waits of the player and place for what has come.
    fn close(&mut self, closing: Closing, who: Who, place: u64)
        requires whole { IsWhole self.old.state }
        ensures next { self.new.state ≡ record (closed self.old.state closing who place) {
          entries = self.old.state.entries + 1;
        } }
        ensures room { self.old.room ≤ self.new.room }
    {
        close(
            &self.active,
            &self.queues,
            &mut self.waits,
            closing,
            who,
            place,
        );
        self.entries += 1;
    }

    fn cancel_done(&mut self, who: Who, place: u64) -> Option<WorkReply>
        requires whole { IsWhole self.old.state }
        ensures reply { result ≡ reply_of self.old.state who (WorkOp.CancelDone place) }
        ensures next { self.new.state
            ≡ after_reply self.old.state who (WorkOp.CancelDone place) result }
        ensures room { self.old.room ≤ self.new.room }
    {
        if !self.may_close(Closing::Cancel, who, place) {
            return None;
        }
        self.close(Closing::Cancel, who, place);
        Some(WorkReply::Truth(true))
    }

    fn flush_done(&mut self, who: Who, place: u64) -> Option<WorkReply>
        requires whole { IsWhole self.old.state }
        ensures reply { result ≡ reply_of self.old.state who (WorkOp.FlushDone place) }
        ensures next { self.new.state
            ≡ after_reply self.old.state who (WorkOp.FlushDone place) result }
        ensures room { self.old.room ≤ self.new.room }
    {
        if !self.may_close(Closing::Flush, who, place) {
            return None;
        }
        self.close(Closing::Flush, who, place);
        Some(WorkReply::Truth(true))
    }

    fn drain_done(&mut self, who: Who, place: u64) -> Option<WorkReply>
        requires whole { IsWhole self.old.state }
        ensures reply { result ≡ reply_of self.old.state who (WorkOp.DrainDone place) }
        ensures next { self.new.state
            ≡ after_reply self.old.state who (WorkOp.DrainDone place) result }
        ensures room { self.old.room ≤ self.new.room }
    {
        if !self.may_close(Closing::Drain, who, place) {
            return None;
        }
        self.close(Closing::Drain, who, place);
        Some(WorkReply::Number(1))
    }

    fn unplug(&mut self, who: Who, queue: u32) -> Option<WorkReply>
        requires whole { IsWhole self.old.state }
        ensures reply { result ≡ reply_of self.old.state who (WorkOp.Unplug queue) }
        ensures next { self.new.state
            ≡ after_reply self.old.state who (WorkOp.Unplug queue) result }
        ensures room { self.new.room ≡ self.old.room }
    {
        let reply = unplug_reply(&self.queues, queue);
        change(&mut self.queues, queue, Change::Unplug);
        self.entries += 1;
        Some(reply)
    }

    fn stop(&mut self, who: Who, queue: u32) -> Option<WorkReply>
        requires whole { IsWhole self.old.state }
        requires queue { queue < self.old.state.active.queues }
        ensures reply { result ≡ reply_of self.old.state who (WorkOp.Stop queue) }
        ensures next { self.new.state ≡ after_reply self.old.state who (WorkOp.Stop queue) result }
        ensures room { self.new.room ≡ self.old.room }
    {
        let idle = self.active.is_idle(queue);
        let reply = stop_reply(&self.queues, queue, idle);
        stop(&mut self.queues, queue, idle);
        self.entries += 1;
        Some(reply)
    }

    fn start(&mut self, who: Who, queue: u32) -> Option<WorkReply>
        requires whole { IsWhole self.old.state }
        ensures reply { result ≡ reply_of self.old.state who (WorkOp.Start queue) }
        ensures next { self.new.state ≡ after_reply self.old.state who (WorkOp.Start queue) result }
        ensures room { self.new.room ≡ self.old.room }
    {
        let reply = start_reply(&self.queues, queue);
        change(&mut self.queues, queue, Change::Start);
        self.entries += 1;
        Some(reply)
    }

    fn begin(&mut self, who: Who, queue: u32) -> Option<WorkReply>
        requires whole { IsWhole self.old.state }
        requires queue { queue < self.old.state.active.queues }
        ensures reply { result ≡ reply_of self.old.state who (WorkOp.Begin queue) }
        ensures next { self.new.state ≡ after_reply self.old.state who (WorkOp.Begin queue) result }
        ensures room { self.new.room ≡ self.old.room }
    {
        if !is_worker(&self.queues, queue, who.number) {
            return None;
        }
        let (item, number) = self.active.begin(queue)?;
        mark_flushing(&mut self.active, &self.waits, &self.flushed, item);
        self.running += 1;
        self.entries += 1;
        Some(WorkReply::Run(item, number))
    }

    fn end(&mut self, who: Who, queue: u32) -> Option<WorkReply>
        requires whole { IsWhole self.old.state }
        requires queue { queue < self.old.state.active.queues }
        ensures reply { result ≡ reply_of self.old.state who (WorkOp.End queue) }
        ensures next { self.new.state ≡ after_reply self.old.state who (WorkOp.End queue) result }
        ensures room { self.new.room ≡ self.old.room }
    {
        if !is_worker(&self.queues, queue, who.number) {
            return None;
        }
        let (item, _) = self.active.end(queue)?;
        mark_flushing(&mut self.active, &self.waits, &self.flushed, item);
        settle(&self.active, &mut self.queues);
        self.running -= 1;
        self.entries += 1;
        Some(WorkReply::Done)
    }

    /// The item whose busy flags this operation may change, where it isn't an announce.
    fn touched_item(&self, op: &WorkOp) -> Option<u32>
        requires { is_among self.now.state.active.items self.now.state.active.queues op.now ≡ true }
        ensures { result ≡ touched_item self.now.state op.now }
    {
        match *op {
            WorkOp::Submit(item, _)
            | WorkOp::Cancel(item)
            | WorkOp::CancelStart(item)
            | WorkOp::FlushStart(item)
            | WorkOp::Schedule(item, _, _)
            | WorkOp::Reschedule(item, _, _) => Some(item),
            WorkOp::Begin(queue) => self.active.first(queue),
            WorkOp::End(queue) => self.active.run(queue),
            _ => None,
        }
    }

    /// The entry may have changed the busy flags of this item, and of no other.
    fn touch(&mut self, item: Option<u32>)
        ensures state { self.new.state ≡ self.old.state }
        ensures room { self.new.room ≡ self.old.room }
        ensures touched { self.new.touched ≡ option_to_list item }
    {
        self.touched.clear();
        if let Some(item) = item {
            push_within(&mut self.touched, item);
        }
    }

    /// One operation that isn't an announce.
    fn operate(&mut self, who: Who, op: &WorkOp) -> Replied
        requires whole { IsWhole self.old.state }
        requires range { is_among self.old.state.active.items self.old.state.active.queues op.now
            ≡ true }
        requires short { self.old.state.entries < most_entries }
        requires plain { work_grows op.now ≡ false }
        ensures reply { IfOk result (λ reply. reply ≡ reply_of self.old.state who op.now) }
        ensures next { IfOk result (λ reply.
            self.new.state ≡ after_reply self.old.state who op.now reply) }
        ensures unchanged { OnErr result (self.new.state ≡ self.old.state) }
        ensures closing { work_closes op.now ≡ true → IsOk result }
        ensures timely { IsTimely op.now }
        ensures roomy { 3 ≤ self.old.room → IsOk result }
        ensures room { self.old.room ≤ self.new.room + 3 }
        ensures kept { AddsNone result → self.old.room ≤ self.new.room }
    {
        match *op {
            WorkOp::Submit(item, named) => Ok(self.submit(who, item, named)),
            WorkOp::Cancel(item) => Ok(self.cancel(who, item)),
            WorkOp::CancelStart(item) => self.cancel_start(who, item),
            WorkOp::CancelDone(place) => Ok(self.cancel_done(who, place)),
            WorkOp::FlushStart(item) => self.flush_start(who, item),
            WorkOp::FlushDone(place) => Ok(self.flush_done(who, place)),
            WorkOp::Schedule(item, queue, delay) => Ok(self.schedule(who, item, queue, delay)),
            WorkOp::Reschedule(item, queue, delay) => Ok(self.reschedule(who, item, queue, delay)),
            WorkOp::Remaining(item) => Ok(self.remaining(who, item)),
            WorkOp::Start(queue) => Ok(self.start(who, queue)),
            WorkOp::DrainStart(queue, plug) => self.drain_start(who, queue, plug),
            WorkOp::DrainDone(place) => Ok(self.drain_done(who, place)),
            WorkOp::Unplug(queue) => Ok(self.unplug(who, queue)),
            WorkOp::Stop(queue) => Ok(self.stop(who, queue)),
            WorkOp::Announce(_) => unreachable!(),
            WorkOp::Begin(queue) => Ok(self.begin(who, queue)),
            WorkOp::End(queue) => Ok(self.end(who, queue)),
        }
    }
}

impl Engine for WorkEngine {
    type Op = WorkOp;

    type Reply = WorkReply;

    type State = WorkState;

    ghost use Rattle.zk_model_work.specs.Machine.{work_machine};
    ghost use Rattle.zk_work.specs.EngineState.{StandsFor, work_owed, work_closes, work_grows};
    ghost use Rattle.zk_work.specs.Words.{work_word, most_items};

    ghost stands_for = { λ e. StandsFor e.state };

    ghost room = { λ e. e.room };

    ghost machine = { work_machine };

    ghost entries = { λ s. s.entries };

    ghost owed = { work_owed };

    ghost closes = { λ s who op. work_closes op };

    ghost grows = { work_grows };

    ghost word = { work_word };

    ghost WORDS = { most_items };

    const WORDS: u32 = MOST_ITEMS;

    ghost touched = { λ e. e.touched };

    fn step(&mut self, who: Who, op: &WorkOp) -> Result<Option<(WorkReply, WorkReply)>, NoMemory> {
        if let WorkOp::Announce(ticks) = *op {
            return Ok(Some(self.announce(ticks)?));
        }
        let touched = self.touched_item(op);
        self.touch(None);
        match self.operate(who, op)? {
            None => Ok(None),
            Some(reply) => {
                self.touch(touched);
                let copy = copy_of(&reply);
                Ok(Some((reply, copy)))
            }
        }
    }

    fn is_closing(&self, _who: Who, op: &WorkOp) -> bool {
        matches!(
            op,
            WorkOp::CancelDone(_) | WorkOp::FlushDone(_) | WorkOp::DrainDone(_) | WorkOp::End(_)
        )
    }

    fn is_futile(&self, _who: Who, _op: &WorkOp) -> bool {
        false
    }

    fn owed(&self) -> u64 {
        self.running + self.waits.len()
    }

    fn word(&self, index: u32) -> u32 {
        if index as usize >= self.last.len() {
            return 0;
        }
        u32::from(self.flags(index).bits())
    }

    fn touched(&self) -> &[u32] {
        &self.touched
    }

    fn reserve(&mut self) -> Result<(), NoMemory> {
        self.waits.reserve(3)?;
        Ok(())
    }

    fn room(&self) -> u64 {
        self.waits.room()
    }

    fn counts_entries() {}
}
