ghost use Rattle.std.specs.Prelude.{◌≡◌, ◌≢◌, ◌-◌, ◌^◌, ◌<◌, ◌≤◌, length, AllPairs, Some, None, if◌then◌else◌, IfOk, OnErr};
ghost use Rattle.zk_base.specs.Limits.{most_entries};
ghost use Rattle.zk_model_work.specs.State.{State, start_of};
ghost use Rattle.zk_model_work.specs.Questions.{item_of};
ghost use Rattle.zk_model_work.specs.Machine.{work_reply, after_reply, submission_in, is_pending_in, may_close, closed, flags_of};

use crate::{
    Admission, Arm, BusyFlags, Change, Closing, Item, Queue, Submitted, Wait, WorkOp, WorkReply,
    answer, arm, armed, begin, cancel_start_reply, cancel_wait, change, closes, deadline_of,
    disarm, drain, drain_reply, drain_wait, drop_waiting, due, end_run, expire, flags,
    flush_start_reply, flush_wait, flushed, fresh_queues, hurry, is_empty_and_idle, is_flushing,
    is_pending, item_of, live_arm, mark, may_begin, may_end, put_wait, remaining, running, settle,
    start_reply, stop, stop_reply, submission, submit, submit_arms, taken_up, unplug_reply,
};
use bitflags::Flags;
use std::alloc::Global;
use std::marker::Model;
use zk_base::{Listed, NoMemory, Who};

/// What an operation answers, where there is memory: its reply, where it is possible.
type Replied = Result<Option<WorkReply>, NoMemory>;

/// The state of the work machine, which contracts see as its definition has it. Nothing that was
/// ever admitted is forgotten.
#[derive(Drop)]
pub struct WorkState {
    time: u64,
    entries: u64,
    items: u32,
    admissions: Vec<Admission>,
    arms: Vec<Arm>,
    marks: Vec<u64>,
    waits: Vec<Wait>,
    queues: Vec<Queue>,
}

impl Model for WorkState {
    ghost use Rattle.zk_model_work.specs.State.{State, IsCounted, IsTimed};

    ghost Value = { State };

    ghost view = { λ a. record {
      time = a.time;
      entries = a.entries;
      items = a.items;
      admissions = a.admissions.items;
      arms = a.arms.items;
      marks = a.marks.items;
      waits = a.waits.items;
      queues = a.queues.items;
    } };

    ghost invariant = { λ a. IsCounted a.entries a.queues.items × IsTimed a.time a.entries };
}

impl WorkState {
    /// The state before the first entry: so many items, and a queue for each worker.
    ///
    /// The workers' numbers are those of their players, in the order of the queues.
    pub fn new(
        alloc: Global,
        items: u32,
        workers: &[u32],
        started: &[bool],
    ) -> Result<WorkState, NoMemory>
        requires same { length workers.now ≡ length started.now }
        requires differ { AllPairs (λ a b. a ≢ b) workers.now }
        requires queues { length workers.now ≤ 8 }
        requires items { items ≤ 256 }
        ensures { IfOk result (λ s. s ≡ start_of items workers.now started.now) }
    {
        let queues = fresh_queues(alloc, workers, started)?;
        Ok(WorkState {
            time: 0,
            entries: 0,
            items,
            admissions: Vec::new(alloc),
            arms: Vec::new(alloc),
            marks: Vec::new(alloc),
            waits: Vec::new(alloc),
            queues,
        })
    }

    /// What the answers ask of an item.
    fn item(&self, item: u32) -> Item
        ensures { result ≡ item_of self.now.admissions self.now.marks item }
    {
        item_of(&self.admissions, &self.marks, item)
    }

    /// The busy flags of an item.
    fn flags(&self, item: u32) -> BusyFlags
        ensures { result.0 ≡ flags_of self.now item }
    {
        let armed = armed(&self.arms, item).is_some();
        let flushing = is_flushing(&self.admissions, &self.waits, item);
        flags(self.item(item), armed, flushing)
    }

    /// The answer to a submission by the player.
    fn submission(&self, who: Who, item: u32, named: Option<u32>) -> Submitted
        ensures { result ≡ submission_in self.now (Some who.number) item named }
    {
        submission(self.item(item), &self.queues, Some(who.number), named)
    }

    fn submit(&mut self, who: Who, item: u32, named: Option<u32>) -> Replied
        requires { self.old.entries < most_entries }
        ensures reply { IfOk result (λ reply.
            reply ≡ work_reply self.old who (WorkOp.Submit item named)) }
        ensures next { IfOk result (λ reply.
            self.new ≡ after_reply self.old who (WorkOp.Submit item named) reply) }
        ensures unchanged { OnErr result (self.new ≡ self.old) }
    {
        let answer = self.submission(who, item, named);
        submit(&mut self.admissions, item, answer)?;
        self.entries += 1;
        Ok(Some(WorkReply::Sub(answer)))
    }

    fn begin(&mut self, who: Who, queue: u32) -> Option<WorkReply>
        requires { self.old.entries < most_entries }
        ensures reply { result ≡ work_reply self.old who (WorkOp.Begin queue) }
        ensures next { self.new ≡ after_reply self.old who (WorkOp.Begin queue) result }
    {
        if !may_begin(&self.admissions, &self.queues, who, queue) {
            return None;
        }
        let reply = taken_up(&self.admissions, queue)?;
        begin(&mut self.admissions, queue);
        self.entries += 1;
        Some(reply)
    }

    fn end(&mut self, who: Who, queue: u32) -> Option<WorkReply>
        requires { self.old.entries < most_entries }
        ensures reply { result ≡ work_reply self.old who (WorkOp.End queue) }
        ensures next { self.new ≡ after_reply self.old who (WorkOp.End queue) result }
    {
        if !may_end(&self.admissions, &self.queues, who, queue) {
            return None;
        }
        end_run(&mut self.admissions, queue);
        settle(&self.admissions, &mut self.queues);
        self.entries += 1;
        Some(WorkReply::Done)
    }

    fn start(&mut self, who: Who, queue: u32) -> Option<WorkReply>
        requires { self.old.entries < most_entries }
        ensures reply { result ≡ work_reply self.old who (WorkOp.Start queue) }
        ensures next { self.new ≡ after_reply self.old who (WorkOp.Start queue) result }
    {
        let reply = start_reply(&self.queues, queue);
        change(&mut self.queues, queue, Change::Start);
        self.entries += 1;
        Some(reply)
    }

    fn drain_start(&mut self, who: Who, queue: u32, plug: bool) -> Replied
        requires { self.old.entries < most_entries }
        ensures reply { IfOk result (λ reply.
            reply ≡ work_reply self.old who (WorkOp.DrainStart queue plug)) }
        ensures next { IfOk result (λ reply.
            self.new ≡ after_reply self.old who (WorkOp.DrainStart queue plug) reply) }
        ensures unchanged { OnErr result (self.new ≡ self.old) }
    {
        let idle = is_empty_and_idle(&self.admissions, queue);
        let wait = drain_wait(idle, self.entries, &self.queues, who, queue);
        put_wait(&mut self.waits, wait)?;
        drain(&mut self.queues, queue, idle, plug);
        self.entries += 1;
        Ok(Some(drain_reply(idle)))
    }

    fn cancel_start(&mut self, who: Who, item: u32) -> Replied
        requires { self.old.entries < most_entries }
        ensures reply { IfOk result (λ reply.
            reply ≡ work_reply self.old who (WorkOp.CancelStart item)) }
        ensures next { IfOk result (λ reply.
            self.new ≡ after_reply self.old who (WorkOp.CancelStart item) reply) }
        ensures unchanged { OnErr result (self.new ≡ self.old) }
    {
        let flags = self.flags(item);
        let run = running(&self.admissions, item).map(|number| number as u64);
        let wait = cancel_wait(self.entries, who, run);
        self.marks.reserve(1)?;
        self.waits.reserve(1)?;
        mark(&self.admissions, &mut self.marks, item)?;
        put_wait(&mut self.waits, wait)?;
        drop_waiting(&mut self.admissions, item);
        disarm(&mut self.arms, item);
        settle(&self.admissions, &mut self.queues);
        self.entries += 1;
        Ok(Some(cancel_start_reply(flags.bits(), run.is_some())))
    }

    fn flush_start(&mut self, who: Who, item: u32) -> Replied
        requires { self.old.entries < most_entries }
        ensures reply { IfOk result (λ reply.
            reply ≡ work_reply self.old who (WorkOp.FlushStart item)) }
        ensures next { IfOk result (λ reply.
            self.new ≡ after_reply self.old who (WorkOp.FlushStart item) reply) }
        ensures unchanged { OnErr result (self.new ≡ self.old) }
    {
        self.admissions.reserve(1)?;
        self.waits.reserve(1)?;
        let arm = live_arm(&self.arms, item);
        hurry(&mut self.admissions, &self.marks, &self.queues, who, arm)?;
        let number = flushed(&self.admissions, item).map(|number| number as u64);
        let wait = flush_wait(self.entries, who, number);
        put_wait(&mut self.waits, wait)?;
        disarm(&mut self.arms, item);
        self.entries += 1;
        Ok(Some(flush_start_reply(number)))
    }

    /// Whether the item is delayed, queued or being cancelled.
    fn is_pending(&self, item: u32) -> bool
        ensures { result ≡ is_pending_in self.now item }
    {
        is_pending(self.item(item), armed(&self.arms, item).is_some())
    }

    fn schedule(&mut self, who: Who, item: u32, queue: u32, delay: u32) -> Replied
        requires { self.old.entries < most_entries }
        ensures reply { IfOk result (λ reply.
            reply ≡ work_reply self.old who (WorkOp.Schedule item queue delay)) }
        ensures next { IfOk result (λ reply.
            self.new ≡ after_reply self.old who (WorkOp.Schedule item queue delay) reply) }
        ensures unchanged { OnErr result (self.new ≡ self.old) }
    {
        if self.is_pending(item) {
            self.entries += 1;
            return Ok(Some(WorkReply::Sub(Submitted::Already)));
        }
        self.reschedule(who, item, queue, delay)
    }

    fn reschedule(&mut self, who: Who, item: u32, queue: u32, delay: u32) -> Replied
        requires { self.old.entries < most_entries }
        ensures reply { IfOk result (λ reply.
            reply ≡ work_reply self.old who (WorkOp.Reschedule item queue delay)) }
        ensures next { IfOk result (λ reply.
            self.new ≡ after_reply self.old who (WorkOp.Reschedule item queue delay) reply) }
        ensures unchanged { OnErr result (self.new ≡ self.old) }
    {
        if delay == 0 {
            let answer = self.submission(who, item, Some(queue));
            submit(&mut self.admissions, item, answer)?;
            disarm(&mut self.arms, item);
            self.entries += 1;
            return Ok(Some(WorkReply::Sub(answer)));
        }
        self.arms.reserve(1)?;
        disarm(&mut self.arms, item);
        arm(&mut self.arms, item, queue, self.time + u64::from(delay))?;
        self.entries += 1;
        Ok(Some(WorkReply::Armed))
    }

    fn remaining(&mut self, who: Who, item: u32) -> Option<WorkReply>
        requires { self.old.entries < most_entries }
        ensures reply { result ≡ work_reply self.old who (WorkOp.Remaining item) }
        ensures next { self.new ≡ after_reply self.old who (WorkOp.Remaining item) result }
    {
        self.entries += 1;
        let deadline = deadline_of(&self.arms, item);
        Some(WorkReply::Number(remaining(deadline, self.time)))
    }

    fn announce(&mut self, who: Who, ticks: u32) -> Replied
        requires { self.old.entries < most_entries }
        ensures reply { IfOk result (λ reply.
            reply ≡ work_reply self.old who (WorkOp.Announce ticks)) }
        ensures next { IfOk result (λ reply.
            self.new ≡ after_reply self.old who (WorkOp.Announce ticks) reply) }
        ensures unchanged { OnErr result (self.new ≡ self.old) }
    {
        let alloc = *self.arms.allocator();
        let time = self.time + u64::from(ticks);
        let due = due(alloc, &self.arms, time)?;
        let mut expiries = Vec::with_capacity(alloc, due.len())?;
        self.admissions.reserve(due.len())?;
        submit_arms(
            &mut self.admissions,
            &self.marks,
            &self.queues,
            &due,
            &mut expiries,
        );
        expire(&mut self.arms, time);
        self.time = time;
        self.entries += 1;
        Ok(Some(WorkReply::Now(time, Listed::from_vec(expiries))))
    }

    /// Whether the player may end its wait of this place.
    fn may_close(&self, closing: Closing, who: Who, place: u64) -> bool
        ensures { result ≡ may_close self.now closing who place }
    {
        self.waits.iter().any(|w| closes(&self.admissions, &self.queues, closing, who, place, *w))
    }

    /// Ends a wait of the player, if what it awaits has come.
    fn close(&mut self, closing: Closing, who: Who, place: u64) -> bool
        requires { self.old.entries < most_entries }
        ensures may { result ≡ may_close self.old closing who place }
        ensures next { self.new ≡ (if result then closed self.old closing who place else self.old) }
    {
        if !self.may_close(closing, who, place) {
            return false;
        }
        answer(
            &self.admissions,
            &self.queues,
            &mut self.waits,
            closing,
            who,
            place,
        );
        self.entries += 1;
        true
    }

    fn unplug(&mut self, who: Who, queue: u32) -> Option<WorkReply>
        requires { self.old.entries < most_entries }
        ensures reply { result ≡ work_reply self.old who (WorkOp.Unplug queue) }
        ensures next { self.new ≡ after_reply self.old who (WorkOp.Unplug queue) result }
    {
        let reply = unplug_reply(&self.queues, queue);
        change(&mut self.queues, queue, Change::Unplug);
        self.entries += 1;
        Some(reply)
    }

    fn stop(&mut self, who: Who, queue: u32) -> Option<WorkReply>
        requires { self.old.entries < most_entries }
        ensures reply { result ≡ work_reply self.old who (WorkOp.Stop queue) }
        ensures next { self.new ≡ after_reply self.old who (WorkOp.Stop queue) result }
    {
        let idle = is_empty_and_idle(&self.admissions, queue);
        let reply = stop_reply(&self.queues, queue, idle);
        stop(&mut self.queues, queue, idle);
        self.entries += 1;
        Some(reply)
    }

    fn cancel(&mut self, who: Who, item: u32) -> Replied
        requires { self.old.entries < most_entries }
        ensures reply { IfOk result (λ reply.
            reply ≡ Some (WorkReply.Flags (flags_of self.new item))) }
        ensures next { IfOk result (λ reply.
            self.new ≡ after_reply self.old who (WorkOp.Cancel item) reply) }
        ensures unchanged { OnErr result (self.new ≡ self.old) }
    {
        mark(&self.admissions, &mut self.marks, item)?;
        drop_waiting(&mut self.admissions, item);
        disarm(&mut self.arms, item);
        settle(&self.admissions, &mut self.queues);
        self.entries += 1;
        Ok(Some(WorkReply::Flags(self.flags(item).bits())))
    }
}

/// This reply, where the operation is possible.
fn reply_if(possible: bool, reply: WorkReply) -> Option<WorkReply>
    ensures { result ≡ (if possible then Some reply else None) }
{
    if possible { Some(reply) } else { None }
}

/// One operation of the work machine: its reply and its next state.
///
/// `None` says that the operation isn't possible now.
pub fn work_next(
    state: &mut WorkState,
    who: Who,
    op: &WorkOp,
) -> Result<Option<WorkReply>, NoMemory>
    requires { state.old.entries < most_entries }
    ensures reply { IfOk result (λ reply. reply ≡ work_reply state.old who op.now) }
    ensures next { IfOk result (λ reply. state.new ≡ after_reply state.old who op.now reply) }
    ensures unchanged { OnErr result (state.new ≡ state.old) }
{
    match *op {
        WorkOp::Submit(item, named) => state.submit(who, item, named),
        WorkOp::Cancel(item) => state.cancel(who, item),
        WorkOp::CancelStart(item) => state.cancel_start(who, item),
        WorkOp::CancelDone(place) => Ok(reply_if(
            state.close(Closing::Cancel, who, place),
            WorkReply::Truth(true),
        )),
        WorkOp::FlushStart(item) => state.flush_start(who, item),
        WorkOp::FlushDone(place) => Ok(reply_if(
            state.close(Closing::Flush, who, place),
            WorkReply::Truth(true),
        )),
        WorkOp::Schedule(item, queue, delay) => state.schedule(who, item, queue, delay),
        WorkOp::Reschedule(item, queue, delay) => state.reschedule(who, item, queue, delay),
        WorkOp::Remaining(item) => Ok(state.remaining(who, item)),
        WorkOp::Start(queue) => Ok(state.start(who, queue)),
        WorkOp::DrainStart(queue, plug) => state.drain_start(who, queue, plug),
        WorkOp::DrainDone(place) => Ok(reply_if(
            state.close(Closing::Drain, who, place),
            WorkReply::Number(1),
        )),
        WorkOp::Unplug(queue) => Ok(state.unplug(who, queue)),
        WorkOp::Stop(queue) => Ok(state.stop(who, queue)),
        WorkOp::Announce(ticks) => state.announce(who, ticks),
        WorkOp::Begin(queue) => Ok(state.begin(who, queue)),
        WorkOp::End(queue) => Ok(state.end(who, queue)),
    }
}
