ghost use Rattle.std.specs.Prelude.{◌≡◌, ◌+◌, ◌-◌, ◌^◌, ◌<◌, ◌≤◌, false, IsOk, IfOk, OnErr};
ghost use Rattle.zk_base.specs.Limits.{most_entries};
ghost use Rattle.zk_model_trigger.specs.Machine.{new_triggers, trigger_reply, after_reply, may_grow};

use crate::changes::{
    add_event, add_fire, add_fires, born, change_all, chosen, deadline_after, remove_event,
};
use crate::questions::{first_cause, has_live, has_waiting, told_fire};
use crate::{Arm, Armed, Change, Fire, Occasion, TriggerOp, TriggerReply};
use std::alloc::Global;
use std::marker::Model;
use zk_base::{Few, NoMemory, Who, push_within};

/// What an operation answers, where there is memory: its reply, where it is possible.
type Replied = Result<Option<TriggerReply>, NoMemory>;

/// The state of the machine of triggers, which contracts see as its definition has it. No arm is ever forgotten.
#[derive(Drop)]
pub struct TriggerState {
    now: u64,
    entries: u64,
    ready: Vec<u32>,
    arms: Vec<Armed>,
    fires: Vec<Fire>,
}

impl Model for TriggerState {
    ghost use Rattle.std.specs.Prelude.{length};
    ghost use Rattle.zk_model_trigger.specs.Machine.{Triggers, IsTimely};

    ghost Value = { Triggers };

    ghost view = { λ a. record {
      now = a.now;
      entries = a.entries;
      ready = a.ready.items;
      arms = a.arms.items;
      fires = a.fires.items;
    } };

    ghost invariant = { λ a. IsTimely a.now a.entries (length a.arms.items) };
}

impl TriggerState {
    /// The state before the first entry: nothing is armed or ready, at time 0. It takes no memory.
    pub fn new(alloc: Global) -> TriggerState
        ensures { result ≡ new_triggers }
    {
        TriggerState {
            now: 0,
            entries: 0,
            ready: Vec::new(alloc),
            arms: Vec::new(alloc),
            fires: Vec::new(alloc),
        }
    }

    fn arm(&mut self, who: Who, item: u32, queue: u32, events: Few, ticks: Option<u32>) -> Replied
        requires { self.old.entries < most_entries }
        ensures reply { IfOk result (λ reply.
            reply ≡ trigger_reply self.old who (TriggerOp.Arm item queue events ticks)) }
        ensures next { IfOk result (λ reply.
            self.new ≡ after_reply self.old who (TriggerOp.Arm item queue events ticks) reply) }
        ensures unchanged { OnErr result (self.new ≡ self.old) }
    {
        if has_live(&self.arms, item) {
            self.entries += 1;
            return Ok(Some(TriggerReply::Busy));
        }
        let number = self.arms.len() as u64;
        let arm = Arm {
            number,
            item,
            queue,
            events,
            deadline: deadline_after(self.now, ticks),
        };
        let cause = first_cause(&self.ready, self.now, &arm);
        self.arms.reserve(1)?;
        add_fire(&mut self.fires, &arm, cause)?;
        push_within(
            &mut self.arms,
            Armed {
                arm,
                life: born(cause),
            },
        );
        self.entries += 1;
        Ok(Some(TriggerReply::Armed(number)))
    }

    fn post(&mut self, who: Who, event: u32) -> Replied
        requires { self.old.entries < most_entries }
        ensures reply { IfOk result (λ reply. reply ≡ trigger_reply self.old who (TriggerOp.Post event)) }
        ensures next { IfOk result (λ reply.
            self.new ≡ after_reply self.old who (TriggerOp.Post event) reply) }
        ensures unchanged { OnErr result (self.new ≡ self.old) }
    {
        let alloc = *self.arms.allocator();
        let occasion = Occasion::Posted(event);
        let chosen = chosen(alloc, &self.arms, occasion)?;
        self.fires.reserve(chosen.len())?;
        add_event(&mut self.ready, event)?;
        add_fires(&mut self.fires, &chosen, occasion.cause());
        change_all(&mut self.arms, Change::Fire(occasion));
        self.entries += 1;
        Ok(Some(TriggerReply::Done))
    }

    fn unpost(&mut self, who: Who, event: u32) -> Option<TriggerReply>
        requires { self.old.entries < most_entries }
        ensures reply { result ≡ trigger_reply self.old who (TriggerOp.Unpost event) }
        ensures next { self.new ≡ after_reply self.old who (TriggerOp.Unpost event) result }
    {
        remove_event(&mut self.ready, event);
        self.entries += 1;
        Some(TriggerReply::Done)
    }

    fn tick(&mut self, who: Who, ticks: u32) -> Replied
        requires { self.old.entries < most_entries }
        ensures reply { IfOk result (λ reply. reply ≡ trigger_reply self.old who (TriggerOp.Tick ticks)) }
        ensures next { IfOk result (λ reply.
            self.new ≡ after_reply self.old who (TriggerOp.Tick ticks) reply) }
        ensures unchanged { OnErr result (self.new ≡ self.old) }
    {
        let alloc = *self.arms.allocator();
        let now = self.now + u64::from(ticks);
        let occasion = Occasion::Reached(now);
        let chosen = chosen(alloc, &self.arms, occasion)?;
        self.fires.reserve(chosen.len())?;
        add_fires(&mut self.fires, &chosen, occasion.cause());
        change_all(&mut self.arms, Change::Fire(occasion));
        self.now = now;
        self.entries += 1;
        Ok(Some(TriggerReply::Now(now)))
    }

    fn cancel(&mut self, who: Who, item: u32) -> Option<TriggerReply>
        requires { self.old.entries < most_entries }
        ensures reply { result ≡ trigger_reply self.old who (TriggerOp.Cancel item) }
        ensures next { self.new ≡ after_reply self.old who (TriggerOp.Cancel item) result }
    {
        let waits = has_waiting(&self.arms, item);
        change_all(&mut self.arms, Change::Cancel(item));
        self.entries += 1;
        Some(if waits {
            TriggerReply::Done
        } else {
            TriggerReply::Inval
        })
    }

    fn next(&mut self, who: Who) -> Option<TriggerReply>
        requires { self.old.entries < most_entries }
        ensures reply { result ≡ trigger_reply self.old who TriggerOp.Next }
        ensures next { self.new ≡ after_reply self.old who TriggerOp.Next result }
    {
        if self.fires.is_empty() {
            return None;
        }
        let fire = self.fires.remove(0);
        change_all(&mut self.arms, Change::Take(fire.arm.item));
        self.entries += 1;
        Some(told_fire(&fire))
    }
}

/// One operation of the machine of triggers: its reply and its next state.
///
/// `None` says that the operation isn't possible now, which only `Next` may be.
pub fn trigger_next(
    state: &mut TriggerState,
    who: Who,
    op: &TriggerOp,
) -> Result<Option<TriggerReply>, NoMemory>
    requires { state.old.entries < most_entries }
    ensures reply { IfOk result (λ reply. reply ≡ trigger_reply state.old who op.now) }
    ensures next { IfOk result (λ reply. state.new ≡ after_reply state.old who op.now reply) }
    ensures unchanged { OnErr result (state.new ≡ state.old) }
    ensures memory { may_grow op.now ≡ false → IsOk result }
{
    match *op {
        TriggerOp::Arm(item, queue, events, ticks) => state.arm(who, item, queue, events, ticks),
        TriggerOp::Post(event) => state.post(who, event),
        TriggerOp::Unpost(event) => Ok(state.unpost(who, event)),
        TriggerOp::Tick(ticks) => state.tick(who, ticks),
        TriggerOp::Cancel(item) => Ok(state.cancel(who, item)),
        TriggerOp::Next => Ok(state.next(who)),
    }
}
