ghost use Rattle.std.specs.Prelude.{◌≡◌, true, false, Some, IfOk, OnErr};
ghost use Rattle.zk_base.specs.declared.ids.Who.{Who};
ghost use Rattle.zk_worker.specs.Attempt.{reply_in, is_in_range, Attempted, KeepsElsewhere};
ghost use Rattle.zk_worker.specs.Shown.{IsLater, AreShort};
ghost use Rattle.zk_worker.specs.Looks.{look_reply};
ghost use Rattle.zk_services.specs.Alone.{plain_machines, plain_shown};
ghost use Rattle.zk_services.specs.Memory.{closes};

use crate::objects::{act_at, histories_of};
use std::alloc::Global;
use zk_base::{Entry, Listed, NoMemory, Seen, Service, Who};
use zk_bus::Channel;
use zk_model_bus::{ChanOp, ChanReply, ObsOp, ObsReply, TableOp, TableReply};
use zk_model_wait::{
    ClockOp, ClockReply, MsgqOp, MsgqReply, SemOp, SemReply, SignalOp, SignalReply,
};
use zk_model_work::{WorkOp, WorkReply};
use zk_msgq::Msgq;
use zk_objects::Objects;
use zk_poll::Signal;
use zk_sem::Sem;
use zk_subq::Observer;
use zk_time::Clock;
use zk_work::Work;
use zk_worker::{Services, Step, StepReply};

/// What a service did, oldest first.
pub type History<O, R> = Listed<Entry<O, R>>;

/// All entries of each service, the oldest first.
#[derive(Drop)]
pub struct Histories {
    /// Those of the work service.
    pub work: History<WorkOp, WorkReply>,
    /// Those of the clock.
    pub clock: History<ClockOp, ClockReply>,
    /// Those of the object table.
    pub table: History<TableOp, TableReply>,
    /// Those of each semaphore, by object number; an object of another kind has none.
    pub sems: Listed<History<SemOp, SemReply>>,
    /// Those of each message queue, likewise.
    pub msgqs: Listed<History<MsgqOp, MsgqReply>>,
    /// The writes to each signal, likewise.
    pub signals: Listed<History<SignalOp, SignalReply>>,
    /// Those of each channel, likewise.
    pub chans: Listed<History<ChanOp, ChanReply>>,
    /// Those of each observer, likewise.
    pub observers: Listed<History<ObsOp, ObsReply>>,
}

/// The services of one thread, which nobody else uses, as far as they have come.
#[derive(Drop)]
pub struct Plain {
    /// The work service.
    pub work: Work,
    /// The number of each item at the work service, by object number; an object of another kind has none.
    pub items: Vec<Option<u32>>,
    /// How many steps a player may make.
    pub most: u32,
    /// The clock service.
    pub clock: Clock,
    /// The object table.
    pub table: Objects,
    /// Each semaphore, by object number; an object of another kind has none.
    pub sems: Vec<Option<Sem>>,
    /// Each message queue, likewise.
    pub msgqs: Vec<Option<Msgq>>,
    /// Each signal, likewise.
    pub signals: Vec<Option<Signal>>,
    /// Each channel, likewise.
    pub chans: Vec<Option<Channel>>,
    /// Each listener and subscriber, likewise.
    pub observers: Vec<Option<Observer>>,
}

impl Plain {
    /// All entries of each service. Only the lists of histories take memory.
    pub fn into_histories(self, alloc: Global) -> Result<Histories, NoMemory>
        ensures work { IfOk result (λ all. all.work ≡ (plain_shown self).work) }
        ensures clock { IfOk result (λ all. all.clock ≡ (plain_shown self).clock) }
        ensures table { IfOk result (λ all. all.table ≡ (plain_shown self).table) }
        ensures sems { IfOk result (λ all. all.sems ≡ (plain_shown self).sems) }
        ensures msgqs { IfOk result (λ all. all.msgqs ≡ (plain_shown self).msgqs) }
        ensures signals { IfOk result (λ all. all.signals ≡ (plain_shown self).signals) }
        ensures chans { IfOk result (λ all. all.chans ≡ (plain_shown self).chans) }
        ensures observers { IfOk result (λ all. all.observers ≡ (plain_shown self).observers) }
    {
        Ok(Histories {
            work: History::from_vec(self.work.into_history()),
            clock: History::from_vec(self.clock.into_history()),
            table: History::from_vec(self.table.into_history()),
            sems: histories_of(alloc, self.sems)?,
            msgqs: histories_of(alloc, self.msgqs)?,
            signals: histories_of(alloc, self.signals)?,
            chans: histories_of(alloc, self.chans)?,
            observers: histories_of(alloc, self.observers)?,
        })
    }

    /// One attempt at the work service.
    fn attempt_work(
        &mut self,
        who: Who,
        number: u32,
        op: &WorkOp,
    ) -> Result<Option<StepReply>, NoMemory>
        requires range { is_in_range (plain_machines self.old) (Step.Work op.now) ≡ true }
        requires later { IsLater (plain_shown self.old) who.number number }
        requires short { AreShort (plain_shown self.old) }
        ensures attempted { Attempted true (plain_machines self.old) who number (Step.Work op.now)
            (plain_shown self.old) (plain_shown self.new) result }
        ensures elsewhere { KeepsElsewhere (Step.Work op.now) (plain_shown self.old) (plain_shown self.new) }
        ensures memory { OnErr result (closes (plain_machines self.old) (plain_shown self.new) who (Step.Work op.now) ≡ false) }
        ensures machines { plain_machines self.new ≡ plain_machines self.old }
    {
        let place = self.work.history().len() as u64;
        let reply = self.work.act(who, number, *op)?;
        Ok(reply.map(|reply| StepReply::Work(reply, place)))
    }

    /// One attempt at the clock.
    fn attempt_clock(
        &mut self,
        who: Who,
        number: u32,
        op: &ClockOp,
    ) -> Result<Option<StepReply>, NoMemory>
        requires range { is_in_range (plain_machines self.old) (Step.Clock op.now) ≡ true }
        requires later { IsLater (plain_shown self.old) who.number number }
        requires short { AreShort (plain_shown self.old) }
        ensures attempted { Attempted true (plain_machines self.old) who number (Step.Clock op.now)
            (plain_shown self.old) (plain_shown self.new) result }
        ensures elsewhere { KeepsElsewhere (Step.Clock op.now) (plain_shown self.old) (plain_shown self.new) }
        ensures memory { OnErr result (closes (plain_machines self.old) (plain_shown self.new) who (Step.Clock op.now) ≡ false) }
        ensures machines { plain_machines self.new ≡ plain_machines self.old }
    {
        let place = self.clock.history().len() as u64;
        let reply = self.clock.act(who, number, *op)?;
        Ok(reply.map(|reply| StepReply::Clock(reply, place)))
    }

    /// One attempt at the object table.
    fn attempt_table(
        &mut self,
        who: Who,
        number: u32,
        op: &TableOp,
    ) -> Result<Option<StepReply>, NoMemory>
        requires range { is_in_range (plain_machines self.old) (Step.Table op.now) ≡ true }
        requires later { IsLater (plain_shown self.old) who.number number }
        requires short { AreShort (plain_shown self.old) }
        ensures attempted { Attempted true (plain_machines self.old) who number (Step.Table op.now)
            (plain_shown self.old) (plain_shown self.new) result }
        ensures elsewhere { KeepsElsewhere (Step.Table op.now) (plain_shown self.old) (plain_shown self.new) }
        ensures memory { OnErr result (closes (plain_machines self.old) (plain_shown self.new) who (Step.Table op.now) ≡ false) }
        ensures machines { plain_machines self.new ≡ plain_machines self.old }
    {
        let place = self.table.history().len() as u64;
        let reply = self.table.act(who, number, *op)?;
        Ok(reply.map(|reply| StepReply::Table(reply, place)))
    }

    /// One attempt at a semaphore.
    fn attempt_sem(
        &mut self,
        who: Who,
        number: u32,
        object: u32,
        op: &SemOp,
    ) -> Result<Option<StepReply>, NoMemory>
        requires range { is_in_range (plain_machines self.old) (Step.Sem object op.now) ≡ true }
        requires later { IsLater (plain_shown self.old) who.number number }
        requires short { AreShort (plain_shown self.old) }
        ensures attempted { Attempted true (plain_machines self.old) who number (Step.Sem object op.now)
            (plain_shown self.old) (plain_shown self.new) result }
        ensures elsewhere { KeepsElsewhere (Step.Sem object op.now) (plain_shown self.old) (plain_shown self.new) }
        ensures memory { OnErr result (closes (plain_machines self.old) (plain_shown self.new) who (Step.Sem object op.now) ≡ false) }
        ensures machines { plain_machines self.new ≡ plain_machines self.old }
    {
        let made = act_at(&mut self.sems, object, who, number, *op)?;
        Ok(made.map(|made| StepReply::Sem(object, made.0, made.1)))
    }

    /// One attempt at a message queue.
    fn attempt_msgq(
        &mut self,
        who: Who,
        number: u32,
        object: u32,
        op: &MsgqOp,
    ) -> Result<Option<StepReply>, NoMemory>
        requires range { is_in_range (plain_machines self.old) (Step.Msgq object op.now) ≡ true }
        requires later { IsLater (plain_shown self.old) who.number number }
        requires short { AreShort (plain_shown self.old) }
        ensures attempted { Attempted true (plain_machines self.old) who number (Step.Msgq object op.now)
            (plain_shown self.old) (plain_shown self.new) result }
        ensures elsewhere { KeepsElsewhere (Step.Msgq object op.now) (plain_shown self.old) (plain_shown self.new) }
        ensures memory { OnErr result (closes (plain_machines self.old) (plain_shown self.new) who (Step.Msgq object op.now) ≡ false) }
        ensures machines { plain_machines self.new ≡ plain_machines self.old }
    {
        let made = act_at(&mut self.msgqs, object, who, number, *op)?;
        Ok(made.map(|made| StepReply::Msgq(object, made.0, made.1)))
    }

    /// One attempt at a signal.
    fn attempt_signal(
        &mut self,
        who: Who,
        number: u32,
        object: u32,
        op: &SignalOp,
    ) -> Result<Option<StepReply>, NoMemory>
        requires range { is_in_range (plain_machines self.old) (Step.Signal object op.now) ≡ true }
        requires later { IsLater (plain_shown self.old) who.number number }
        requires short { AreShort (plain_shown self.old) }
        ensures attempted { Attempted true (plain_machines self.old) who number (Step.Signal object op.now)
            (plain_shown self.old) (plain_shown self.new) result }
        ensures elsewhere { KeepsElsewhere (Step.Signal object op.now) (plain_shown self.old) (plain_shown self.new) }
        ensures memory { OnErr result (closes (plain_machines self.old) (plain_shown self.new) who (Step.Signal object op.now) ≡ false) }
        ensures machines { plain_machines self.new ≡ plain_machines self.old }
    {
        let made = act_at(&mut self.signals, object, who, number, *op)?;
        Ok(made.map(|made| StepReply::Signal(object, made.0, made.1)))
    }

    /// One attempt at a channel.
    fn attempt_chan(
        &mut self,
        who: Who,
        number: u32,
        object: u32,
        op: &ChanOp,
    ) -> Result<Option<StepReply>, NoMemory>
        requires range { is_in_range (plain_machines self.old) (Step.Chan object op.now) ≡ true }
        requires later { IsLater (plain_shown self.old) who.number number }
        requires short { AreShort (plain_shown self.old) }
        ensures attempted { Attempted true (plain_machines self.old) who number (Step.Chan object op.now)
            (plain_shown self.old) (plain_shown self.new) result }
        ensures elsewhere { KeepsElsewhere (Step.Chan object op.now) (plain_shown self.old) (plain_shown self.new) }
        ensures memory { OnErr result (closes (plain_machines self.old) (plain_shown self.new) who (Step.Chan object op.now) ≡ false) }
        ensures machines { plain_machines self.new ≡ plain_machines self.old }
    {
        let made = act_at(&mut self.chans, object, who, number, *op)?;
        Ok(made.map(|made| StepReply::Chan(object, made.0, made.1)))
    }

    /// One attempt at an observer.
    fn attempt_observer(
        &mut self,
        who: Who,
        number: u32,
        object: u32,
        op: &ObsOp,
    ) -> Result<Option<StepReply>, NoMemory>
        requires range { is_in_range (plain_machines self.old) (Step.Obs object op.now) ≡ true }
        requires later { IsLater (plain_shown self.old) who.number number }
        requires short { AreShort (plain_shown self.old) }
        ensures attempted { Attempted true (plain_machines self.old) who number (Step.Obs object op.now)
            (plain_shown self.old) (plain_shown self.new) result }
        ensures elsewhere { KeepsElsewhere (Step.Obs object op.now) (plain_shown self.old) (plain_shown self.new) }
        ensures memory { OnErr result (closes (plain_machines self.old) (plain_shown self.new) who (Step.Obs object op.now) ≡ false) }
        ensures machines { plain_machines self.new ≡ plain_machines self.old }
    {
        let made = act_at(&mut self.observers, object, who, number, *op)?;
        Ok(made.map(|made| StepReply::Obs(object, made.0, made.1)))
    }

    /// The busy flags of the item of this object number, and how many entries the work service has.
    fn look_at_item(&self, object: u32) -> StepReply
        requires { is_in_range (plain_machines self.now) (Step.LookItem object) ≡ true }
        ensures { (who : Who) →
            reply_in (plain_machines self.now) (plain_shown self.now) who (Step.LookItem object) ≡ Some result }
    {
        let Some(Some(item)) = self.items.get(object as usize) else {
            unreachable!()
        };
        let flags = self.work.word(*item) as u8;
        StepReply::Flags(flags, self.work.history().len() as u64)
    }

    /// What was last written to the signal of this object number. Nothing comes where it has to be raised and isn't.
    fn look_at_signal(&self, object: u32, must: bool) -> Option<StepReply>
        requires { is_in_range (plain_machines self.now) (Step.LookSignal object must) ≡ true }
        ensures { (who : Who) →
            reply_in (plain_machines self.now) (plain_shown self.now) who (Step.LookSignal object must) ≡ result }
    {
        let Some(Some(signal)) = self.signals.get(object as usize) else {
            unreachable!()
        };
        told(must, signal.seen())
    }
}

/// What a look that found this is answered: nothing where it has to find the signal raised and doesn't.
fn told(must: bool, seen: Seen) -> Option<StepReply>
    ensures { result ≡ look_reply must seen }
{
    if must && !seen.raised {
        return None;
    }
    Some(StepReply::Seen(seen))
}

impl Services for Plain {
    type Home = ();

    ghost use Rattle.std.specs.Prelude.{true, ◌-◌, ◌^◌};
    ghost use Rattle.zk_services.specs.Alone.{plain_machines, plain_shown};
    ghost use Rattle.zk_services.specs.Memory.{closes};

    ghost home = { λ p. tt };

    ghost machines = { plain_machines };

    ghost serves = { λ p who. Unit {0} };

    ghost alone = { λ p. true };

    ghost shown = { plain_shown };

    ghost wants_none = { closes };

    // Nothing is counted: each count stands at the most that it can be.
    ghost counts = { λ p step. 2 ^ 64 - 1 };

    fn attempt(
        &mut self,
        who: Who,
        number: u32,
        step: &Step,
    ) -> Result<Option<StepReply>, NoMemory> {
        match step {
            Step::Work(op) => self.attempt_work(who, number, op),
            Step::Clock(op) => self.attempt_clock(who, number, op),
            Step::Table(op) => self.attempt_table(who, number, op),
            Step::Sem(object, op) => self.attempt_sem(who, number, *object, op),
            Step::Msgq(object, op) => self.attempt_msgq(who, number, *object, op),
            Step::Signal(object, op) => self.attempt_signal(who, number, *object, op),
            Step::Chan(object, op) => self.attempt_chan(who, number, *object, op),
            Step::Obs(object, op) => self.attempt_observer(who, number, *object, op),
            Step::LookItem(object) => Ok(Some(self.look_at_item(*object))),
            Step::LookSignal(object, must) => Ok(self.look_at_signal(*object, *must)),
        }
    }
}
