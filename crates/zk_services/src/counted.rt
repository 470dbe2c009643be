ghost use Rattle.std.specs.Prelude.{◌≡◌, ℕ, true, None};
ghost use Rattle.zk_worker.specs.declared.steps.StepReply.{StepReply};
ghost use Rattle.zk_worker.specs.Attempt.{reply_in};
ghost use Rattle.zk_worker.specs.Families.{answer_at};
ghost use Rattle.zk_services.specs.Counted.{service_of, count_at, entries_at, frees, freed_last, may_serve};
ghost use Rattle.zk_services.specs.Objects.{starts_of, histories_of};
ghost use Rattle.zk_bus.specs.Seen.{chan_history};

use crate::plain::Plain;
use zk_base::{Service, Who};
use zk_bus::Channel;
use zk_model_bus::ChanOp;
use zk_worker::{Services, Step};

/// One of the services of a scenario; an object's is named by the object's number.
#[derive(Clone, Copy)]
pub enum ServiceId {
    /// The work service.
    Work,
    /// The clock.
    Clock,
    /// The object table.
    Table,
    /// A semaphore.
    Sem(u32),
    /// A message queue.
    Msgq(u32),
    /// A signal.
    Signal(u32),
    /// A channel.
    Chan(u32),
    /// A listener or a subscriber.
    Obs(u32),
}

/// The service that a step asks. A look at an item asks the work service.
pub fn service_of(step: &Step) -> ServiceId
    ensures { result ≡ service_of step.now }
{
    match step {
        Step::Work(_) => ServiceId::Work,
        Step::Clock(_) => ServiceId::Clock,
        Step::Table(_) => ServiceId::Table,
        Step::Sem(object, _) => ServiceId::Sem(*object),
        Step::Msgq(object, _) => ServiceId::Msgq(*object),
        Step::Signal(object, _) => ServiceId::Signal(*object),
        Step::Chan(object, _) => ServiceId::Chan(*object),
        Step::Obs(object, _) => ServiceId::Obs(*object),
        Step::LookItem(_) => ServiceId::Work,
        Step::LookSignal(object, _) => ServiceId::Signal(*object),
    }
}

/// Services that tell how many entries each of them has.
pub trait Counted: Services {
    /// How many entries a service has; where there is no such object, 0.
    fn entries(&self, service: ServiceId) -> u64
        ensures { result ≡ entries_at (Self.shown self.now) service };

    /// Whether the last entry of a service may have made a step of another player possible. It may say so where none has.
    fn may_serve(&self, service: ServiceId) -> bool
        ensures { result ≡ may_serve (Self.shown self.now) service };

    /// Whether it is plain that this step isn't possible now, so that an attempt would be in vain. It may say no where it
    /// would be.
    fn is_futile(&self, who: Who, step: &Step) -> bool
        ensures { result ≡ true → reply_in (Self.machines self.now) (Self.shown self.now) who step.now ≡ None };
}

/// How many entries an object of a kind has, by object number; one of another kind has none.
fn entries_of<S: Service>(objects: &Vec<Option<S>>, object: u32) -> u64
    ensures { result ≡ count_at (histories_of S.history objects.now.items) object }
{
    match objects.get(object as usize) {
        Some(Some(service)) => service.history().len() as u64,
        _ => 0,
    }
}

/// Whether it is plain that one of the objects of a kind, which stand by object number, doesn't let this operation stand now.
fn is_futile_at<S: Service>(objects: &Vec<Option<S>>, object: u32, who: Who, op: &S::Op) -> bool
    ensures { result ≡ true → (step_reply : ℕ → S.Reply → ℕ → StepReply) →
        answer_at (record { machine = S.machine; starts = starts_of S.start objects.now.items })
        (histories_of S.history objects.now.items) step_reply who object op.now ≡ None }
{
    match objects.get(object as usize) {
        Some(Some(service)) => service.is_futile(who, op),
        _ => false,
    }
}

/// Whether a channel may go to somebody who waits by this operation.
#[inline(always)]
fn frees(op: &ChanOp) -> bool
    ensures { result ≡ frees op.now }
{
    matches!(op, ChanOp::Free | ChanOp::Finish)
}

/// Whether the last entry of a channel may be one by which it went to somebody who waits.
#[inline(always)]
fn freed_last(chans: &Vec<Option<Channel>>, object: u32) -> bool
    ensures { result ≡ freed_last (histories_of chan_history chans.now.items) object }
{
    match chans.get(object as usize) {
        Some(Some(channel)) => match channel.history().last() {
            Some(entry) => frees(&entry.op),
            None => true,
        },
        _ => true,
    }
}

impl Counted for Plain {
    // In line: each turn of a player that waits asks this.
    #[inline(always)]
    fn entries(&self, service: ServiceId) -> u64 {
        match service {
            ServiceId::Work => self.work.history().len() as u64,
            ServiceId::Clock => self.clock.history().len() as u64,
            ServiceId::Table => self.table.history().len() as u64,
            ServiceId::Sem(object) => entries_of(&self.sems, object),
            ServiceId::Msgq(object) => entries_of(&self.msgqs, object),
            ServiceId::Signal(object) => entries_of(&self.signals, object),
            ServiceId::Chan(object) => entries_of(&self.chans, object),
            ServiceId::Obs(object) => entries_of(&self.observers, object),
        }
    }

    #[inline(always)]
    fn may_serve(&self, service: ServiceId) -> bool {
        match service {
            ServiceId::Chan(object) => freed_last(&self.chans, object),
            _ => true,
        }
    }

    fn is_futile(&self, who: Who, step: &Step) -> bool {
        match step {
            Step::Clock(op) => self.clock.is_futile(who, op),
            Step::Sem(object, op) => is_futile_at(&self.sems, *object, who, op),
            Step::Msgq(object, op) => is_futile_at(&self.msgqs, *object, who, op),
            Step::Chan(object, op) => is_futile_at(&self.chans, *object, who, op),
            Step::Obs(object, op) => is_futile_at(&self.observers, *object, who, op),
            _ => false,
        }
    }
}
