ghost use Rattle.std.specs.Prelude.{◌≡◌, ◌<◌, ◌≤◌, true, List, slice_get, option_map, length};
ghost use Rattle.zk_line.specs.Calls.{word_of};
ghost use Rattle.zk_line.specs.declared.types.Decl.{Decl};
ghost use Rattle.zk_worker.specs.Calls.{plan_of, closing_step, plan_attempts, plan_progress};
ghost use Rattle.zk_worker.specs.Moves.{IsDone};
ghost use Rattle.zk_worker.specs.OneStep.{is_one, makes_one, makes_one_at_work, makes_one_at_table};
ghost use Rattle.zk_worker.specs.Refs.{ref_object, ref_number};

use crate::moves::answer_by;
use crate::polls::{poll_ahead, poll_goes_on};
use crate::publishes::{channel_ahead, channel_goes_on};
use crate::refs::{queue_number, ref_number, ref_object};
use crate::waits::{open_wait, wait_ahead, wait_goes_on};
use crate::{AnswerRows, Closing, Moved, Plan, Stage, Step, StepReply, Using, Waiting, Word};
use zk_base::Msg;
use zk_model_bus::{ChanOp, ObsOp, TableOp};
use zk_model_wait::{ClockOp, MsgqOp, SemOp, SignalOp};
use zk_model_work::WorkOp;
use zk_scenario::{Call, Ref, Scenario};
use zk_words::Timeout;

/// The step that ends a wait begun by the entry of this place.
fn closing_step(closing: Closing, place: u64) -> Step
    ensures { result ≡ closing_step closing place }
{
    match closing {
        Closing::Cancel => Step::Work(WorkOp::CancelDone(place)),
        Closing::Flush => Step::Work(WorkOp::FlushDone(place)),
        Closing::Drain => Step::Work(WorkOp::DrainDone(place)),
    }
}

/// The attempt of this index of a call that makes one step.
fn one(step: &Step, stage: &Stage, index: u32) -> Option<Step>
    ensures { result ≡ slice_get (plan_attempts (Plan.One step.now) stage.now) index }
{
    match stage {
        Stage::Start if index == 0 => Some(*step),
        _ => None,
    }
}

/// The attempt of this index of a call that makes a step and perhaps the one that ends its wait.
fn pair(opening: &Step, closing: Closing, stage: &Stage, index: u32) -> Option<Step>
    ensures { result ≡ slice_get (plan_attempts (Plan.Pair opening.now closing) stage.now) index }
{
    match stage {
        Stage::Start if index == 0 => Some(*opening),
        Stage::Waits(place) if index == 0 => Some(closing_step(closing, *place)),
        _ => None,
    }
}

/// The attempt of this index of a call that makes two steps.
fn twice(first: &Step, second: &Step, stage: &Stage, index: u32) -> Option<Step>
    ensures { result ≡ slice_get (plan_attempts (Plan.Twice first.now second.now) stage.now) index }
{
    match stage {
        Stage::Start if index == 0 => Some(*first),
        Stage::Halfway if index == 0 => Some(*second),
        _ => None,
    }
}

fn submit(scenario: &Scenario, item: Ref, queue: Option<Ref>) -> WorkOp
    ensures { result ≡ WorkOp.Submit
        (ref_number scenario.now.decls item) (option_map (ref_number scenario.now.decls) queue) }
{
    WorkOp::Submit(ref_number(scenario, item), queue_number(scenario, queue))
}

fn schedule(scenario: &Scenario, item: Ref, queue: Ref, delay: u32) -> WorkOp
    ensures { result ≡ WorkOp.Schedule
        (ref_number scenario.now.decls item) (ref_number scenario.now.decls queue) delay }
{
    WorkOp::Schedule(
        ref_number(scenario, item),
        ref_number(scenario, queue),
        delay,
    )
}

fn reschedule(scenario: &Scenario, item: Ref, queue: Ref, delay: u32) -> WorkOp
    ensures { result ≡ WorkOp.Reschedule
        (ref_number scenario.now.decls item) (ref_number scenario.now.decls queue) delay }
{
    WorkOp::Reschedule(
        ref_number(scenario, item),
        ref_number(scenario, queue),
        delay,
    )
}

/// A call of the work service that may wait.
// An attempt is put where it is kept, here and below: it is large, and would be moved once for each layer.
fn work_wait(opening: WorkOp, closing: Closing, stage: &Stage, index: u32, ahead: &mut Option<Step>)
    ensures { ahead.new ≡ slice_get (plan_attempts (Plan.Pair (Step.Work opening) closing) stage.now) index }
{
    *ahead = pair(&Step::Work(opening), closing, stage, index);
}

/// A call that cancels an item, and waits for the end of its run.
fn cancel_sync(scenario: &Scenario, item: Ref, stage: &Stage, index: u32, ahead: &mut Option<Step>)
    ensures { ahead.new ≡ slice_get (plan_attempts (Plan.Pair
        (Step.Work (WorkOp.CancelStart (ref_number scenario.now.decls item))) Closing.Cancel) stage.now) index }
{
    let opening = WorkOp::CancelStart(ref_number(scenario, item));
    work_wait(opening, Closing::Cancel, stage, index, ahead);
}

/// A call that waits until the last submission of an item has run.
fn flush(scenario: &Scenario, item: Ref, stage: &Stage, index: u32, ahead: &mut Option<Step>)
    ensures { ahead.new ≡ slice_get (plan_attempts (Plan.Pair
        (Step.Work (WorkOp.FlushStart (ref_number scenario.now.decls item))) Closing.Flush) stage.now) index }
{
    let opening = WorkOp::FlushStart(ref_number(scenario, item));
    work_wait(opening, Closing::Flush, stage, index, ahead);
}

/// A call that waits until a queue is empty, and may plug it.
fn drain(
    scenario: &Scenario,
    queue: Ref,
    plug: bool,
    stage: &Stage,
    index: u32,
    ahead: &mut Option<Step>,
)
    ensures { ahead.new ≡ slice_get (plan_attempts (Plan.Pair
        (Step.Work (WorkOp.DrainStart (ref_number scenario.now.decls queue) plug)) Closing.Drain) stage.now) index }
{
    let opening = WorkOp::DrainStart(ref_number(scenario, queue), plug);
    work_wait(opening, Closing::Drain, stage, index, ahead);
}

/// Both services that have a time go on by so many ticks.
fn tick(ticks: u32, stage: &Stage, index: u32, ahead: &mut Option<Step>)
    ensures { ahead.new ≡ slice_get (plan_attempts (Plan.Twice
        (Step.Work (WorkOp.Announce ticks)) (Step.Clock (ClockOp.Announce ticks))) stage.now) index }
{
    let first = Step::Work(WorkOp::Announce(ticks));
    let second = Step::Clock(ClockOp::Announce(ticks));
    *ahead = twice(&first, &second, stage, index);
}

/// A call that takes a semaphore.
fn take(sem: Ref, timeout: Timeout, stage: &Stage, index: u32, ahead: &mut Option<Step>)
    ensures { ahead.new ≡ slice_get
        (plan_attempts (Plan.Wait (Waiting.Take (ref_object sem)) timeout) stage.now) index }
{
    wait_ahead(
        &Waiting::Take(ref_object(sem)),
        timeout,
        stage,
        index,
        ahead,
    );
}

/// A call that gets a message.
fn get(queue: Ref, timeout: Timeout, stage: &Stage, index: u32, ahead: &mut Option<Step>)
    ensures { ahead.new ≡ slice_get
        (plan_attempts (Plan.Wait (Waiting.Get (ref_object queue)) timeout) stage.now) index }
{
    wait_ahead(
        &Waiting::Get(ref_object(queue)),
        timeout,
        stage,
        index,
        ahead,
    );
}

/// A call that claims a channel.
fn claim(chan: Ref, timeout: Timeout, stage: &Stage, index: u32, ahead: &mut Option<Step>)
    ensures { ahead.new ≡ slice_get
        (plan_attempts (Plan.Wait (Waiting.Claim (ref_object chan)) timeout) stage.now) index }
{
    wait_ahead(
        &Waiting::Claim(ref_object(chan)),
        timeout,
        stage,
        index,
        ahead,
    );
}

/// A call that waits for a subscriber's next channel.
fn wait_at_sub(sub: Ref, timeout: Timeout, stage: &Stage, index: u32, ahead: &mut Option<Step>)
    ensures { ahead.new ≡ slice_get
        (plan_attempts (Plan.Wait (Waiting.SubWait (ref_object sub)) timeout) stage.now) index }
{
    wait_ahead(
        &Waiting::SubWait(ref_object(sub)),
        timeout,
        stage,
        index,
        ahead,
    );
}

/// A call that puts a message.
fn put_message(
    queue: Ref,
    message: &Msg,
    timeout: Timeout,
    stage: &Stage,
    index: u32,
    ahead: &mut Option<Step>,
)
    ensures { ahead.new ≡ slice_get
        (plan_attempts (Plan.Wait (Waiting.Put (ref_object queue) message.now) timeout) stage.now) index }
{
    wait_ahead(
        &Waiting::Put(ref_object(queue), *message),
        timeout,
        stage,
        index,
        ahead,
    );
}

/// A call that publishes a message.
fn publish(
    chan: Ref,
    message: &Msg,
    timeout: Timeout,
    stage: &Stage,
    index: u32,
    ahead: &mut Option<Step>,
)
    ensures { ahead.new ≡ slice_get
        (plan_attempts (Plan.Channel (ref_object chan) (Using.Publish message.now) timeout) stage.now) index }
{
    channel_ahead(
        ref_object(chan),
        &Using::Publish(*message),
        timeout,
        stage,
        index,
        ahead,
    );
}

/// A call that notifies the observers of a channel.
fn notify(chan: Ref, timeout: Timeout, stage: &Stage, index: u32, ahead: &mut Option<Step>)
    ensures { ahead.new ≡ slice_get
        (plan_attempts (Plan.Channel (ref_object chan) Using.Notify timeout) stage.now) index }
{
    channel_ahead(
        ref_object(chan),
        &Using::Notify,
        timeout,
        stage,
        index,
        ahead,
    );
}

/// A call that reads the message of a channel.
fn read(chan: Ref, timeout: Timeout, stage: &Stage, index: u32, ahead: &mut Option<Step>)
    ensures { ahead.new ≡ slice_get
        (plan_attempts (Plan.Channel (ref_object chan) Using.Read timeout) stage.now) index }
{
    channel_ahead(ref_object(chan), &Using::Read, timeout, stage, index, ahead);
}

/// A step at the work service that names one item or one queue.
macro_rules! one_named {
    ($op:ident, $named:expr; $scenario:expr) => {
        WorkOp::$op(ref_number($scenario, *$named))
    };
}

/// The operation of a call that makes one step at the work service.
fn work_op(scenario: &Scenario, call: &Call) -> WorkOp
    requires { makes_one_at_work call.now ≡ true }
    ensures { plan_of scenario.now.decls call.now ≡ Plan.One (Step.Work result) }
{
    match call {
        Call::Submit(item, queue) => submit(scenario, *item, *queue),
        Call::Cancel(item) => one_named!(Cancel, item; scenario),
        Call::Schedule(item, queue, delay) => schedule(scenario, *item, *queue, *delay),
        Call::Reschedule(item, queue, delay) => reschedule(scenario, *item, *queue, *delay),
        Call::Remaining(item) => one_named!(Remaining, item; scenario),
        Call::Start(queue) => one_named!(Start, queue; scenario),
        Call::Unplug(queue) => one_named!(Unplug, queue; scenario),
        Call::Stop(queue) => one_named!(Stop, queue; scenario),
        _ => unreachable!(),
    }
}

/// The operation of a call at the object table.
fn table_op(call: &Call) -> TableOp
    requires { makes_one_at_table call.now ≡ true }
    ensures { (decls : List Decl) → plan_of decls call.now ≡ Plan.One (Step.Table result) }
{
    match call {
        Call::Grant(thread, object) => TableOp::Grant(ref_object(*thread), ref_object(*object)),
        Call::Release(object) => TableOp::Release(ref_object(*object)),
        Call::Revoke(thread, object) => TableOp::Revoke(ref_object(*thread), ref_object(*object)),
        Call::Public(object) => TableOp::Public(ref_object(*object)),
        Call::Init(object) => TableOp::Init(ref_object(*object)),
        Call::User => TableOp::EnterUser,
        _ => unreachable!(),
    }
}

fn mask(observer: Ref, on: bool) -> ChanOp
    ensures { result ≡ ChanOp.Mask (ref_object observer) on }
{
    ChanOp::Mask(ref_object(observer), on)
}

/// The step of a call that makes one.
fn only_step(scenario: &Scenario, call: &Call) -> Step
    requires { makes_one call.now ≡ true }
    ensures { plan_of scenario.now.decls call.now ≡ Plan.One result }
{
    match call {
        Call::Busy(item) => Step::LookItem(ref_object(*item)),
        Call::Give(sem) => Step::Sem(ref_object(*sem), SemOp::Give),
        Call::Reset(sem) => Step::Sem(ref_object(*sem), SemOp::Reset),
        Call::Count(sem) => Step::Sem(ref_object(*sem), SemOp::Count),
        Call::PutFront(queue, message) => {
            Step::Msgq(ref_object(*queue), MsgqOp::PutFront(*message))
        }
        Call::Peek(queue) => Step::Msgq(ref_object(*queue), MsgqOp::Peek),
        Call::PeekAt(queue, place) => Step::Msgq(ref_object(*queue), MsgqOp::PeekAt(*place)),
        Call::Purge(queue) => Step::Msgq(ref_object(*queue), MsgqOp::Purge),
        Call::Used(queue) => Step::Msgq(ref_object(*queue), MsgqOp::Used),
        Call::Free(queue) => Step::Msgq(ref_object(*queue), MsgqOp::Free),
        Call::Raise(signal, value) => Step::Signal(ref_object(*signal), SignalOp::Raise(*value)),
        Call::Clear(signal) => Step::Signal(ref_object(*signal), SignalOp::Clear),
        Call::Check(signal) => Step::LookSignal(ref_object(*signal), false),
        Call::Finish(chan) => Step::Chan(ref_object(*chan), ChanOp::Finish),
        Call::Mask(chan, observer, on) => Step::Chan(ref_object(*chan), mask(*observer, *on)),
        Call::Enable(observer, on) => Step::Obs(ref_object(*observer), ObsOp::Enable(*on)),
        Call::Grant(_, _)
        | Call::Release(_)
        | Call::Revoke(_, _)
        | Call::Public(_)
        | Call::Init(_)
        | Call::User => Step::Table(table_op(call)),
        _ => Step::Work(work_op(scenario, call)),
    }
}

/// Puts the attempt of this index among the next attempts of a call.
// No plan is made of the call, since that would be moved about, and is large.
pub fn call_ahead(
    scenario: &Scenario,
    call: &Call,
    stage: &Stage,
    index: u32,
    ahead: &mut Option<Step>,
)
    ensures { ahead.new ≡ slice_get (plan_attempts (plan_of scenario.now.decls call.now) stage.now) index }
{
    match call {
        Call::CancelSync(item) => cancel_sync(scenario, *item, stage, index, ahead),
        Call::Flush(item) => flush(scenario, *item, stage, index, ahead),
        Call::Drain(queue, plug) => drain(scenario, *queue, *plug, stage, index, ahead),
        Call::Tick(ticks) => tick(*ticks, stage, index, ahead),
        Call::Take(sem, timeout) => take(*sem, *timeout, stage, index, ahead),
        Call::Put(queue, message, timeout) => put_message(
            *queue, message, *timeout, stage, index, ahead,
        ),
        Call::Get(queue, timeout) => get(*queue, *timeout, stage, index, ahead),
        Call::Poll(timeout, events) => poll_ahead(*timeout, events, stage, index, ahead),
        Call::Claim(chan, timeout) => claim(*chan, *timeout, stage, index, ahead),
        Call::SubWait(sub, timeout) => wait_at_sub(*sub, *timeout, stage, index, ahead),
        Call::Publish(chan, message, timeout) => publish(
            *chan, message, *timeout, stage, index, ahead,
        ),
        Call::Notify(chan, timeout) => notify(*chan, *timeout, stage, index, ahead),
        Call::Read(chan, timeout) => read(*chan, *timeout, stage, index, ahead),
        _ => *ahead = one(&only_step(scenario, call), stage, index),
    }
}

/// A call that makes a step and perhaps the one that ends its wait.
fn pair_goes_on(
    word: Word,
    reply: &StepReply,
    step: u32,
    stage: &mut Stage,
    answers: &mut AnswerRows,
) -> Moved
    requires { length answers.old.items < answers.old.room }
    ensures done { (opening made : Step) (closing : Closing) → IsDone step
        (plan_progress word (Plan.Pair opening closing) stage.old made reply.now)
        result stage.new answers.old.items answers.new.items }
    ensures capacity { answers.old.room ≤ answers.new.room }
{
    match &*stage {
        Stage::Start => open_wait(word, reply, step, stage, answers),
        _ => answer_by(word, reply, step, stage, answers),
    }
}

/// Both services that have a time go on: the second step answers the call.
fn tick_goes_on(reply: &StepReply, step: u32, stage: &mut Stage, answers: &mut AnswerRows) -> Moved
    requires { length answers.old.items < answers.old.room }
    ensures done { (first second made : Step) → IsDone step
        (plan_progress Word.Tick (Plan.Twice first second) stage.old made reply.now)
        result stage.new answers.old.items answers.new.items }
    ensures capacity { answers.old.room ≤ answers.new.room }
{
    match &*stage {
        Stage::Start => {
            *stage = Stage::Halfway;
            Moved::Goes
        }
        _ => answer_by(Word::Tick, reply, step, stage, answers),
    }
}

/// The word of a call that makes one step.
fn only_word(call: &Call) -> Word
    requires { makes_one call.now ≡ true }
    ensures word { result ≡ word_of call.now }
    ensures one { (decls : List Decl) → is_one (plan_of decls call.now) ≡ true }
{
    match call {
        Call::Submit(_, _) => Word::Submit,
        Call::Cancel(_) => Word::Cancel,
        Call::Schedule(_, _, _) => Word::Schedule,
        Call::Reschedule(_, _, _) => Word::Reschedule,
        Call::Remaining(_) => Word::Remaining,
        Call::Busy(_) => Word::Busy,
        Call::Start(_) => Word::Start,
        Call::Unplug(_) => Word::Unplug,
        Call::Stop(_) => Word::Stop,
        Call::PutFront(_, _) => Word::PutFront,
        Call::Give(_) => Word::Give,
        Call::Reset(_) => Word::Reset,
        Call::Count(_) => Word::Count,
        Call::Peek(_) => Word::Peek,
        Call::PeekAt(_, _) => Word::PeekAt,
        Call::Purge(_) => Word::Purge,
        Call::Used(_) => Word::Used,
        Call::Free(_) => Word::Free,
        Call::Raise(_, _) => Word::Raise,
        Call::Clear(_) => Word::Clear,
        Call::Check(_) => Word::Check,
        Call::Finish(_) => Word::Finish,
        Call::Mask(_, _, _) => Word::Mask,
        Call::Enable(_, _) => Word::Enable,
        Call::Grant(_, _) => Word::Grant,
        Call::Release(_) => Word::Release,
        Call::Revoke(_, _) => Word::Revoke,
        Call::Public(_) => Word::Public,
        Call::Init(_) => Word::Init,
        Call::User => Word::User,
        _ => unreachable!(),
    }
}

/// Does what the reply to a step does to its call, by the kind of the call's plan: none is made.
pub fn call_goes_on(
    call: &Call,
    made: &Step,
    reply: &StepReply,
    step: u32,
    stage: &mut Stage,
    answers: &mut AnswerRows,
) -> Moved
    requires { length answers.old.items < answers.old.room }
    ensures done { (decls : List Decl) → IsDone step
        (plan_progress (word_of call.now) (plan_of decls call.now) stage.old made.now reply.now)
        result stage.new answers.old.items answers.new.items }
    ensures capacity { answers.old.room ≤ answers.new.room }
{
    match call {
        Call::CancelSync(_) => pair_goes_on(Word::CancelSync, reply, step, stage, answers),
        Call::Flush(_) => pair_goes_on(Word::Flush, reply, step, stage, answers),
        Call::Drain(_, _) => pair_goes_on(Word::Drain, reply, step, stage, answers),
        Call::Tick(_) => tick_goes_on(reply, step, stage, answers),
        Call::Take(_, _) => wait_goes_on(Word::Take, reply, step, stage, answers),
        Call::Put(_, _, _) => wait_goes_on(Word::Put, reply, step, stage, answers),
        Call::Get(_, _) => wait_goes_on(Word::Get, reply, step, stage, answers),
        Call::Claim(_, _) => wait_goes_on(Word::Claim, reply, step, stage, answers),
        Call::SubWait(_, _) => wait_goes_on(Word::SubWait, reply, step, stage, answers),
        Call::Poll(timeout, events) => {
            poll_goes_on(*timeout, events, made, reply, step, stage, answers)
        }
        Call::Publish(_, _, _) => channel_goes_on(Word::Publish, reply, step, stage, answers),
        Call::Notify(_, _) => channel_goes_on(Word::Notify, reply, step, stage, answers),
        Call::Read(_, _) => channel_goes_on(Word::Read, reply, step, stage, answers),
        _ => answer_by(only_word(call), reply, step, stage, answers),
    }
}
