ghost use Rattle.std.specs.Prelude.{◌≡◌, ◌<◌, ◌≤◌, slice_get, length};
ghost use Rattle.zk_worker.specs.Moves.{IsDone, opens_at};
ghost use Rattle.zk_worker.specs.Waits.{open_step, end_step, quit_step, first_step, wait_attempts, opening_progress, with_alarm, wait_progress};

use crate::moves::answer_by;
use crate::{AnswerRows, Moved, Stage, Step, StepReply, Waiting, Word};
use zk_model_bus::{ChanOp, ChanReply, ObsOp, ObsReply};
use zk_model_wait::{ClockOp, ClockReply, MsgqOp, MsgqReply, SemOp, SemReply};
use zk_model_work::WorkReply;
use zk_words::Timeout;

/// The step that opens a wait, by whether its call waits where it isn't served at once.
fn open_step(waiting: &Waiting, waits: bool) -> Step
    ensures { result ≡ open_step waiting.now waits }
{
    match waiting {
        Waiting::Take(object) => Step::Sem(*object, SemOp::Take(waits)),
        Waiting::Put(object, message) => Step::Msgq(*object, MsgqOp::Put(*message, waits)),
        Waiting::Get(object) => Step::Msgq(*object, MsgqOp::Get(waits)),
        Waiting::Claim(object) => Step::Chan(*object, ChanOp::Claim(waits)),
        Waiting::SubWait(object) => Step::Obs(*object, ObsOp::Take(waits)),
        Waiting::Offer(object, message) => Step::Chan(*object, ChanOp::Offer(*message, waits)),
        Waiting::Enter(object) => Step::Chan(*object, ChanOp::Enter(waits)),
    }
}

/// The step that ends the wait begun by the entry of this place.
fn end_step(waiting: &Waiting, place: u64) -> Step
    ensures { result ≡ end_step waiting.now place }
{
    match waiting {
        Waiting::Take(object) => Step::Sem(*object, SemOp::TakeEnd(place)),
        Waiting::Put(object, _) => Step::Msgq(*object, MsgqOp::PutEnd(place)),
        Waiting::Get(object) => Step::Msgq(*object, MsgqOp::GetEnd(place)),
        Waiting::Claim(object) => Step::Chan(*object, ChanOp::ClaimEnd(place)),
        Waiting::SubWait(object) => Step::Obs(*object, ObsOp::TakeEnd(place)),
        Waiting::Offer(object, _) => Step::Chan(*object, ChanOp::ClaimEnd(place)),
        Waiting::Enter(object) => Step::Chan(*object, ChanOp::ClaimEnd(place)),
    }
}

/// The step that gives that wait up.
fn quit_step(waiting: &Waiting, place: u64) -> Step
    ensures { result ≡ quit_step waiting.now place }
{
    match waiting {
        Waiting::Take(object) => Step::Sem(*object, SemOp::TakeQuit(place)),
        Waiting::Put(object, _) => Step::Msgq(*object, MsgqOp::PutQuit(place)),
        Waiting::Get(object) => Step::Msgq(*object, MsgqOp::GetQuit(place)),
        Waiting::Claim(object) => Step::Chan(*object, ChanOp::ClaimQuit(place)),
        Waiting::SubWait(object) => Step::Obs(*object, ObsOp::TakeQuit(place)),
        Waiting::Offer(object, _) => Step::Chan(*object, ChanOp::ClaimQuit(place)),
        Waiting::Enter(object) => Step::Chan(*object, ChanOp::ClaimQuit(place)),
    }
}

/// The first step of a call that may wait.
fn first_step(waiting: &Waiting, timeout: Timeout) -> Step
    ensures { result ≡ first_step waiting.now timeout }
{
    match timeout {
        Timeout::No => open_step(waiting, false),
        Timeout::Forever => open_step(waiting, true),
        Timeout::Ticks(ticks) => Step::Clock(ClockOp::Alarm(ticks)),
    }
}

/// Puts the attempt of this index among the next attempts of such a call.
pub fn wait_ahead(
    waiting: &Waiting,
    timeout: Timeout,
    stage: &Stage,
    index: u32,
    ahead: &mut Option<Step>,
)
    ensures { ahead.new ≡ slice_get (wait_attempts waiting.now timeout stage.now) index }
{
    *ahead = match stage {
        Stage::Start if index == 0 => Some(first_step(waiting, timeout)),
        Stage::Alarmed(_) if index == 0 => Some(open_step(waiting, true)),
        Stage::Waits(place) if index == 0 => Some(end_step(waiting, *place)),
        Stage::WaitsUntil(place, _) if index == 0 => Some(end_step(waiting, *place)),
        Stage::WaitsUntil(_, moment) if index == 1 => Some(Step::Clock(ClockOp::AlarmEnd(*moment))),
        Stage::Quits(place) if index == 0 => Some(quit_step(waiting, *place)),
        _ => None,
    };
}

/// The place of the entry since which a call waits, where this reply to its first step says that it does.
fn waits_since(reply: &StepReply) -> Option<u64>
    ensures { (word : Word) → opening_progress word reply.now ≡ opens_at Stage.Waits word reply.now result }
{
    match reply {
        StepReply::Work(WorkReply::Wait, place) => Some(*place),
        StepReply::Work(WorkReply::WaitFor(_), place) => Some(*place),
        StepReply::Sem(_, SemReply::Wait, place) => Some(*place),
        StepReply::Msgq(_, MsgqReply::Wait, place) => Some(*place),
        StepReply::Chan(_, ChanReply::Wait, place) => Some(*place),
        StepReply::Obs(_, ObsReply::Wait, place) => Some(*place),
        _ => None,
    }
}

/// Does what the reply to the step that may begin a wait does to its call.
pub fn open_wait(
    word: Word,
    reply: &StepReply,
    step: u32,
    stage: &mut Stage,
    answers: &mut AnswerRows,
) -> Moved
    requires { length answers.old.items < answers.old.room }
    ensures done { IsDone step (opening_progress word reply.now)
        result stage.new answers.old.items answers.new.items }
    ensures capacity { answers.old.room ≤ answers.new.room }
{
    match waits_since(reply) {
        Some(place) => {
            *stage = Stage::Waits(place);
            Moved::Goes
        }
        None => answer_by(word, reply, step, stage, answers),
    }
}

/// The same for a call that has set an alarm for this moment: where it waits, it waits until then.
fn open_wait_until(
    moment: u64,
    word: Word,
    reply: &StepReply,
    step: u32,
    stage: &mut Stage,
    answers: &mut AnswerRows,
) -> Moved
    requires { length answers.old.items < answers.old.room }
    ensures done { IsDone step (with_alarm moment (opening_progress word reply.now))
        result stage.new answers.old.items answers.new.items }
    ensures capacity { answers.old.room ≤ answers.new.room }
{
    match waits_since(reply) {
        Some(place) => {
            *stage = Stage::WaitsUntil(place, moment);
            Moved::Goes
        }
        None => answer_by(word, reply, step, stage, answers),
    }
}

/// Does what the reply to a step does to a call that may wait.
pub fn wait_goes_on(
    word: Word,
    reply: &StepReply,
    step: u32,
    stage: &mut Stage,
    answers: &mut AnswerRows,
) -> Moved
    requires { length answers.old.items < answers.old.room }
    ensures done { IsDone step (wait_progress word stage.old reply.now)
        result stage.new answers.old.items answers.new.items }
    ensures capacity { answers.old.room ≤ answers.new.room }
{
    match (&*stage, reply) {
        (Stage::Start, StepReply::Clock(ClockReply::At(moment), _)) => {
            *stage = Stage::Alarmed(*moment);
            Moved::Goes
        }
        (Stage::Start, _) => open_wait(word, reply, step, stage, answers),
        (Stage::Alarmed(moment), _) => {
            let moment = *moment;
            open_wait_until(moment, word, reply, step, stage, answers)
        }
        (Stage::WaitsUntil(place, _), StepReply::Clock(_, _)) => {
            let place = *place;
            *stage = Stage::Quits(place);
            Moved::Goes
        }
        _ => answer_by(word, reply, step, stage, answers),
    }
}
