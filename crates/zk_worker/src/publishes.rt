ghost use Rattle.std.specs.Prelude.{◌≡◌, ◌<◌, ◌≤◌, slice_get, length};
ghost use Rattle.zk_worker.specs.Moves.{IsDone};
ghost use Rattle.zk_worker.specs.Publishes.{asks_for, use_step, visit_step, channel_attempts, holds_progress, rest_of, visits_answer, visit_progress, asking_progress, channel_progress};

use crate::moves::{answer_by, answer_call};
use crate::waits::{wait_ahead, wait_goes_on};
use crate::{Answer, AnswerRows, Moved, Stage, Step, StepReply, Using, Waiting, Word};
use zk_base::{Errno, Few};
use zk_model_bus::{ChanOp, ChanReply, ObsOp, ObsReply};
use zk_words::Timeout;

/// How a call asks for the channel that it uses.
fn asks_for(chan: u32, usage: &Using) -> Waiting
    ensures { result ≡ asks_for chan usage.now }
{
    match usage {
        Using::Publish(message) => Waiting::Offer(chan, *message),
        Using::Notify => Waiting::Enter(chan),
        Using::Read => Waiting::Enter(chan),
    }
}

/// What a call does first with the channel that it has got.
fn use_step(chan: u32, usage: &Using) -> Step
    ensures { result ≡ use_step chan usage.now }
{
    match usage {
        Using::Publish(message) => Step::Chan(chan, ChanOp::Set(*message)),
        Using::Notify => Step::Chan(chan, ChanOp::List),
        Using::Read => Step::Chan(chan, ChanOp::Get),
    }
}

/// The next step of a call that has yet to visit these observers. Behind the last it frees the channel.
fn visit_step(chan: u32, left: &[u32]) -> Step
    ensures { result ≡ visit_step chan left.now }
{
    match left {
        [] => Step::Chan(chan, ChanOp::Free),
        [observer, ..] => Step::Obs(*observer, ObsOp::Visit(chan)),
    }
}

/// Puts the attempt of this index among the next attempts of a call that uses a channel.
pub fn channel_ahead(
    chan: u32,
    usage: &Using,
    timeout: Timeout,
    stage: &Stage,
    index: u32,
    ahead: &mut Option<Step>,
)
    ensures { ahead.new ≡ slice_get (channel_attempts chan usage.now timeout stage.now) index }
{
    match stage {
        Stage::Holds if index == 0 => *ahead = Some(use_step(chan, usage)),
        Stage::Holds => *ahead = None,
        Stage::Visits(left, _) if index == 0 => *ahead = Some(visit_step(chan, left.numbers())),
        Stage::Visits(_, _) => *ahead = None,
        Stage::Reads(_) if index == 0 => *ahead = Some(Step::Chan(chan, ChanOp::Free)),
        Stage::Reads(_) => *ahead = None,
        stage => wait_ahead(&asks_for(chan, usage), timeout, stage, index, ahead),
    }
}

/// Does what the first reply at the channel does to a call that holds it.
fn hold_goes_on(
    word: Word,
    reply: &StepReply,
    step: u32,
    stage: &mut Stage,
    answers: &mut AnswerRows,
) -> Moved
    requires { length answers.old.items < answers.old.room }
    ensures done { IsDone step (holds_progress word reply.now)
        result stage.new answers.old.items answers.new.items }
    ensures capacity { answers.old.room ≤ answers.new.room }
{
    match reply {
        StepReply::Chan(_, ChanReply::Observers(told), _) => {
            *stage = Stage::Visits(*told, false);
            Moved::Goes
        }
        StepReply::Chan(_, ChanReply::Bytes(message), _) => {
            *stage = Stage::Reads(*message);
            Moved::Goes
        }
        _ => answer_by(word, reply, step, stage, answers),
    }
}

/// The observers that are left behind the first one.
fn rest_of(left: &Few) -> Few
    ensures { result ≡ rest_of left.now }
{
    let [_, rest @ ..] = left.numbers() else {
        return Few::none();
    };
    let Some(rest) = Few::new(rest) else {
        unreachable!()
    };
    rest
}

/// What a call answers that has visited all observers, by whether one was full.
fn visits_answer(full: bool) -> Answer
    ensures { result ≡ visits_answer full }
{
    if full {
        Answer::Refused(Errno::Fault)
    } else {
        Answer::Number(0)
    }
}

/// Does what the reply to a visit does to its call, or the reply to the freeing. A listener that runs has its script played
/// before the next visit.
fn visit_goes_on(
    word: Word,
    left: &Few,
    full: bool,
    reply: &StepReply,
    step: u32,
    stage: &mut Stage,
    answers: &mut AnswerRows,
) -> Moved
    requires { length answers.old.items < answers.old.room }
    ensures done { IsDone step (visit_progress word left.now full reply.now)
        result stage.new answers.old.items answers.new.items }
    ensures capacity { answers.old.room ≤ answers.new.room }
{
    match reply {
        StepReply::Obs(observer, ObsReply::Run, _) => {
            *stage = Stage::Visits(rest_of(left), full);
            Moved::Enters(*observer)
        }
        StepReply::Obs(_, ObsReply::Full, _) => {
            *stage = Stage::Visits(rest_of(left), true);
            Moved::Goes
        }
        StepReply::Obs(_, _, _) => {
            *stage = Stage::Visits(rest_of(left), full);
            Moved::Goes
        }
        _ => answer_call(word, visits_answer(full), step, stage, answers),
    }
}

/// Does what the reply to a step does to a call that waits for its channel. It may get it.
fn asking_goes_on(
    word: Word,
    reply: &StepReply,
    step: u32,
    stage: &mut Stage,
    answers: &mut AnswerRows,
) -> Moved
    requires { length answers.old.items < answers.old.room }
    ensures done { IsDone step (asking_progress word stage.old reply.now)
        result stage.new answers.old.items answers.new.items }
    ensures capacity { answers.old.room ≤ answers.new.room }
{
    match reply {
        StepReply::Chan(_, ChanReply::Got, _) => {
            *stage = Stage::Holds;
            Moved::Goes
        }
        _ => wait_goes_on(word, reply, step, stage, answers),
    }
}

/// Does what the reply to a step does to a call that uses a channel.
pub fn channel_goes_on(
    word: Word,
    reply: &StepReply,
    step: u32,
    stage: &mut Stage,
    answers: &mut AnswerRows,
) -> Moved
    requires { length answers.old.items < answers.old.room }
    ensures done { IsDone step (channel_progress word stage.old reply.now)
        result stage.new answers.old.items answers.new.items }
    ensures capacity { answers.old.room ≤ answers.new.room }
{
    match &*stage {
        Stage::Holds => hold_goes_on(word, reply, step, stage, answers),
        Stage::Visits(left, full) => {
            let (left, full) = (*left, *full);
            visit_goes_on(word, &left, full, reply, step, stage, answers)
        }
        Stage::Reads(message) => {
            let answer = Answer::Bytes(*message);
            answer_call(word, answer, step, stage, answers)
        }
        _ => asking_goes_on(word, reply, step, stage, answers),
    }
}
