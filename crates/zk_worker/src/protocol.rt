ghost use Rattle.std.specs.Prelude.{◌≡◌, ℕ, ◌<◌, ◌≤◌, List, slice_get, option_copied, length};
ghost use Rattle.zk_line.specs.Objects.{places, is_item};
ghost use Rattle.zk_scenario.specs.Players.{players, calls_of};
ghost use Rattle.zk_worker.specs.Moves.{IsDone};
ghost use Rattle.zk_worker.specs.Next.{role_call};
ghost use Rattle.zk_worker.specs.Protocol.{worker_attempts, role_attempts, worker_progress, role_progress, is_over, place_of, found_flags, found_seen, spot_of};

use crate::calls::{call_ahead, call_goes_on};
use crate::{AnswerRows, Answered, Frame, Moved, Role, Spot, Stage, Step, StepReply};
use zk_base::Seen;
use zk_model_work::{WorkOp, WorkReply};
use zk_scenario::{Call, Scenario};

/// The call of this number in an object's script.
pub fn call_at(scenario: &Scenario, owner: u32, next: u32) -> Option<&Call>
    ensures { option_copied result ≡ slice_get (calls_of scenario.now.scripts owner) next }
{
    scenario.calls(owner).get(next as usize)
}

/// The next call of an open script, where it isn't begun.
pub fn role_call<'s>(scenario: &'s Scenario, frame: &Frame) -> Option<&'s Call>
    ensures { option_copied result ≡ role_call scenario.now frame.now.role frame.now.next frame.now.stage }
{
    match (frame.role, &frame.stage) {
        (Role::Script(owner), Stage::Start) => call_at(scenario, owner, frame.next),
        _ => None,
    }
}

fn item_object(scenario: &Scenario, item: u32) -> Option<u32>
    ensures { result ≡ slice_get (places is_item scenario.now.decls) item }
{
    scenario.items().get(item as usize).copied()
}

fn worker_ahead(queue: u32, stage: &Stage, index: u32) -> Option<Step>
    ensures { result ≡ slice_get (worker_attempts queue stage.now) index }
{
    match stage {
        Stage::Start if index == 0 => Some(Step::Work(WorkOp::Begin(queue))),
        Stage::Runs if index == 0 => Some(Step::Work(WorkOp::End(queue))),
        _ => None,
    }
}

/// Puts the attempt of this index among the next attempts of an open script or run.
// It isn't handed out, since it is large, and would be moved once for each layer.
pub fn role_ahead(scenario: &Scenario, frame: &Frame, index: u32, ahead: &mut Option<Step>)
    ensures { ahead.new ≡ slice_get (role_attempts scenario.now frame.now.role frame.now.next frame.now.stage) index }
{
    match frame.role {
        Role::Script(owner) => match call_at(scenario, owner, frame.next) {
            Some(call) => call_ahead(scenario, call, &frame.stage, index, ahead),
            None => *ahead = None,
        },
        Role::Worker(queue) => {
            *ahead = worker_ahead(scenario.number(queue), &frame.stage, index);
        }
    }
}

/// Does what the reply to a step does to the runs of a queue: they answer no call.
fn worker_goes_on(scenario: &Scenario, reply: &StepReply, stage: &mut Stage) -> Moved
    ensures { (step : ℕ) (answers : List Answered) →
        IsDone step (worker_progress scenario.now.decls stage.old reply.now) result stage.new answers answers }
{
    match (&*stage, reply) {
        (Stage::Start, StepReply::Work(WorkReply::Run(item, _), _)) => {
            *stage = Stage::Runs;
            match item_object(scenario, *item) {
                Some(owner) => Moved::Enters(owner),
                None => Moved::Goes,
            }
        }
        _ => {
            *stage = Stage::Start;
            Moved::Goes
        }
    }
}

/// Does what the reply to a step does to an open script or run, and puts the answer, if the step of this number gives one.
pub fn frame_goes_on(
    scenario: &Scenario,
    frame: &mut Frame,
    made: &Step,
    reply: &StepReply,
    step: u32,
    answers: &mut AnswerRows,
) -> Moved
    requires { length answers.old.items < answers.old.room }
    ensures done { IsDone step
        (role_progress scenario.now frame.old.role frame.old.next frame.old.stage made.now reply.now)
        result frame.new.stage answers.old.items answers.new.items }
    ensures kept { frame.new ≡ record frame.old { stage = frame.new.stage } }
    ensures capacity { answers.old.room ≤ answers.new.room }
{
    match frame.role {
        Role::Script(owner) => match call_at(scenario, owner, frame.next) {
            Some(call) => call_goes_on(call, made, reply, step, &mut frame.stage, answers),
            None => Moved::Goes,
        },
        Role::Worker(_) => worker_goes_on(scenario, reply, &mut frame.stage),
    }
}

/// Whether all calls of a script are answered.
pub fn is_over(scenario: &Scenario, frame: &Frame) -> bool
    ensures { result ≡ is_over scenario.now frame.now.role frame.now.next }
{
    match frame.role {
        Role::Script(owner) => scenario.calls(owner).len() <= frame.next as usize,
        Role::Worker(_) => false,
    }
}

fn place_of(reply: &StepReply) -> u64
    ensures { result ≡ place_of reply.now }
{
    match reply {
        StepReply::Work(_, place) => *place,
        StepReply::Clock(_, place) => *place,
        StepReply::Table(_, place) => *place,
        StepReply::Sem(_, _, place) => *place,
        StepReply::Msgq(_, _, place) => *place,
        StepReply::Signal(_, _, place) => *place,
        StepReply::Chan(_, _, place) => *place,
        StepReply::Obs(_, _, place) => *place,
        StepReply::Flags(_, at) => *at,
        StepReply::Seen(seen) => u64::from(seen.stamp),
    }
}

fn found_flags(reply: &StepReply) -> u8
    ensures { result ≡ found_flags reply.now }
{
    match reply {
        StepReply::Flags(flags, _) => *flags,
        _ => 0,
    }
}

fn found_seen(reply: &StepReply) -> Seen
    ensures { result ≡ found_seen reply.now }
{
    match reply {
        StepReply::Seen(seen) => *seen,
        _ => Seen {
            raised: false,
            result: 0,
            stamp: 0,
        },
    }
}

/// Where a step is recorded.
pub fn spot_of(made: &Step, reply: &StepReply) -> Spot
    ensures { result ≡ spot_of made.now reply.now }
{
    match made {
        Step::Work(_) => Spot::Work(place_of(reply)),
        Step::Clock(_) => Spot::Clock(place_of(reply)),
        Step::Table(_) => Spot::Table(place_of(reply)),
        Step::Sem(object, _) => Spot::Sem(*object, place_of(reply)),
        Step::Msgq(object, _) => Spot::Msgq(*object, place_of(reply)),
        Step::Signal(object, _) => Spot::Signal(*object, place_of(reply)),
        Step::Chan(object, _) => Spot::Chan(*object, place_of(reply)),
        Step::Obs(object, _) => Spot::Obs(*object, place_of(reply)),
        Step::LookItem(object) => Spot::LookItem(*object, found_flags(reply), place_of(reply)),
        Step::LookSignal(object, _) => Spot::LookSignal(*object, found_seen(reply)),
    }
}
