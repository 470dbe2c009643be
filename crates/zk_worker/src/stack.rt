ghost use Rattle.std.specs.Prelude.{◌≡◌, ◌+◌, ◌<◌, ◌≤◌, [], ◌∷◌, ◌++◌, slice_get, reverse, length, vec_len, vec_capacity, MatchOption, All, option_copied};
ghost use Rattle.zk_scenario.specs.declared.scenario.TheConstants.{MOST_STEPS};
ghost use Rattle.zk_worker.specs.Next.{top_call};
ghost use Rattle.zk_worker.specs.Protocol.{frames_attempts, frames_progress, frames_after, settled, is_over, first_frame, entered, answers_after};
ghost use Rattle.zk_worker.specs.Stacks.{is_top_over};

use crate::frames::MOST_FRAMES;
use crate::protocol::{frame_goes_on, is_over, role_ahead, role_call};
use crate::{AnswerRows, Frame, Moved, Role, Stage, Step, StepReply};
use zk_base::push_within;
use zk_scenario::{Call, Scenario};

// The innermost frame is the last of the stack.

/// One script or run more is open, of which nothing was played.
pub fn open_frame(stack: &mut Vec<Frame>, role: Role)
    requires { vec_len stack.old < vec_capacity stack.old }
    ensures frames { reverse stack.new.items ≡ first_frame role ∷ reverse stack.old.items }
    ensures capacity { vec_capacity stack.old ≤ vec_capacity stack.new }
{
    push_within(
        stack,
        Frame {
            role,
            next: 0,
            stage: Stage::Start,
        },
    );
}

fn pop_frame(stack: &mut Vec<Frame>) -> Option<Frame>
    ensures frames { MatchOption result ((reverse stack.old.items ≡ []) × (reverse stack.new.items ≡ []))
        (λ frame. reverse stack.old.items ≡ frame ∷ reverse stack.new.items) }
    ensures capacity { vec_capacity stack.old ≤ vec_capacity stack.new }
{
    stack.pop()
}

fn top_frame(stack: &[Frame]) -> Option<&Frame>
    ensures { option_copied result ≡ slice_get (reverse stack.now) 0 }
{
    stack.last()
}

/// The next call of the innermost open script, where it isn't begun.
pub fn top_call<'s>(scenario: &'s Scenario, stack: &[Frame]) -> Option<&'s Call>
    ensures { option_copied result ≡ top_call scenario.now (reverse stack.now) }
{
    match top_frame(stack) {
        Some(frame) => role_call(scenario, frame),
        None => None,
    }
}

/// Puts the attempt of this index among the next attempts.
pub fn frames_ahead(scenario: &Scenario, stack: &[Frame], index: u32, ahead: &mut Option<Step>)
    ensures { ahead.new ≡ slice_get (frames_attempts scenario.now (reverse stack.now)) index }
{
    match top_frame(stack) {
        Some(frame) => role_ahead(scenario, frame, index, ahead),
        None => *ahead = None,
    }
}

fn is_top_over(scenario: &Scenario, stack: &[Frame]) -> bool
    ensures { result ≡ is_top_over scenario.now (reverse stack.now) }
{
    match top_frame(stack) {
        Some(frame) => is_over(scenario, frame),
        None => false,
    }
}

/// Takes off the innermost scripts that are over.
pub fn settle(scenario: &Scenario, stack: &mut Vec<Frame>)
    ensures frames { reverse stack.new.items ≡ settled scenario.now (reverse stack.old.items) }
    ensures capacity { vec_capacity stack.old ≤ vec_capacity stack.new }
{
    while is_top_over(scenario, stack) {
        pop_frame(stack);
    }
}

fn enter(stack: &mut Vec<Frame>, owner: u32)
    requires { MOST_FRAMES ≤ vec_capacity stack.old }
    ensures frames { reverse stack.new.items ≡ entered (reverse stack.old.items) owner }
    ensures capacity { vec_capacity stack.old ≤ vec_capacity stack.new }
{
    if stack.len() < MOST_FRAMES {
        open_frame(stack, Role::Script(owner));
    }
}

/// Does what the reply to a step does to the innermost open script or run, and puts the answer, if the step of this number
/// gives one.
pub fn stack_goes_on(
    scenario: &Scenario,
    stack: &mut Vec<Frame>,
    made: &Step,
    reply: &StepReply,
    step: u32,
    answers: &mut AnswerRows,
)
    requires room { MOST_FRAMES ≤ vec_capacity stack.old }
    requires short { length stack.old.items ≤ MOST_FRAMES }
    requires nexts { All (λ frame. frame.next < MOST_STEPS) (reverse stack.old.items) }
    requires for_answer { length answers.old.items < answers.old.room }
    ensures frames { reverse stack.new.items ≡ frames_after scenario.now (reverse stack.old.items)
        (frames_progress scenario.now (reverse stack.old.items) made.now reply.now) }
    ensures answers { answers.new.items ≡ answers_after answers.old.items step
        (frames_progress scenario.now (reverse stack.old.items) made.now reply.now) }
    ensures frame_room { vec_capacity stack.old ≤ vec_capacity stack.new }
    ensures answer_room { answers.old.room ≤ answers.new.room }
{
    let Some(frame) = stack.last_mut() else {
        return;
    };
    match frame_goes_on(scenario, frame, made, reply, step, answers) {
        Moved::Goes => {}
        Moved::Answers => {
            frame.next += 1;
            settle(scenario, stack);
        }
        Moved::Enters(owner) => {
            enter(stack, owner);
            settle(scenario, stack);
        }
    }
}
