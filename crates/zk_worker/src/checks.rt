ghost use Rattle.std.specs.Prelude.{◌≡◌, reverse};
ghost use Rattle.zk_worker.specs.Checks.{call_check, role_check, top_check, next_check, check_step, oops_in, mode_after, start_mode};

use crate::protocol::call_at;
use crate::refs::ref_declared;
use crate::{Frame, Role, Stage, Step, StepReply, Word};
use zk_line::need_at;
use zk_model_bus::{Need, OopsWhy, TableOp, TableReply};
use zk_scenario::{Call, Decl, Scenario, word_of};

/// What a player may do.
#[derive(Clone, Copy, PartialEq, Eq)]
pub enum Mode {
    /// Its calls aren't checked: it is a supervisor thread, or a worker.
    Supervisor,
    /// Each of its calls is checked before it makes another step: it is a user thread.
    User,
    /// A check of it failed. It makes no further step.
    Dead,
}

/// What a user's call asks of the object table before all else.
#[derive(Clone, Copy)]
pub struct Check {
    /// The call.
    pub word: Word,
    /// The object, by its number. There is none where its name is no object's.
    pub object: Option<u32>,
    /// What it has to be.
    pub need: Need,
}

/// The check that comes next in a call that has passed so many.
fn call_check(call: &Call, passed: u32) -> Option<Check>
    ensures { result ≡ call_check passed call.now }
{
    let needed = need_at(call, passed)?;
    Some(Check {
        word: word_of(call),
        object: ref_declared(needed.object),
        need: needed.need,
    })
}

// Out of line: supervisors make none.
#[inline(never)]
fn role_check(scenario: &Scenario, frame: &Frame, passed: u32) -> Option<Check>
    ensures { result ≡ role_check scenario.now passed frame.now.role frame.now.next frame.now.stage }
{
    match (frame.role, &frame.stage) {
        (Role::Script(owner), Stage::Start) => {
            call_check(call_at(scenario, owner, frame.next)?, passed)
        }
        _ => None,
    }
}

/// The check that a player makes next, which has passed so many in its call.
#[inline(always)]
pub fn next_check(scenario: &Scenario, mode: Mode, passed: u32, stack: &[Frame]) -> Option<Check>
    ensures { result ≡ next_check scenario.now mode passed (reverse stack.now) }
{
    match mode {
        Mode::User => role_check(scenario, stack.last()?, passed),
        _ => None,
    }
}

/// The step that makes a check.
pub fn check_step(check: &Check) -> Step
    ensures { result ≡ check_step check.now }
{
    Step::Table(TableOp::Check(check.object, check.need))
}

/// Why a check failed, if it did.
pub fn oops_in(reply: &StepReply) -> Option<OopsWhy>
    ensures { result ≡ oops_in reply.now }
{
    match reply {
        StepReply::Table(TableReply::Oops(why), _) => Some(*why),
        _ => None,
    }
}

/// The mode after a step that isn't a check.
pub fn mode_after(mode: Mode, made: &Step) -> Mode
    ensures { result ≡ mode_after mode made.now }
{
    match made {
        Step::Table(TableOp::EnterUser) => Mode::User,
        _ => mode,
    }
}

/// The mode of a player at first.
pub fn start_mode(decl: &Decl) -> Mode
    ensures { result ≡ start_mode decl.now }
{
    match decl {
        Decl::Thread(_, _, true) => Mode::User,
        _ => Mode::Supervisor,
    }
}
