ghost use Rattle.std.specs.Prelude.{◌≡◌, ℕ, ◌<◌, ◌≤◌, Bool, slice_get, reverse, length, IfOk, OnErr, Some, option_copied};
ghost use Rattle.zk_scenario.specs.Players.{players, prio_of};
ghost use Rattle.zk_scenario.specs.Valid.{IsValid};
ghost use Rattle.zk_worker.specs.Checks.{next_check};
ghost use Rattle.zk_worker.specs.Next.{next_call};
ghost use Rattle.zk_worker.specs.Protocol.{attempts, after, frames_progress, checked, moved, spot_of, start_at, starting, role_at, IsAhead};
ghost use Rattle.zk_worker.specs.Follows.{state_at, log_of, is_done, is_through, is_between, is_spent_at, StandsMore, IsFollowing};
ghost use Rattle.zk_worker.specs.Ranges.{IsFit, HasRoomIn, ReplyFits, PassesFit};
ghost use Rattle.zk_worker.specs.Machines.{Machines};
ghost use Rattle.zk_worker.specs.Shown.{Shown, ShowsLog};
ghost use Rattle.zk_worker.specs.Right.{LooksRight};
ghost use Rattle.zk_worker.specs.Attempt.{IsMade};

use crate::checks::{check_step, mode_after, next_check, oops_in, start_mode};
use crate::frames::MOST_FRAMES;
use crate::protocol::spot_of;
use crate::stack::{frames_ahead, open_frame, settle, stack_goes_on, top_call};
use crate::{
    Answer, AnswerRows, Answered, Answers, Check, Frame, Log, Mode, PlayerState, Role, Spot, Spots,
    Stage, Step, StepReply, Word,
};
use std::alloc::Global;
use std::marker::Model;
use zk_base::{NoMemory, Who, push_within};
use zk_model_bus::OopsWhy;
use zk_scenario::{Call, Decl, MOST_STEPS, Scenario};

/// A player of a scenario, and what it has done.
///
/// Every call is given the scenario that the player was made for.
#[derive(Drop)]
pub struct Player {
    who: Who,
    // How many steps it has room for.
    most: u32,
    mode: Mode,
    // How many checks it has passed in the call that comes next.
    passed: u32,
    // The open scripts and runs, the innermost last.
    stack: Vec<Frame>,
    answers: AnswerRows,
    spots: Vec<Spot>,
}

impl Model for Player {
    ghost use Rattle.std.specs.Prelude.{reverse, vec_capacity};
    ghost use Rattle.zk_worker.specs.Places.{PlayerPlace};
    ghost use Rattle.zk_worker.specs.Stacks.{IsRoomy};

    ghost Value = { PlayerPlace };

    ghost view = { λ p. record {
      who = p.who;
      most = p.most;
      mode = p.mode;
      passed = p.passed;
      frames = reverse p.stack.items;
      answers = p.answers.items;
      spots = p.spots.items;
    } };

    ghost invariant = { λ p.
        IsRoomy p.most p.passed (reverse p.stack.items) p.answers.items p.spots.items
        (vec_capacity p.stack) p.answers.room (vec_capacity p.spots) };
}

fn object_of(scenario: &Scenario, number: u32) -> Option<u32>
    ensures { result ≡ slice_get (players scenario.now.decls) number }
{
    let at = number as usize;
    let threads = scenario.threads();
    if at < threads.len() {
        return Some(threads[at]);
    }
    scenario.queues().get(at - threads.len()).copied()
}

fn role_at(decl: &Decl, object: u32) -> Role
    ensures { result ≡ role_at decl.now object }
{
    match decl {
        Decl::Queue(_, _, _) => Role::Worker(object),
        _ => Role::Script(object),
    }
}

fn prio_of(decl: &Decl) -> i8
    ensures { result ≡ prio_of decl.now }
{
    match decl {
        Decl::Thread(_, prio, _) => *prio,
        Decl::Queue(_, prio, _) => *prio,
        Decl::Item(_) => 0,
        Decl::Sem(_, _, _, _) => 0,
        Decl::Msgq(_, _, _, _) => 0,
        Decl::Signal(_, _) => 0,
        Decl::Listener(_) => 0,
        Decl::Sub(_, _) => 0,
        Decl::Chan(_, _, _, _) => 0,
    }
}

fn who_at(number: u32, decl: &Decl) -> Who
    ensures { result ≡ record { number = number; prio = prio_of decl.now } }
{
    Who {
        number,
        prio: prio_of(decl),
    }
}

fn is_between(frame: &Frame) -> bool
    ensures { result ≡ is_between frame.now.role frame.now.stage }
{
    match (&frame.role, &frame.stage) {
        (Role::Worker(_), Stage::Start) => true,
        _ => false,
    }
}

fn is_done(stack: &[Frame]) -> bool
    ensures { result ≡ is_done (reverse stack.now) }
{
    match stack {
        [] => true,
        [frame] => is_between(frame),
        _ => false,
    }
}

fn is_through(stack: &[Frame]) -> bool
    ensures { result ≡ is_through (reverse stack.now) }
{
    stack.is_empty()
}

impl Player {
    /// The player of this number, with room for all its steps.
    pub fn new(alloc: Global, scenario: &Scenario, number: u32) -> Result<Player, NoMemory>
        requires { number < length (players scenario.now.decls) }
        ensures start { IfOk result (λ player. start_at scenario.now number ≡ Some player) }

        // What `step` asks for, and that it follows the scenario, whatever is shown.
        ensures fits { IfOk result (λ player. IsFit scenario.now player) }
        ensures follows { IfOk result (λ player.
            (shown : Shown) → IsFollowing scenario.now number shown player) }
        ensures looks { IfOk result (λ player.
            (m : Machines) (shown : Shown) → LooksRight m shown player.spots) }
    {
        let Some(object) = object_of(scenario, number) else {
            unreachable!()
        };
        let Some(decl) = scenario.decls().get(object as usize) else {
            unreachable!()
        };
        let who = who_at(number, decl);
        let most = scenario.steps();
        let mut stack = Vec::with_capacity(alloc, MOST_FRAMES)?;
        open_frame(&mut stack, role_at(decl, object));
        settle(scenario, &mut stack);
        Ok(Player {
            who,
            most,
            mode: start_mode(decl),
            passed: 0,
            stack,
            answers: AnswerRows::with_capacity(alloc, most as usize)?,
            spots: Vec::with_capacity(alloc, most as usize)?,
        })
    }

    /// The attempt of this index, from 0, among those that the player makes next. It makes the first of them that is possible.
    pub fn ahead(&self, scenario: &Scenario, index: u32) -> Option<Step>
        ensures { result ≡ slice_get (attempts scenario.now self.now) index }
    {
        let mut ahead = None;
        self.put_ahead(scenario, index, &mut ahead);
        ahead
    }

    /// Puts the attempt of this index, as `ahead` hands it out.
    pub fn put_ahead(&self, scenario: &Scenario, index: u32, ahead: &mut Option<Step>)
        ensures { ahead.new ≡ slice_get (attempts scenario.now self.now) index }
    {
        if self.is_spent(scenario) {
            *ahead = None;
            return;
        }
        match self.next_check(scenario) {
            Some(check) if index == 0 => *ahead = Some(check_step(&check)),
            Some(_) => *ahead = None,
            None => frames_ahead(scenario, &self.stack, index, ahead),
        }
    }

    /// The call that it makes next: the next one of its innermost open script. There is none while one of that script is
    /// begun and not yet answered, between a worker's runs, and behind the last call.
    pub fn next_call<'s>(&self, scenario: &'s Scenario) -> Option<&'s Call>
        ensures { option_copied result ≡ next_call scenario.now self.now }
    {
        if self.passed != 0 {
            return None;
        }
        top_call(scenario, &self.stack)
    }

    /// Adds one of these attempts, which was answered so.
    pub fn made(&mut self, scenario: &Scenario, step: &Step, reply: &StepReply)
        requires room { HasRoomIn scenario.now self.old }
        requires ahead { IsAhead scenario.now self.old step.now }
        ensures next { self.new ≡ after scenario.now self.old step.now reply.now }

        // What `step` asks for stays, where services made this step.
        // It follows the scenario still, where this step is shown too.
        ensures fits { IsValid scenario.now → IsFit scenario.now self.old →
            ReplyFits scenario.now.decls reply.now → PassesFit scenario.now.decls step.now reply.now →
            IsFit scenario.now self.new }
        ensures looks { (alone : Bool) (m : Machines) (old new : Shown) →
            ShowsLog old self.old.who.number self.old.spots →
            IsMade alone m self.old.who (length self.old.spots) step.now reply.now old new →
            LooksRight m old self.old.spots → LooksRight m new self.new.spots }
        ensures follows { (number : ℕ) (old new : Shown) →
            StandsMore old new (spot_of step.now reply.now) (step.now, reply.now) →
            IsFollowing scenario.now number old self.old → IsFollowing scenario.now number new self.new }
    {
        match self.next_check(scenario) {
            Some(check) => self.check(check.word, oops_in(reply), spot_of(step, reply)),
            None => self.go_on(scenario, step, reply),
        }
    }

    #[inline(always)]
    fn next_check(&self, scenario: &Scenario) -> Option<Check>
        ensures { result ≡ next_check scenario.now self.now.mode self.now.passed self.now.frames }
    {
        next_check(scenario, self.mode, self.passed, &self.stack)
    }

    /// A check was passed, or failed for this reason.
    // Out of line: supervisors make none.
    #[inline(never)]
    fn check(&mut self, word: Word, why: Option<OopsWhy>, spot: Spot)
        requires { length self.old.spots < self.old.most }
        ensures { self.new ≡ checked self.old word why spot }
    {
        match why {
            None => self.passed += 1,
            Some(why) => {
                let step = self.spots.len() as u32;
                let answer = Answer::Oops(why);
                self.answers.push(step, word, &answer);
                self.mode = Mode::Dead;
                self.passed = 0;
                self.stack.clear();
            }
        }
        push_within(&mut self.spots, spot);
    }

    /// The innermost open script or run goes on.
    fn go_on(&mut self, scenario: &Scenario, step: &Step, reply: &StepReply)
        requires { length self.old.spots < self.old.most }
        ensures { self.new ≡ moved scenario.now self.old step.now
            (frames_progress scenario.now self.old.frames step.now reply.now) (spot_of step.now reply.now) }
    {
        let number = self.spots.len() as u32;
        stack_goes_on(
            scenario,
            &mut self.stack,
            step,
            reply,
            number,
            &mut self.answers,
        );
        self.mode = mode_after(self.mode, step);
        self.passed = 0;
        push_within(&mut self.spots, spot_of(step, reply));
    }

    /// Who it is to the services.
    pub fn who(&self) -> Who
        ensures { result ≡ self.now.who }
    {
        self.who
    }

    /// How many scripts it has open, a worker's run among them. A call has ended where its script is the innermost open
    /// one again, or isn't open any more.
    pub fn depth(&self) -> u32
        ensures count { result ≡ length self.now.frames }
        ensures most { result ≤ MOST_FRAMES }
    {
        self.stack.len() as u32
    }

    /// Whether it plays as a user or a supervisor, or was ended by an oops.
    pub fn mode(&self) -> Mode
        ensures { result ≡ self.now.mode }
    {
        self.mode
    }

    /// How it stands.
    pub fn state(&self, scenario: &Scenario) -> PlayerState
        ensures { result ≡ state_at scenario.now self.now }
    {
        if self.is_spent(scenario) {
            return PlayerState::Spent;
        }
        if self.mode == Mode::Dead {
            return PlayerState::Oops;
        }
        if self.is_done() {
            PlayerState::Done
        } else {
            PlayerState::Standing
        }
    }

    /// Whether it is a thread that is through its script, or a worker between two runs.
    pub fn is_done(&self) -> bool
        ensures { result ≡ is_done self.now.frames }
    {
        is_done(&self.stack)
    }

    /// Whether it is a thread that is through its script.
    pub fn is_through(&self) -> bool
        ensures { result ≡ is_through self.now.frames }
    {
        is_through(&self.stack)
    }

    /// How many steps it has made.
    pub fn steps(&self) -> u32
        ensures count { result ≡ length self.now.spots }
        ensures most { result ≤ MOST_STEPS }
    {
        self.spots.len() as u32
    }

    /// Whether it has made all the steps that a player of its scenario may make.
    pub fn is_spent(&self, scenario: &Scenario) -> bool
        ensures { result ≡ is_spent_at scenario.now self.now }
    {
        self.spots.len() >= scenario.steps() as usize
    }

    /// Where each of its steps is recorded, by the number of the step.
    pub fn spots(&self) -> &[Spot]
        ensures { result.now ≡ self.now.spots }
    {
        &self.spots
    }

    /// How many calls have their answers.
    pub fn answer_count(&self) -> usize
        ensures { result ≡ length self.now.answers }
    {
        self.answers.len()
    }

    /// The answered call of this place, in the order of the answers, from 0.
    pub fn answered(&self, place: usize) -> Option<Answered>
        ensures { result ≡ slice_get self.now.answers place }
    {
        self.answers.get(place)
    }

    /// What it has done.
    pub fn into_log(self, scenario: &Scenario) -> Log
        ensures { result ≡ log_of scenario.now self }
    {
        let state = self.state(scenario);
        let Player {
            who: _,
            most: _,
            mode: _,
            passed: _,
            stack: _,
            answers,
            spots,
        } = self;
        Log {
            state,
            steps: Spots::from_vec(spots),
            answers: Answers::from_rows(answers),
        }
    }
}
