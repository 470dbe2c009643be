ghost use Rattle.std.specs.Prelude.{◌≡◌, ℕ, ◌+◌, ◌^◌, ◌<◌, true, false, [], ◌∷◌, Some, None, is_some};
ghost use Rattle.zk_base.specs.declared.ids.Who.{Who};
ghost use Rattle.zk_base.specs.History.{IsAbove};
ghost use Rattle.zk_base.specs.Legal.{IsLegal};
ghost use Rattle.zk_model_trigger.specs.Machine.{trigger_machine, new_triggers};
ghost use Rattle.zk_model_work.specs.Machine.{work_machine};
ghost use Rattle.zk_turn.specs.Passes.{IsPassOf, IsNewPass, pass_players, pass_who, pass_seen, pass_mine, pass_holds, pass_room, given_to};
ghost use Rattle.zk_work.specs.Seen.{work_start};
ghost use Rattle.zk_trigger.specs.Seen.{trigger_start};
ghost use Rattle.zk_trigger.specs.Pumping.{TakesFire, Submits, fires_made, submissions_made, step_after_fire, step_after_submission, is_wide, is_fire, owed_of, is_submission, made_with};
ghost use Rattle.zk_trigger.specs.Pumps.{TriggerCell, WorkCell, IsSeat, IsPump, HasNext, HasPaid, HasPumped, room_at};

use crate::Trigger;
use std::sync::Wait;
use zk_base::NoMemory;
use zk_model_trigger::{TriggerOp, TriggerReply};
use zk_model_work::{Submitted, WorkOp, WorkReply};
use zk_turn::{Cell, Pass};
use zk_work::Work;

/// An item that has fired, and the queue that it is to be submitted to.
#[derive(Clone, Copy)]
pub struct Owed {
    pub item: u32,
    pub queue: u32,
}

/// What a reply with a fire says.
fn owed_of(reply: TriggerReply) -> Owed
    requires { is_fire reply ≡ true }
    ensures { result ≡ owed_of reply }
{
    match reply {
        TriggerReply::Fire(_, item, queue, _) => Owed { item, queue },
        _ => unreachable!(),
    }
}

/// What the answer to a submission says.
fn submitted_of(made: Option<(WorkReply, u64)>) -> Submitted
    requires { is_submission made ≡ true }
    ensures { made_with result made }
{
    match made {
        Some((WorkReply::Sub(submitted), _)) => submitted,
        _ => unreachable!(),
    }
}

/// Takes the next fire, by a turn of its own.
fn take_fire<R: Wait>(
    rt: &R,
    cell: &Cell<Trigger>,
    pass: Pass<Trigger>,
    step: u32,
) -> (Pass<Trigger>, Result<Option<Owed>, NoMemory>)
    requires own { IsPassOf (IsLegal trigger_machine) trigger_start cell.now pass }
    requires alone { pass_players pass ≡ pass_who pass ∷ [] }
    requires room { 0 < pass_room pass }
    requires later { IsAbove (pass_mine pass) (pass_who pass).number step }
    requires start { trigger_start (given_to cell.now) ≡ new_triggers }
    ensures own { IsPassOf (IsLegal trigger_machine) trigger_start cell.now result.0 }
    ensures players { pass_players result.0 ≡ pass_players pass }
    ensures who { pass_who result.0 ≡ pass_who pass }
    ensures holds { pass_holds result.0 ≡ pass_holds pass + 1 }
    ensures room { pass_room result.0 + fires_made result.1 ≡ pass_room pass }
    ensures taken { TakesFire (pass_who pass) step (pass_seen pass) (pass_seen result.0) result.1 }
    ensures later { IsAbove (pass_mine result.0) (pass_who pass).number (step_after_fire step result.1) }
{
    let (pass, answer) = cell.call(rt, pass, step, TriggerOp::Next);
    let found = match answer {
        Ok(found) => found,
        Err(e) => return (pass, Err(e)),
    };
    match found {
        None => (pass, Ok(None)),
        Some(made) => (pass, Ok(Some(owed_of(made.0)))),
    }
}

/// Submits what is owed, by a turn of its own.
fn submit<R: Wait>(
    rt: &R,
    cell: &Cell<Work>,
    pass: Pass<Work>,
    step: u32,
    owed: Owed,
) -> (Pass<Work>, Result<Submitted, NoMemory>)
    requires own { IsPassOf (IsLegal work_machine) work_start cell.now pass }
    requires alone { pass_players pass ≡ pass_who pass ∷ [] }
    requires room { 0 < pass_room pass }
    requires later { IsAbove (pass_mine pass) (pass_who pass).number step }
    requires wide { is_wide (work_start (given_to cell.now)) ≡ true }
    requires range { (owed.item < 256) × (owed.queue < 8) }
    ensures own { IsPassOf (IsLegal work_machine) work_start cell.now result.0 }
    ensures players { pass_players result.0 ≡ pass_players pass }
    ensures who { pass_who result.0 ≡ pass_who pass }
    ensures holds { pass_holds result.0 ≡ pass_holds pass + 1 }
    ensures room { pass_room result.0 + submissions_made result.1 ≡ pass_room pass }
    ensures submitted { Submits (work_start (given_to cell.now)) (pass_who pass) step owed
        (pass_seen pass) (pass_seen result.0) result.1 }
    ensures later { IsAbove (pass_mine result.0) (pass_who pass).number (step_after_submission step result.1) }
{
    let (pass, answer) = cell.call(rt, pass, step, WorkOp::Submit(owed.item, Some(owed.queue)));
    match answer {
        Ok(made) => (pass, Ok(submitted_of(made))),
        Err(e) => (pass, Err(e)),
    }
}

/// Turns fires into submissions, as one player: each fire that it takes is submitted once, to the queue of its arm.
///
/// One fire at most is owed: it was taken, and its submission wanted memory. The next step submits it first.
#[derive(Drop)]
pub struct Pump {
    // Both are there between two calls.
    triggers: Option<Pass<Trigger>>,
    work: Option<Pass<Work>>,
    owed: Option<Owed>,
    // The number of the player's next step.
    step: u32,
}

impl Pump {
    /// A pump with these passes, which are to be new ones of one and the same player. Its steps are counted from 0.
    pub fn new(triggers: Pass<Trigger>, work: Pass<Work>) -> Pump
        ensures next { (result.owed ≡ None) × (result.triggers ≡ Some triggers) × (result.work ≡ Some work) }
        ensures pump { (t : TriggerCell) (w : WorkCell) (who : Who) →
            IsNewPass (IsLegal trigger_machine) trigger_start t who triggers →
            IsNewPass (IsLegal work_machine) work_start w who work → IsPump t w who result }
    {
        Pump {
            triggers: Some(triggers),
            work: Some(work),
            owed: None,
            step: 0,
        }
    }

    /// Whether a fire that was taken isn't submitted yet.
    pub fn owes(&self) -> bool
        ensures { result ≡ is_some self.now.owed }
    {
        self.owed.is_some()
    }

    /// What is to be submitted next: what is owed, else the next fire, which is owed from then on.
    fn next_owed<R: Wait>(
        &mut self,
        rt: &R,
        triggers: &Cell<Trigger>,
    ) -> Result<Option<Owed>, NoMemory>
        requires own { (who : Who) ×
            IsSeat (IsLegal trigger_machine) trigger_start triggers.now who self.old.step self.old.triggers }
        requires room { 0 < room_at self.old.triggers }
        requires short { self.old.step + 1 < 2 ^ 32 }
        requires start { trigger_start (given_to triggers.now) ≡ new_triggers }
        ensures own { (who : Who) →
            IsSeat (IsLegal trigger_machine) trigger_start triggers.now who self.old.step self.old.triggers →
            IsSeat (IsLegal trigger_machine) trigger_start triggers.now who self.new.step self.new.triggers }
        ensures next { (who : Who) →
            IsSeat (IsLegal trigger_machine) trigger_start triggers.now who self.old.step self.old.triggers →
            HasNext who self.old self.new result }
    {
        if let Some(owed) = self.owed {
            return Ok(Some(owed));
        }
        let Some(pass) = self.triggers.take() else {
            unreachable!()
        };
        let (pass, answer) = take_fire(rt, triggers, pass, self.step);
        self.triggers = Some(pass);
        match answer {
            Ok(Some(owed)) => {
                self.owed = Some(owed);
                self.step += 1;
                Ok(Some(owed))
            }
            Ok(None) => Ok(None),
            Err(e) => Err(e),
        }
    }

    /// Submits what is owed.
    fn pay<R: Wait>(&mut self, rt: &R, work: &Cell<Work>, owed: Owed) -> Result<Submitted, NoMemory>
        requires own { (who : Who) × IsSeat (IsLegal work_machine) work_start work.now who self.old.step self.old.work }
        requires room { 0 < room_at self.old.work }
        requires short { self.old.step + 1 < 2 ^ 32 }
        requires wide { is_wide (work_start (given_to work.now)) ≡ true }
        requires range { (owed.item < 256) × (owed.queue < 8) }
        ensures own { (who : Who) → IsSeat (IsLegal work_machine) work_start work.now who self.old.step self.old.work →
            IsSeat (IsLegal work_machine) work_start work.now who self.new.step self.new.work }
        ensures paid { (who : Who) → IsSeat (IsLegal work_machine) work_start work.now who self.old.step self.old.work →
            HasPaid who (work_start (given_to work.now)) owed self.old self.new result }
    {
        let Some(pass) = self.work.take() else {
            unreachable!()
        };
        let (pass, answer) = submit(rt, work, pass, self.step, owed);
        self.work = Some(pass);
        match answer {
            Ok(submitted) => {
                self.owed = None;
                self.step += 1;
                Ok(submitted)
            }
            Err(e) => Err(e),
        }
    }

    /// Takes the next fire and submits its item, by two turns; a fire that is owed is submitted first, by one.
    ///
    /// `None` says that nothing was owed and no fire was there at the turn of the triggers. After want of memory call it again:
    /// nothing is lost.
    pub fn step<R: Wait>(
        &mut self,
        rt: &R,
        triggers: &Cell<Trigger>,
        work: &Cell<Work>,
    ) -> Result<Option<Submitted>, NoMemory>
        requires pump { (who : Who) × IsPump triggers.now work.now who self.old }
        requires start { trigger_start (given_to triggers.now) ≡ new_triggers }
        requires wide { is_wide (work_start (given_to work.now)) ≡ true }
        requires room { (0 < room_at self.old.triggers) × (0 < room_at self.old.work) }
        ensures pump { (who : Who) → IsPump triggers.now work.now who self.old → IsPump triggers.now work.now who self.new }
        ensures pumped { (who : Who) → IsPump triggers.now work.now who self.old →
            HasPumped who (work_start (given_to work.now)) self.old self.new result }
    {
        let Some(owed) = self.next_owed(rt, triggers)? else {
            return Ok(None);
        };
        let submitted = self.pay(rt, work, owed)?;
        Ok(Some(submitted))
    }

    /// The passes of a pump that owes nothing.
    pub fn finish(self) -> (Pass<Trigger>, Pass<Work>)
        requires idle { is_some self.owed ≡ false }
        requires there { (is_some self.triggers ≡ true) × (is_some self.work ≡ true) }
        ensures { (self.triggers ≡ Some result.0) × (self.work ≡ Some result.1) }
    {
        let Pump { triggers, work, .. } = self;
        match (triggers, work) {
            (Some(triggers), Some(work)) => (triggers, work),
            _ => unreachable!(),
        }
    }
}
