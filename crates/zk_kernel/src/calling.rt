ghost use Rattle.std.specs.Prelude.{◌≡◌, nat_le, length, IfOk, OnErr, true, false, Some, None};
ghost use Rattle.zk_worker.specs.Attempt.{Attempted, KeepsElsewhere};
ghost use Rattle.zk_base.specs.Causes.{counted};
ghost use Rattle.zk_worker.specs.Machines.{machines_of};
ghost use Rattle.zk_worker.specs.Protocol.{IsAhead};
ghost use Rattle.zk_kernel.specs.Callers.{IsCaller, place_of, shown_to, counts_of, is_stopped, lives, attempted_at};
ghost use Rattle.zk_kernel.specs.Calling.{Moment, moment_of, HasCalled, stops_by};
ghost use Rattle.zk_cells.specs.Memory.{wants_none};
ghost use Rattle.zk_worker.specs.Next.{next_call};
ghost use Rattle.zk_kernel.specs.Within.{IsUnderWay, GoesOrGives, answer_since};
ghost use Rattle.zk_worker.specs.Follows.{is_through};

use crate::caller::Caller;
use crate::kernel::Kernel;
use crate::news::Patience;
use crate::stop::Stop;
use std::sync::Wait;
use zk_base::NoMemory;
use zk_cells::Desk;
use zk_line::Call;
use zk_worker::{Answer, MOST_ATTEMPTS, Mode, Services, Step, StepReply, Stepped};

impl Caller {
    /// Makes one attempt, of those that `ahead` gives, by a turn at its service, and at a signal without one: its reply, or
    /// nothing where it isn't possible.
    ///
    /// After want of memory it can be called again.
    pub fn attempt<R: Wait>(
        &mut self,
        rt: &R,
        kernel: &Kernel,
        step: &Step,
    ) -> Result<Option<StepReply>, NoMemory>
        requires own { IsCaller kernel.now self.old }
        requires ahead { IsAhead kernel.now.scenario (place_of self.old) step.now }

        // A reply is the machine's at what this turn found, and is followed by the step's entry; without a reply the machine
        // says so at what it found, and no entry of this player came. What was seen of each other object stays as it was.
        ensures attempted { Attempted false (machines_of kernel.now.scenario) (place_of self.old).who
            (length (place_of self.old).spots) step.now (shown_to self.old) (shown_to self.new) result }
        ensures place { place_of self.new ≡ attempted_at kernel.now.scenario (place_of self.old) step.now result }
        ensures elsewhere { KeepsElsewhere step.now (shown_to self.old) (shown_to self.new) }

        // Where it wasn't possible it had one turn there, or made one look at the signal, as far as these are counted.
        ensures once { IfOk result (λ reply. reply ≡ None →
            counts_of self.new step.now ≡ counted (counts_of self.old step.now)) }

        // A step that ends what an earlier one began wants no memory, nor does one that takes no turn.
        ensures memory { OnErr result (wants_none (machines_of kernel.now.scenario) (shown_to self.new)
            (place_of self.old).who step.now ≡ false) }

        // It is a caller of this kernel still, of the same player.
        ensures own { IsCaller kernel.now self.new }
        ensures who { (place_of self.new).who ≡ (place_of self.old).who }
        ensures stopped { is_stopped self.new ≡ is_stopped self.old }
    {
        let Some(passes) = self.passes.take() else {
            unreachable!()
        };
        let cells = kernel.cells();
        let mut desk = Desk { rt, cells, passes };
        let reply = desk.attempt(self.player.who(), self.player.steps(), step);
        let Desk {
            rt: _,
            cells: _,
            passes,
        } = desk;
        self.passes = Some(passes);
        let Some(reply) = reply? else {
            return Ok(None);
        };
        self.player.made(kernel.scenario(), step, &reply);
        kernel.news().tell(rt);
        Ok(Some(reply))
    }

    /// Plays a whole call, which is the one that the player makes next, and waits where it has to.
    ///
    /// Where it has to wait it lets others run, and then sleeps until a step was made in the kernel; but where it waits for a
    /// signal it only lets others run. A check that fails ends the caller's thread, and is the answer also where a listener's
    /// script made it.
    pub fn call<R: Wait>(&mut self, rt: &R, kernel: &Kernel, call: &Call) -> Result<Answer, Stop>
        requires own { IsCaller kernel.now self.old }
        requires lives { lives self.old ≡ true }
        requires next { next_call kernel.now.scenario (place_of self.old) ≡ Some call.now }

        // The steps that it made are the protocol's, and the answer is that of the last.
        ensures does { HasCalled kernel.now call.now (moment_of self.old) (moment_of self.new) result }
        ensures stopped { is_stopped self.new ≡ stops_by result }

        // It is a caller of this kernel still, of the same player.
        ensures own { IsCaller kernel.now self.new }
        ensures who { (place_of self.new).who ≡ (place_of self.old).who }
    {
        let depth = self.player.depth();
        let mut patience = Patience::new(kernel.news());
        for _ in rt.forever() {
            if let Some(result) = self.go_on(rt, kernel, call, depth, &mut patience) {
                patience.end();
                self.stopped = result.is_err();
                return result;
            }
        }
        unreachable!()
    }

    // How many calls it has answered.
    fn answers(&self) -> usize
        ensures { result ≡ length (place_of self.now).answers }
    {
        self.player.answer_count()
    }

    // Whether no more than so many scripts are open.
    fn has_at_most(&self, depth: u32) -> bool
        ensures { result ≡ nat_le (length (place_of self.now).frames) depth }
    {
        self.player.depth() <= depth
    }

    // What the step behind so many answers answered to a call, which was of the call's own script or of one that it entered.
    fn answer_since(&self, before: usize, is_own: bool) -> Option<Answer>
        ensures { result ≡ answer_since (place_of self.now) before is_own }
    {
        let count = self.player.answer_count();
        let is_dead = self.player.mode() == Mode::Dead;
        if before < count && (is_own || is_dead) {
            let answered = self.player.answered(count - 1)?;
            return Some(answered.answer);
        }
        None
    }

    // Whether one of its next attempts is a look at a signal.
    fn looks_at_signals(&self, kernel: &Kernel) -> bool {
        for index in 0..MOST_ATTEMPTS {
            match self.player.ahead(kernel.scenario(), index) {
                Some(Step::LookSignal(_, _)) => return true,
                Some(_) => {}
                None => return false,
            }
        }
        false
    }

    // The next step of a call that began when so many scripts were open, or a wait for it; and what the call gives, if it
    // was the last one.
    fn go_on<R: Wait>(
        &mut self,
        rt: &R,
        kernel: &Kernel,
        call: &Call,
        depth: u32,
        patience: &mut Patience,
    ) -> Option<Result<Answer, Stop>>
        requires own { IsCaller kernel.now self.old }
        requires open { is_through (place_of self.old).frames ≡ false }
        ensures goes { (began : Moment) → depth ≡ length began.place.frames →
            IsUnderWay kernel.now call.now began (moment_of self.old) →
            GoesOrGives kernel.now call.now began (moment_of self.new) result }
        ensures own { IsCaller kernel.now self.new }
        ensures who { (place_of self.new).who ≡ (place_of self.old).who }
        ensures stopped { is_stopped self.new ≡ is_stopped self.old }
    {
        let before = self.answers();
        let is_own = self.has_at_most(depth);
        match self.step(rt, kernel) {
            Ok(Stepped::Did) => {
                patience.end();
                let answer = self.answer_since(before, is_own)?;
                Some(Ok(answer))
            }
            Ok(Stepped::NotYet) => {
                patience.wait(rt, self.looks_at_signals(kernel));
                None
            }
            Ok(Stepped::Ended) => unreachable!(),
            Ok(Stepped::Spent) => Some(Err(Stop::Spent)),
            Err(NoMemory) => Some(Err(Stop::NoMemory)),
        }
    }
}
