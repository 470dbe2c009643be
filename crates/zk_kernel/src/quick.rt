ghost use Rattle.std.specs.Prelude.{◌≡◌, true, false, None, Ok, length};
ghost use Rattle.zk_base.specs.Causes.{counted};
ghost use Rattle.zk_worker.specs.Attempt.{Attempted, KeepsElsewhere};
ghost use Rattle.zk_worker.specs.Machines.{machines_of};
ghost use Rattle.zk_worker.specs.Protocol.{IsAhead};
ghost use Rattle.zk_cells.specs.Quick.{is_quick, FoundClear};
ghost use Rattle.zk_kernel.specs.Callers.{IsCaller, place_of, shown_to, counts_of, is_stopped, attempted_at};

use crate::caller::Caller;
use crate::kernel::Kernel;
use zk_cells::quick_attempt;
use zk_worker::{Step, StepReply};

impl Caller {
    /// Makes one attempt without a turn, of those that `ahead` gives: a write or a look at a signal, or a look at an item. It
    /// gives its reply, or nothing where it is a look that has to find its signal raised and found it clear.
    ///
    /// It takes no memory, and waits for nobody. It wakes nobody either: a caller that waits within `call` for a signal looks
    /// again from time to time.
    pub fn quick(&mut self, kernel: &Kernel, step: &Step) -> Option<StepReply>
        requires own { IsCaller kernel.now self.old }
        requires ahead { IsAhead kernel.now.scenario (place_of self.old) step.now }
        requires quick { is_quick step.now ≡ true }

        // A reply is the machine's, and is followed by the step's entry, if it has one; without a reply a look found the signal
        // clear, which is shown with the other looks, and is one look more. What was seen of each other object stays as it was.
        ensures attempted { Attempted false (machines_of kernel.now.scenario) (place_of self.old).who
            (length (place_of self.old).spots) step.now (shown_to self.old) (shown_to self.new) (Ok result) }
        ensures place { place_of self.new ≡ attempted_at kernel.now.scenario (place_of self.old) step.now (Ok result) }
        ensures none { result ≡ None → FoundClear step.now (shown_to self.old) (shown_to self.new) }
        ensures elsewhere { KeepsElsewhere step.now (shown_to self.old) (shown_to self.new) }
        ensures once { result ≡ None → counts_of self.new step.now ≡ counted (counts_of self.old step.now) }

        // It is a caller of this kernel still, of the same player.
        ensures own { IsCaller kernel.now self.new }
        ensures who { (place_of self.new).who ≡ (place_of self.old).who }
        ensures stopped { is_stopped self.new ≡ is_stopped self.old }
    {
        let Some(mut passes) = self.passes.take() else {
            unreachable!()
        };
        let cells = kernel.cells();
        let reply = quick_attempt(
            cells,
            &mut passes,
            self.player.who(),
            self.player.steps(),
            step,
        );
        self.passes = Some(passes);
        let Some(reply) = reply else {
            return None;
        };
        self.player.made(kernel.scenario(), step, &reply);
        Some(reply)
    }
}
