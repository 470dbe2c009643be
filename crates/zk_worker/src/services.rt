ghost use Rattle.std.specs.Prelude.{◌≡◌, ℕ, ◌<◌, Bool, true, false, None, IfOk, OnErr};
ghost use Rattle.zk_base.specs.declared.ids.Who.{Who};
ghost use Rattle.zk_base.specs.Causes.{Rose};
ghost use Rattle.zk_scenario.specs.declared.scenario.TheConstants.{MOST_STEPS};
ghost use Rattle.zk_worker.specs.Machines.{Machines};
ghost use Rattle.zk_worker.specs.Shown.{Shown, IsLater, AreShort};
ghost use Rattle.zk_worker.specs.declared.steps.Step.{Step};
ghost use Rattle.zk_worker.specs.Attempt.{Counts, is_in_range, NoneFell, SamePlayers, Attempted, KeepsElsewhere};

use crate::{Step, StepReply};
use zk_base::{NoMemory, Who};

/// The services of the kernel, as whoever plays on them sees them.
pub trait Services {
    /// What tells these services from others of their type.
    type Home;

    /// What they stand on. No call changes it.
    ghost home: { Self → Self.Home };

    /// The machines that the services are the services of, and how many steps of a player they have room for. No call changes them.
    ghost machines: { Self → Machines };

    /// The players whom they serve. No call changes them.
    ghost serves: { Self → Who → Type 0 };

    /// Whether nobody else uses them meanwhile. No call changes that.
    ghost alone: { Self → Bool };

    /// What they show: the history of each service, and the looks where they show those.
    ghost shown: { Self → Shown };

    /// Whether a step wants no memory where this is shown: it ends what an earlier one began, which took the room for both.
    ghost wants_none: { Machines → Shown → Who → Step → Bool };

    /// How many attempts were made at the service of each step, as far as they are counted.
    ghost counts: { Self → Counts };

    /// One attempt of a step: its reply, or nothing where the machine says that it isn't possible.
    ///
    /// The number is that of the step among all steps of the player, at whatever service.
    fn attempt(&mut self, who: Who, number: u32, step: &Step) -> Result<Option<StepReply>, NoMemory>
        requires served { serves self.old who }
        requires range { is_in_range (machines self.old) step.now ≡ true }
        requires number { number < MOST_STEPS }
        requires room { number < (machines self.old).most }
        requires later { IsLater (shown self.old) who.number number }
        requires short { alone self.old ≡ true → AreShort (shown self.old) }

        // A reply is the machine's at what was shown before, followed by entries of others at most, and its entry comes then.
        // Else no entry of this player comes, and without a reply the machine says so at what is shown then.
        ensures attempted { Attempted (alone self.old) (machines self.old) who number step.now
            (shown self.old) (shown self.new) result }

        // All that comes, entries of others too, comes at the object of the step.
        ensures elsewhere { KeepsElsewhere step.now (shown self.old) (shown self.new) }

        // A step that wants no memory is refused none.
        ensures memory { OnErr result (wants_none (machines self.old) (shown self.new) who step.now ≡ false) }

        // The counts, with the one of an attempt that wasn't possible.
        ensures counts { NoneFell (counts self.old) (counts self.new) }
        ensures rose { IfOk result (λ reply. reply ≡ None →
            Rose (counts self.old step.now) (counts self.new step.now)) }

        ensures machines { machines self.new ≡ machines self.old }
        ensures serves { SamePlayers (serves self.old) (serves self.new) }
        ensures alone { alone self.new ≡ alone self.old }
        ensures home { home self.new ≡ home self.old };
}
