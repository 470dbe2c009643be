ghost use Rattle.std.specs.Prelude.{◌≡◌, ◌≤◌, false, ℕ, length, slice_get, option_copied, IfOk, OnErr};
ghost use Rattle.zk_worker.specs.Next.{next_call};
ghost use Rattle.zk_scenario.specs.declared.scenario.TheConstants.{MOST_STEPS};
ghost use Rattle.zk_worker.specs.Machines.{machines_of};
ghost use Rattle.zk_worker.specs.Playing.{HasWanted, StepOutcome};
ghost use Rattle.zk_worker.specs.Protocol.{attempts};
ghost use Rattle.zk_worker.specs.Shown.{OnlyOthersCame};
ghost use Rattle.zk_cells.specs.Memory.{wants_none};
ghost use Rattle.zk_kernel.specs.Callers.{IsCaller, place_of, shown_to, counts_of, is_stopped, lives};

use crate::kernel::Kernel;
use std::snapshot::Snapshot;
use std::sync::Wait;
use zk_base::{NoMemory, Who};
use zk_cells::{Desk, Passes};
use zk_line::Call;
use zk_pool::Numbered;
use zk_worker::{Mode, Player, Step, Stepped};

/// One player at a kernel: a pass for each of its services, and the player's own log.
///
/// It may go from thread to thread, and in a pool from hand to hand. Each of its calls takes the kernel that it was made with.
#[derive(Drop)]
pub struct Caller {
    pub(crate) player: Player,
    // Out while a call uses them.
    pub(crate) passes: Option<Passes>,
    // A call was ended by want of memory or by the last of its steps.
    pub(crate) stopped: bool,
    // The kernel that it was made with; it has no bytes.
    pub(crate) kernel: Snapshot<Kernel>,
}

impl Numbered for Caller {
    type Home = Kernel;

    ghost use Rattle.zk_kernel.specs.Callers.{number_of, kernel_of, IsWhole};

    ghost number = { number_of };

    ghost home = { kernel_of };

    ghost kept = { IsWhole };

    fn number(&self) -> u32 {
        self.player.who().number
    }
}

impl Caller {
    /// Who it is to the services.
    pub fn who(&self) -> Who
        ensures { result ≡ (place_of self.now).who }
    {
        self.player.who()
    }

    /// How many steps it has made.
    pub fn steps(&self) -> u32
        ensures count { result ≡ length (place_of self.now).spots }
        ensures most { result ≤ MOST_STEPS }
    {
        self.player.steps()
    }

    /// Whether it may go on by whole calls: neither a check nor a stop has ended it.
    pub fn lives(&self) -> bool
        ensures { result ≡ lives self.now }
    {
        !self.stopped && self.player.mode() != Mode::Dead
    }

    /// The call that the player makes next, if it is at the beginning of one.
    pub fn next_call<'k>(&self, kernel: &'k Kernel) -> Option<&'k Call>
        ensures { option_copied result ≡ next_call kernel.now.scenario (place_of self.now) }
    {
        self.player.next_call(kernel.scenario())
    }

    /// The attempt of this index, from 0, among those that the player makes next.
    pub fn ahead(&self, kernel: &Kernel, index: u32) -> Option<Step>
        ensures { result ≡ slice_get (attempts kernel.now.scenario (place_of self.now)) index }
    {
        self.player.ahead(kernel.scenario(), index)
    }

    /// Makes the next step: the first of its attempts that is possible, each by a turn at its service.
    ///
    /// `NotYet` says of each attempt that it wasn't possible at a moment within this call; others may have changed that
    /// since. It waits for turns, and for nothing else. After want of memory it can be called again.
    pub fn step<R: Wait>(&mut self, rt: &R, kernel: &Kernel) -> Result<Stepped, NoMemory>
        requires own { IsCaller kernel.now self.old }

        // What was done, by the answer: what it has seen of each service grew by entries of others and by this step's.
        ensures does { IfOk result (λ stepped. StepOutcome false (machines_of kernel.now.scenario) kernel.now.scenario
            (place_of self.old) (place_of self.new) (shown_to self.old) (shown_to self.new)
            (counts_of self.old) (counts_of self.new) stepped) }
        ensures unchanged { OnErr result (place_of self.new ≡ place_of self.old) }
        ensures err { OnErr result (OnlyOthersCame false (place_of self.old).who.number
            (shown_to self.old) (shown_to self.new)) }

        // It was one of its next attempts that wanted memory, and none that ends what an earlier one began.
        ensures memory { OnErr result (HasWanted wants_none (machines_of kernel.now.scenario) (shown_to self.new)
            kernel.now.scenario (place_of self.old)) }

        // It is a caller of this kernel still, of the same player.
        ensures own { IsCaller kernel.now self.new }
        ensures who { (place_of self.new).who ≡ (place_of self.old).who }
        ensures stopped { is_stopped self.new ≡ is_stopped self.old }
    {
        let Some(passes) = self.passes.take() else {
            unreachable!()
        };
        let cells = kernel.cells();
        let mut desk = Desk { rt, cells, passes };
        let stepped = self.player.step(kernel.scenario(), &mut desk);
        let Desk {
            rt: _,
            cells: _,
            passes,
        } = desk;
        self.passes = Some(passes);
        kernel.news().tell_of(rt, &stepped);
        stepped
    }
}
