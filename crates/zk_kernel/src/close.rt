ghost use Rattle.std.specs.Prelude.{◌≡◌, ◌+◌, ◌<◌, ◌≤◌, ◌++◌, ◌∷◌, [], List, Some, length, map, IsPermutation, IfOk, vec_len, vec_capacity};
ghost use Rattle.zk_kernel.specs.declared.caller.Caller.{Caller};
ghost use Rattle.zk_kernel.specs.Callers.{IsCaller, place_of};
ghost use Rattle.zk_cells.specs.Desks.{IsServed};
ghost use Rattle.zk_kernel.specs.Gathered.{AreTogether, AreGathered, AreInOrder};
ghost use Rattle.zk_kernel.specs.Rests.{AreAllCallers, HasClosed};

use crate::caller::Caller;
use crate::kernel::Kernel;
use crate::rest::Rest;
use std::alloc::Global;
use zk_base::{NoMemory, push_within};
use zk_cells::{Cells, Passes, empty_cells, join_passes};
use zk_scenario::Scenario;
use zk_worker::Player;

/// Puts the passes of one more caller to those of the callers before it.
fn put_together(cells: &Cells, all: Option<Passes>, other: Passes) -> Result<Passes, NoMemory>
    requires all { (callers : List Caller) × (c : Caller) × AreTogether cells.now callers all × (c.passes ≡ Some other)
        × IsServed cells.now other (place_of c).who }
    ensures { IfOk result (λ made. (callers : List Caller) (c : Caller) → AreTogether cells.now callers all →
        c.passes ≡ Some other → IsServed cells.now other (place_of c).who → AreGathered cells.now (callers ++ c ∷ []) made) }
{
    match all {
        Some(mut into) => {
            join_passes(cells, &mut into, other)?;
            Ok(into)
        }
        None => Ok(other),
    }
}

/// Puts the passes of one more caller to those of the callers before it, and takes out its player.
fn gather_one(
    kernel: &Kernel,
    all: Option<Passes>,
    players: &mut Vec<Player>,
    caller: Caller,
) -> Result<Passes, NoMemory>
    requires own { IsCaller kernel.now caller }
    requires all { (callers : List Caller) × AreTogether kernel.now.cells callers all }
    requires room { vec_len players.old < vec_capacity players.old }
    ensures all { IfOk result (λ made. (callers : List Caller) → AreTogether kernel.now.cells callers all →
        AreGathered kernel.now.cells (callers ++ caller ∷ []) made) }
    ensures players { players.new.items ≡ players.old.items ++ place_of caller ∷ [] }
    ensures len { vec_len players.new ≡ vec_len players.old + 1 }
    ensures capacity { vec_capacity players.old ≤ vec_capacity players.new }
{
    let Caller {
        player,
        passes,
        stopped: _,
        kernel: _,
    } = caller;
    let Some(passes) = passes else { unreachable!() };
    push_within(players, player);
    put_together(kernel.cells(), all, passes)
}

/// Puts the passes of callers together, and takes out their players, in the order of the callers.
fn gather_all(
    alloc: Global,
    kernel: &Kernel,
    mut callers: Vec<Caller>,
) -> Result<(Passes, Vec<Player>), NoMemory>
    requires all { AreInOrder kernel.now callers.items }
    ensures together { IfOk result (λ made. AreGathered kernel.now.cells callers.items made.0) }
    ensures players { IfOk result (λ made. made.1.items ≡ map place_of callers.items) }
{
    let _cells = kernel.cells();
    let mut players = Vec::with_capacity(alloc, callers.len())?;
    let mut all = None;
    callers.reverse();
    while let Some(caller) = callers.pop() {
        all = Some(gather_one(kernel, all, &mut players, caller)?);
    }
    let Some(all) = all else { unreachable!() };
    Ok((all, players))
}

/// Puts all callers of a kernel in the order of their numbers.
fn put_in_order(kernel: &Kernel, callers: &mut Vec<Caller>)
    requires all { AreAllCallers kernel.now callers.old.items }
    ensures order { AreInOrder kernel.now callers.new.items }
    ensures same { IsPermutation callers.old.items callers.new.items }
    ensures count { length callers.new.items ≡ length callers.old.items }
{
    let _kernel = kernel;
    callers.sort_unstable_by_key(|caller| caller.who().number);
}

impl Kernel {
    /// Takes the services out of their cells, for all callers that the kernel was made with, in whatever order they stand, and
    /// plays their writes at signals in the order of the stamps.
    ///
    /// A refusal of memory gives all of it up. A caller that a stop has ended comes back with the others: its player goes
    /// on from its log.
    pub fn close(self, alloc: Global, mut callers: Vec<Caller>) -> Result<Rest, NoMemory>
        requires all { AreAllCallers self callers.items }

        // What is left is sound: of each player just its log is shown, and there is no other entry.
        ensures closed { IfOk result (λ rest. HasClosed self callers.items rest) }
    {
        put_in_order(&self, &mut callers);
        let (all, players) = gather_all(alloc, &self, callers)?;
        let (cells, scenario) = self.into_parts();
        let services = empty_cells(alloc, cells, all)?;
        Ok(Rest::of(services, players, scenario))
    }
}
