ghost use Rattle.std.specs.Prelude.{◌≡◌, All, IfOk, map};
ghost use Rattle.zk_cells.specs.Dealt.{AreUndealt};
ghost use Rattle.zk_cells.specs.Joined.{whos};
ghost use Rattle.zk_kernel.specs.Callers.{place_of};
ghost use Rattle.zk_kernel.specs.Opened.{IsUnplayed};

use crate::caller::Caller;
use crate::kernel::Kernel;
use std::alloc::Global;
use std::snapshot::Snapshot;
use zk_base::{NoMemory, push_within};
use zk_cells::{Undealt, deal_passes};
use zk_worker::Player;

/// A caller of the kernel for each player, in order.
pub fn deal_all(
    alloc: Global,
    kernel: &Kernel,
    mut players: Vec<Player>,
    mut undealt: Undealt,
) -> Result<Vec<Caller>, NoMemory>
    ensures players { IfOk result (λ callers. map place_of callers.items ≡ players.items) }
    ensures new { IfOk result (λ callers. AreUndealt kernel.now.cells (whos players.items) undealt →
        All (IsUnplayed kernel.now) callers.items) }
{
    let mut callers = Vec::with_capacity(alloc, players.len())?;
    while let Some(player) = players.pop() {
        let passes = deal_passes(alloc, kernel.cells(), &mut undealt)?;
        push_within(
            &mut callers,
            Caller {
                player,
                passes: Some(passes),
                stopped: false,
                kernel: Snapshot::of(kernel),
            },
        );
    }
    callers.reverse();
    Ok(callers)
}
