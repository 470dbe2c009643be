ghost use Rattle.std.specs.Prelude.{◌≡◌, ◌<◌, ℕ, Some, length, map, All, IfOk};
ghost use Rattle.zk_scenario.specs.Players.{players};
ghost use Rattle.zk_kernel.specs.Callers.{IsCaller};
ghost use Rattle.zk_kernel.specs.Rests.{AreAllCallers, numbers_from};
ghost use Rattle.zk_pool.specs.Counts.{tally};
ghost use Rattle.zk_pool.specs.Rule.{Suits};
ghost use Rattle.zk_cores.specs.Seats.{seat_caller, seat_number, seat_kernel, IsSeated};

use crate::seat::Seat;
use std::alloc::Global;
use zk_base::{NoMemory, push_within};
use zk_kernel::{Caller, Kernel};

/// A seat for each caller of a kernel, in their order.
pub fn seat_all(alloc: Global, kernel: &Kernel, callers: Vec<Caller>) -> Result<Vec<Seat>, NoMemory>
    requires own { All (IsCaller kernel.now) callers.items }
    ensures callers { IfOk result (λ seats. map seat_caller seats.items ≡ callers.items) }
    ensures suits { IfOk result (λ seats. All (Suits seat_number seat_kernel IsSeated (Some kernel.now)) seats.items) }
{
    let mut seats = Vec::with_capacity(alloc, callers.len())?;
    for caller in callers {
        let seat = Seat::new(alloc, caller)?;
        push_within(&mut seats, seat);
    }
    Ok(seats)
}

/// The callers in these seats, in their order.
fn callers_of(alloc: Global, seats: Vec<Seat>) -> Result<Vec<Caller>, NoMemory>
    ensures { IfOk result (λ callers. callers.items ≡ map seat_caller seats.items) }
{
    let mut callers = Vec::with_capacity(alloc, seats.len())?;
    for seat in seats {
        push_within(&mut callers, seat.into_caller());
    }
    Ok(callers)
}

/// The callers in all these seats.
pub fn unseat_all(alloc: Global, kernel: &Kernel, seats: Vec<Seat>) -> Result<Vec<Caller>, NoMemory>
    requires suits { All (Suits seat_number seat_kernel IsSeated (Some kernel.now)) seats.items }
    requires once { (n : ℕ) → tally n (map seat_number seats.items) ≡ tally n (numbers_from 0 (length seats.items)) }
    requires many { length seats.items ≡ length (players kernel.now.scenario.decls) }
    ensures all { IfOk result (λ callers. AreAllCallers kernel.now callers.items) }
{
    let _kernel = kernel;
    callers_of(alloc, seats)
}
