ghost use Rattle.std.specs.Prelude.{◌≡◌, ◌≤◌, [], length, All, IfOk};
ghost use Rattle.zk_pool.specs.Hands.{IsNewHand, IsHandOf, hand_held, pool_numbers};
ghost use Rattle.zk_cores.specs.Seats.{seat_number, seat_kernel, IsReady};

use crate::seat::Seat;
use crossbeam_utils::CachePadded;
use std::alloc::Global;
use zk_base::{NoMemory, push_within};
use zk_pool::{Hand, Keeper, Pool};

/// What one core has for itself.
#[derive(Drop)]
pub struct Core {
    /// Its number, from 0.
    pub number: u32,
    /// By which it takes callers out of the pool. It keeps those that wait and those that are through.
    pub keeper: Keeper<Seat>,
    /// How often it has passed the gate. Each core counts on a line of its own.
    pub passes: CachePadded<u64>,
    /// It found no memory for a step.
    pub refused: bool,
}

/// A core for each hand of a pool, with room for so many callers.
pub fn cores_of(
    alloc: Global,
    pool: &Pool<Seat>,
    hands: Vec<Hand<Seat>>,
    room: usize,
) -> Result<Vec<Core>, NoMemory>
    requires room { length (pool_numbers seat_number pool.now) ≤ room }
    requires new { All (IsNewHand seat_number seat_kernel pool.now) hands.items }
    ensures ready { IfOk result (λ core_list. All (IsReady pool.now) core_list.items) }
    ensures count { IfOk result (λ core_list. length core_list.items ≡ length hands.items) }
{
    let mut core_list = Vec::with_capacity(alloc, hands.len())?;
    let mut number = 0;
    for hand in hands {
        let keeper = Keeper::new(alloc, pool, hand, room)?;
        let core = Core {
            number,
            keeper,
            passes: CachePadded::new(0),
            refused: false,
        };
        push_within(&mut core_list, core);
        number = number.wrapping_add(1);
    }
    Ok(core_list)
}

/// The hands of these cores.
pub fn hands_of(
    alloc: Global,
    pool: &Pool<Seat>,
    core_list: Vec<Core>,
) -> Result<Vec<Hand<Seat>>, NoMemory>
    requires ready { All (IsReady pool.now) core_list.items }
    ensures own { IfOk result (λ hands. All (IsHandOf seat_number seat_kernel pool.now) hands.items) }
    ensures none { IfOk result (λ hands. All (λ hand. hand_held hand ≡ []) hands.items) }
    ensures count { IfOk result (λ hands. length hands.items ≡ length core_list.items) }
{
    let mut hands = Vec::with_capacity(alloc, core_list.len())?;
    for core in core_list {
        let Core {
            number: _,
            keeper,
            passes: _,
            refused: _,
        } = core;
        let hand = keeper.into_hand(pool);
        push_within(&mut hands, hand);
    }
    Ok(hands)
}
