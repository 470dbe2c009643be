//! Pseudo-random numbers, and the operations that they make.
ghost use Rattle.std.specs.Prelude.{◌<◌};

use zk_base::Few;
use zk_trigger::TriggerOp;

/// How many items and events are drawn from: so few that items are busy, and events ready.
const ITEMS: u32 = 5;

const EVENTS: u32 = 6;

/// The next of the numbers, below the bound.
pub fn draw(seed: &mut u32, bound: u32) -> u32
    requires { 0 < bound }
    ensures { result < bound }
{
    *seed = seed.wrapping_mul(1_664_525).wrapping_add(1_013_904_223);
    (*seed >> 16) % bound
}

/// An arm by two events, in two of three with a time, which may be over at once.
fn drawn_arm(seed: &mut u32) -> TriggerOp {
    let item = draw(seed, ITEMS);
    let queue = draw(seed, 8);
    let first = draw(seed, EVENTS);
    let second = draw(seed, EVENTS);
    let ticks = draw(seed, 9);
    let Some(events) = Few::new(&[first, second]) else {
        return TriggerOp::Next;
    };
    let ticks = if ticks < 6 { Some(ticks) } else { None };
    TriggerOp::Arm(item, queue, events, ticks)
}

/// An operation.
pub fn drawn(seed: &mut u32) -> TriggerOp {
    match draw(seed, 10) {
        0..=2 => drawn_arm(seed),
        3 => TriggerOp::Post(draw(seed, EVENTS)),
        4 | 5 => TriggerOp::Unpost(draw(seed, EVENTS)),
        6 => TriggerOp::Tick(1 + draw(seed, 3)),
        7 => TriggerOp::Cancel(draw(seed, ITEMS)),
        _ => TriggerOp::Next,
    }
}
