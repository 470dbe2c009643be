ghost use Rattle.std.specs.Prelude.{◌≡◌};
ghost use Rattle.zk_kernel.specs.Rests.{AreAllCallers};

use std::sync::Wait;
use zk_base::NoMemory;
use zk_kernel::{Caller, Kernel, Rest};
use zk_worker::Stepped;

/// One step of each caller, where it can make one, in the order of their numbers.
fn play_round<R: Wait>(rt: &R, kernel: &Kernel, callers: &mut Vec<Caller>) -> Result<(), NoMemory>
    requires all { AreAllCallers kernel.now callers.old.items }
    ensures all { AreAllCallers kernel.now callers.new.items }
{
    for index in 0..callers.len() {
        callers[index].step(rt, kernel)?;
    }
    Ok(())
}

/// So many rounds, each of one step of each caller where it can make one.
pub fn play_rounds<R: Wait>(
    rt: &R,
    kernel: &Kernel,
    callers: &mut Vec<Caller>,
    rounds: u32,
) -> Result<(), NoMemory>
    requires all { AreAllCallers kernel.now callers.old.items }
    ensures all { AreAllCallers kernel.now callers.new.items }
{
    for _round in 0..rounds {
        play_round(rt, kernel, callers)?;
    }
    Ok(())
}

/// Plays on what is left until no player can go on, for so many rounds at most.
pub fn finish(rest: &mut Rest, rounds: u32) -> Result<(), NoMemory>
    ensures scenario { rest.new.scenario ≡ rest.old.scenario }
{
    for _round in 0..rounds {
        let mut has_moved = false;
        for number in 0..rest.players() {
            if rest.step(number)? == Stepped::Did {
                has_moved = true;
            }
        }
        if !has_moved {
            break;
        }
    }
    Ok(())
}
