ghost use Rattle.zk_kernel.specs.Rests.{AreAllCallers};

use crate::parts::{play_calls, play_steps};
use std::sync::Wait;
use zk_base::NoMemory;
use zk_kernel::{Caller, Kernel, Stop, is_quick};
use zk_worker::{StepReply, Stepped};

/// One step of the caller of this number, if there is one.
pub fn step_one<R: Wait>(
    rt: &R,
    kernel: &Kernel,
    callers: &mut Vec<Caller>,
    number: usize,
) -> Result<Option<Stepped>, NoMemory>
    requires all { AreAllCallers kernel.now callers.old.items }
    ensures all { AreAllCallers kernel.now callers.new.items }
{
    if number >= callers.len() {
        return Ok(None);
    }
    let stepped = callers[number].step(rt, kernel)?;
    Ok(Some(stepped))
}

/// The attempt of this index of the caller of this number, if there is one.
pub fn attempt_one<R: Wait>(
    rt: &R,
    kernel: &Kernel,
    callers: &mut Vec<Caller>,
    number: usize,
    index: u32,
) -> Result<Option<StepReply>, NoMemory>
    requires all { AreAllCallers kernel.now callers.old.items }
    ensures all { AreAllCallers kernel.now callers.new.items }
{
    if number >= callers.len() {
        return Ok(None);
    }
    let Some(step) = callers[number].ahead(kernel, index) else {
        return Ok(None);
    };
    callers[number].attempt(rt, kernel, &step)
}

/// The attempt of this index of the caller of this number, made without a turn, if it is one that takes none.
pub fn quick_one(
    kernel: &Kernel,
    callers: &mut Vec<Caller>,
    number: usize,
    index: u32,
) -> Option<StepReply>
    requires all { AreAllCallers kernel.now callers.old.items }
    ensures all { AreAllCallers kernel.now callers.new.items }
{
    if number >= callers.len() {
        return None;
    }
    let step = callers[number].ahead(kernel, index)?;
    if !is_quick(&step) {
        return None;
    }
    callers[number].quick(kernel, &step)
}

/// The calls of the caller of this number, up to the end of its script, or its steps, as far as they get.
pub fn play_one<R: Wait>(
    rt: &R,
    kernel: &Kernel,
    callers: &mut Vec<Caller>,
    number: usize,
    by_calls: bool,
) -> Result<(), Stop>
    requires all { AreAllCallers kernel.now callers.old.items }
    ensures all { AreAllCallers kernel.now callers.new.items }
{
    if number >= callers.len() {
        return Ok(());
    }
    if by_calls {
        play_calls(rt, kernel, &mut callers[number])
    } else {
        play_steps(rt, kernel, &mut callers[number]);
        Ok(())
    }
}
