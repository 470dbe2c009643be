ghost use Rattle.std.specs.Prelude.{◌≡◌};
ghost use Rattle.zk_kernel.specs.Callers.{IsCaller, place_of};
ghost use Rattle.zk_kernel.specs.Rests.{AreAllCallers};

use std::sync::Wait;
use std::thread::{self, Threads};
use zk_base::NoMemory;
use zk_kernel::{Caller, Kernel, Stop, is_quick};
use zk_worker::Stepped;

/// How often a caller tries in vain before it gives up.
const TRIES: u32 = 200;

/// Plays the calls of a thread's script, one after the other, up to its end or to an oops.
pub fn play_calls<R: Wait>(rt: &R, kernel: &Kernel, caller: &mut Caller) -> Result<(), Stop>
    requires own { IsCaller kernel.now caller.old }
    ensures own { IsCaller kernel.now caller.new }
    ensures who { (place_of caller.new).who ≡ (place_of caller.old).who }
{
    for _ in rt.forever() {
        if !caller.lives() {
            break;
        }
        let Some(call) = caller.next_call(kernel) else {
            break;
        };
        caller.call(rt, kernel, call)?;
    }
    Ok(())
}

/// The first of a caller's attempts, made without a turn, where it is one that takes none: whether it gave a reply.
fn made_quickly(kernel: &Kernel, caller: &mut Caller) -> bool
    requires own { IsCaller kernel.now caller.old }
    ensures own { IsCaller kernel.now caller.new }
    ensures who { (place_of caller.new).who ≡ (place_of caller.old).who }
{
    match caller.ahead(kernel, 0) {
        Some(step) if is_quick(&step) => caller.quick(kernel, &step).is_some(),
        _ => false,
    }
}

/// A step of a caller, without a turn where its first attempt takes none and gives a reply.
fn step_quickly<R: Wait>(rt: &R, kernel: &Kernel, caller: &mut Caller) -> Result<Stepped, NoMemory>
    requires own { IsCaller kernel.now caller.old }
    ensures own { IsCaller kernel.now caller.new }
    ensures who { (place_of caller.new).who ≡ (place_of caller.old).who }
{
    if made_quickly(kernel, caller) {
        return Ok(Stepped::Did);
    }
    caller.step(rt, kernel)
}

/// Makes steps of a caller, a worker too, as long as some are possible within many tries.
pub fn play_steps<R: Wait>(rt: &R, kernel: &Kernel, caller: &mut Caller)
    requires own { IsCaller kernel.now caller.old }
    ensures own { IsCaller kernel.now caller.new }
    ensures who { (place_of caller.new).who ≡ (place_of caller.old).who }
{
    let mut tries = 0;
    for _ in rt.forever() {
        match step_quickly(rt, kernel, caller) {
            Ok(Stepped::Did) => tries = 0,
            Ok(Stepped::NotYet) if tries < TRIES => {
                tries += 1;
                thread::yield_now();
            }
            _ => break,
        }
    }
}

/// Plays a caller as far as it gets: by whole calls, which wait as long as they have to, or by steps.
fn play<R: Wait>(rt: &R, kernel: &Kernel, caller: &mut Caller, by_calls: bool)
    requires own { IsCaller kernel.now caller.old }
    ensures own { IsCaller kernel.now caller.new }
    ensures who { (place_of caller.new).who ≡ (place_of caller.old).who }
{
    if by_calls {
        // A caller that is stopped comes back with the others.
        let _stopped = play_calls(rt, kernel, caller);
    } else {
        play_steps(rt, kernel, caller);
    }
}

/// Plays each caller in a thread of its own, as far as it gets.
pub fn play_each<R: Threads + Wait + Sync>(
    rt: &R,
    kernel: &Kernel,
    callers: &mut Vec<Caller>,
    by_calls: bool,
)
    requires all { AreAllCallers kernel.now callers.old.items }
    ensures all { AreAllCallers kernel.now callers.new.items }
{
    let threads = callers.len();
    if threads == 0 {
        return;
    }
    let part = move |_number: usize, caller: &mut Caller|
        requires { IsCaller kernel.now caller.now }
        ensures { IsCaller kernel.entry.now caller.exit.now × ((place_of caller.exit.now).who ≡ (place_of caller.entry.now).who) }
    { play(rt, kernel, caller, by_calls) };
    thread::for_each_mut(rt, callers.as_mut_slice(), threads, &part);
}
