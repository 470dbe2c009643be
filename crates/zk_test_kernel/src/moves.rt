//! What a test does with the callers of a kernel, as data: the tests' own bodies stay small, since each is proved.
ghost use Rattle.zk_kernel.specs.Rests.{AreAllCallers};

use crate::ones::{attempt_one, play_one, quick_one, step_one};
use crate::parts::play_each;
use crate::rounds::play_rounds;
use std::sync::Wait;
use std::thread::Threads;
use zk_kernel::{Caller, Kernel, Stop};
use zk_worker::Stepped;

/// One move of a test.
#[derive(Clone, Copy)]
pub enum Move {
    /// The calls of this caller, up to the end of its script.
    Calls(usize),
    /// The steps of this caller, as far as they get.
    Steps(usize),
    /// One step of this caller.
    Step(usize),
    /// The attempt of this index of this caller.
    Attempt(usize, u32),
    /// The attempt of this index of this caller, without a turn, if it takes none.
    Quick(usize, u32),
    /// Whether this caller has news.
    News(usize),
    /// So many rounds, each of one step of each caller where it can make one.
    Rounds(u32),
    /// Each caller in a thread of its own, as far as it gets: by whole calls, or by steps.
    Each(bool),
}

/// `y` where steps came to their end, `s` where a caller was spent first, `m` where memory was wanted.
fn letter_of_stop(played: Result<(), Stop>) -> u8 {
    match played {
        Ok(()) => b'y',
        Err(Stop::Spent) => b's',
        Err(Stop::NoMemory) => b'm',
    }
}

/// `y` where a step was made, `n` where none was possible.
fn letter_of_step(stepped: Option<Stepped>) -> u8 {
    if stepped == Some(Stepped::Did) {
        b'y'
    } else {
        b'n'
    }
}

fn step<R: Wait>(rt: &R, kernel: &Kernel, callers: &mut Vec<Caller>, number: usize) -> u8
    requires all { AreAllCallers kernel.now callers.old.items }
    ensures all { AreAllCallers kernel.now callers.new.items }
{
    match step_one(rt, kernel, callers, number) {
        Ok(stepped) => letter_of_step(stepped),
        Err(_) => b'm',
    }
}

fn attempt<R: Wait>(
    rt: &R,
    kernel: &Kernel,
    callers: &mut Vec<Caller>,
    number: usize,
    index: u32,
) -> u8
    requires all { AreAllCallers kernel.now callers.old.items }
    ensures all { AreAllCallers kernel.now callers.new.items }
{
    match attempt_one(rt, kernel, callers, number, index) {
        Ok(Some(_)) => b'y',
        Ok(None) => b'n',
        Err(_) => b'm',
    }
}

/// Makes a move, and tells by a letter what came of it.
pub fn make_move<R: Threads + Wait + Sync>(
    rt: &R,
    kernel: &Kernel,
    callers: &mut Vec<Caller>,
    one: Move,
) -> u8
    requires all { AreAllCallers kernel.now callers.old.items }
    ensures all { AreAllCallers kernel.now callers.new.items }
{
    match one {
        Move::Calls(number) => letter_of_stop(play_one(rt, kernel, callers, number, true)),
        Move::Steps(number) => letter_of_stop(play_one(rt, kernel, callers, number, false)),
        Move::Step(number) => step(rt, kernel, callers, number),
        Move::Attempt(number, index) => attempt(rt, kernel, callers, number, index),
        Move::Quick(number, index) => match quick_one(kernel, callers, number, index) {
            Some(_) => b'y',
            None => b'n',
        },
        Move::News(number) => match callers.get(number) {
            Some(caller) if caller.has_news(kernel) => b'y',
            _ => b'n',
        },
        Move::Rounds(rounds) => match play_rounds(rt, kernel, callers, rounds) {
            Ok(()) => b'y',
            Err(_) => b'm',
        },
        Move::Each(by_calls) => {
            play_each(rt, kernel, callers, by_calls);
            b'y'
        }
    }
}
