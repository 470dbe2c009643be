//! Threads that wait for bits, and one that posts them.
ghost use Rattle.std.specs.Prelude.{◌≤◌, length};
ghost use Rattle.zk_turn.specs.Players.{Differ};

use crate::{Task, parts_of, play_each};
use std::alloc::AllocGlobal;
use std::sync::Wait;
use std::test::Fail;
use std::thread::Threads;
use zk_base::{NoMemory, Who};
use zk_event::{Event, Wanted};
use zk_turn::Cell;

/// How often a test of a few threads is played, and how often one of many.
const ROUNDS: u32 = 500;

const ROUNDS_OF_MANY: u32 = 50;

const ANY_OF_1: Wanted = Wanted {
    mask: 1,
    all: false,
};

const ALL_OF_3: Wanted = Wanted { mask: 3, all: true };

const FIRST: Who = Who { number: 0, prio: 0 };

const SECOND: Who = Who { number: 1, prio: 0 };

const THIRD: Who = Who { number: 2, prio: 0 };

/// Plays these tasks by these players, each in a thread: the bits that each was answered.
fn played<R: Threads + Wait + AllocGlobal + Sync>(
    rt: &R,
    players: &[Who],
    tasks: &[Task],
) -> Result<Vec<u16>, NoMemory>
    requires few { length players.now ≤ 256 }
    requires differ { Differ players.now }
{
    let (cell, passes) = Cell::new(rt.alloc(), Event::new(rt.alloc())?, players)?;
    let mut parts = parts_of(rt.alloc(), &cell, passes, tasks)?;
    play_each(rt, &cell, &mut parts);
    let mut got = Vec::new(rt.alloc());
    for part in parts.iter() {
        got.push(part.got)?;
    }
    Ok(got)
}

#[test]
fn two_threads_wait_and_a_third_posts(rt: HostRuntime) -> Result<(), Fail> {
    for after in [0, 1, 2] {
        for _ in 0..ROUNDS {
            let tasks = [
                Task::Wait(ALL_OF_3, false),
                Task::Wait(ANY_OF_1, false),
                Task::Post(after, 1, 2, 0),
            ];
            let got = played(&rt, &[FIRST, SECOND, THIRD], &tasks)?;
            assert!(rt; got.as_slice() == [3, 1, 0].as_slice());
        }
    }
    Ok(())
}

#[test]
fn a_clear_comes_right_behind_a_post(rt: HostRuntime) -> Result<(), Fail> {
    for reset in [false, true] {
        for _ in 0..ROUNDS {
            let tasks = [Task::Wait(ANY_OF_1, reset), Task::Post(1, 1, 0, 1)];
            let got = played(&rt, &[FIRST, SECOND], &tasks)?;
            assert!(rt; got.as_slice() == [1, 0].as_slice());
        }
    }
    Ok(())
}

#[test]
fn sixteen_threads_wait_for_one_bit(rt: HostRuntime) -> Result<(), Fail> {
    for _ in 0..ROUNDS_OF_MANY {
        let mut tasks = [Task::Wait(ANY_OF_1, false); 17];
        tasks[16] = Task::Post(16, 1, 0, 1);
        let players = [
            Who { number: 0, prio: 0 },
            Who { number: 1, prio: 0 },
            Who { number: 2, prio: 0 },
            Who { number: 3, prio: 0 },
            Who { number: 4, prio: 0 },
            Who { number: 5, prio: 0 },
            Who { number: 6, prio: 0 },
            Who { number: 7, prio: 0 },
            Who { number: 8, prio: 0 },
            Who { number: 9, prio: 0 },
            Who {
                number: 10,
                prio: 0,
            },
            Who {
                number: 11,
                prio: 0,
            },
            Who {
                number: 12,
                prio: 0,
            },
            Who {
                number: 13,
                prio: 0,
            },
            Who {
                number: 14,
                prio: 0,
            },
            Who {
                number: 15,
                prio: 0,
            },
            Who {
                number: 16,
                prio: 0,
            },
        ];
        let got = played(&rt, &players, &tasks)?;
        assert!(rt;
            got.as_slice() == [1, 1, 1, 1, 1, 1, 1, 1, 1, 1, 1, 1, 1, 1, 1, 1, 0].as_slice()
        );
    }
    Ok(())
}
