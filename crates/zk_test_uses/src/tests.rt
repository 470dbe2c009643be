//! Threads that share a service: each one's calls stand in the history once and in order, whatever the schedule.
ghost use Rattle.std.specs.Prelude.{◌≡◌, ◌≤◌, [], IfOk, vec_capacity};

use std::alloc::Global;
use std::test::Fail;
use zk_base::{Entry, NoMemory, Service, Who};
use zk_model_work::{WorkOp, WorkReply};
use zk_time::Clock;
use zk_turn::{Cell, Look};
use zk_uses::{
    Caller, Looker, closed_after_looks, four_callers, looked_at_meanwhile, submitted_by_four,
    ticked_by_two, two_callers,
};
use zk_work::Work;

pub const FIRST: Who = Who { number: 0, prio: 0 };

pub const SECOND: Who = Who { number: 1, prio: 0 };

const THIRD: Who = Who { number: 2, prio: 0 };

const FOURTH: Who = Who { number: 3, prio: 0 };

/// How often each thread calls.
pub const TIMES: u32 = 1000;

/// How often each thread looks, and how often each other one calls meanwhile.
const LOOKS: u32 = 20_000;

const CALLS: u32 = 500;

/// How often the test of looks is made.
const ROUNDS: u32 = 100;

/// Whether the steps of the player's entries are 0, 1, 2 and on, and so many.
pub fn are_in_order<O, R>(history: &[Entry<O, R>], who: Who, times: u32) -> bool {
    let mut next = 0u64;
    for entry in history {
        if entry.who.number == who.number {
            if u64::from(entry.step) != next {
                return false;
            }
            next = u64::from(entry.step) + 1;
        }
    }
    next == u64::from(times)
}

#[test]
fn four_threads_submit(rt: HostRuntime) -> Result<(), Fail> {
    let work = Work::new(rt.alloc(), 1, &[9], &[true])?;
    let (cell, passes) = Cell::new(rt.alloc(), work, &[FIRST, SECOND, THIRD, FOURTH])?;
    let (one, other) = four_callers(&cell, (FIRST, SECOND, THIRD, FOURTH), passes);
    let (pass, made) = submitted_by_four(&rt, &cell, one, other, TIMES);
    made?;
    let history = cell.close(pass).into_history();
    assert!(rt; history.len() == 4000);
    for who in [FIRST, SECOND, THIRD, FOURTH] {
        assert!(rt; are_in_order(&history, who, TIMES));
    }
    Ok(())
}

#[test]
fn two_threads_let_time_pass(rt: HostRuntime) -> Result<(), Fail> {
    let clock = Clock::new(rt.alloc());
    let (cell, passes) = Cell::new(rt.alloc(), clock, &[FIRST, SECOND])?;
    let (first, second) = two_callers(&cell, FIRST, SECOND, passes);
    let (pass, made) = ticked_by_two(&rt, &cell, first, second, TIMES);
    made?;
    let history = cell.close(pass).into_history();
    assert!(rt; history.len() == 2000);
    for who in [FIRST, SECOND] {
        assert!(rt; are_in_order(&history, who, TIMES));
    }
    Ok(())
}

/// A caller that looks, with room for its looks.
fn looker(alloc: Global, caller: Caller<Work>) -> Result<Looker<Work>, NoMemory>
    ensures who { IfOk result (λ looker. looker.who ≡ caller.who) }
    ensures pass { IfOk result (λ looker. looker.pass ≡ caller.pass) }
    ensures none { IfOk result (λ looker. looker.looks.items ≡ []) }
    ensures room { IfOk result (λ looker. 20000 ≤ vec_capacity looker.looks) }
{
    let looks = Vec::with_capacity(alloc, 20_000)?;
    let Caller { who, pass } = caller;
    Ok(Looker { who, pass, looks })
}

/// The busy flags of the one item, after 0, 1, 2 and so on entries: it waits where it was submitted last.
fn flags_after_each(
    alloc: Global,
    history: &[Entry<WorkOp, WorkReply>],
) -> Result<Vec<u32>, NoMemory> {
    let mut flags = Vec::new(alloc);
    flags.push(0)?;
    for entry in history {
        flags.push(match entry.op {
            WorkOp::Submit(_, _) => 4,
            _ => 0,
        })?;
    }
    Ok(flags)
}

/// Whether each look has found the flags of its position, and none has gone back behind an earlier one.
fn are_of(looks: &[Look], flags: &[u32]) -> bool {
    let mut last = 0;
    for look in looks {
        let Some(found) = flags.get(look.at as usize) else {
            return false;
        };
        if look.at < last || *found != look.word {
            return false;
        }
        last = look.at;
    }
    true
}

#[test]
fn two_threads_look_while_two_submit_and_cancel(rt: HostRuntime) -> Result<(), Fail> {
    for _ in 0..ROUNDS {
        let work = Work::new(rt.alloc(), 1, &[9], &[true])?;
        let (cell, passes) = Cell::new(rt.alloc(), work, &[FIRST, SECOND, THIRD, FOURTH])?;
        let (lookers, callers) = four_callers(&cell, (FIRST, SECOND, THIRD, FOURTH), passes);
        let (first, second) = lookers;
        let lookers = (looker(rt.alloc(), first)?, looker(rt.alloc(), second)?);
        let (lookers, others) = looked_at_meanwhile(&rt, &cell, lookers, callers, LOOKS, CALLS);
        let (others, made) = others;
        made?;
        let (history, first, second) = closed_after_looks(cell, lookers, others, 0);
        assert!(rt; (history.len(), first.len(), second.len()) == (1_000, 20_000, 20_000));
        let flags = flags_after_each(rt.alloc(), &history)?;
        assert!(rt;
            are_of(&first, &flags),
            "each look has the flags of its position"
        );
        assert!(rt;
            are_of(&second, &flags),
            "each look has the flags of its position"
        );
    }
    Ok(())
}
