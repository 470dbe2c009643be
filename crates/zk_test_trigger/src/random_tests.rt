//! Triggers beside their plain machine, over random histories.
ghost use Rattle.std.specs.Prelude.{◌≤◌};
ghost use Rattle.zk_trigger.specs.Seen.{trigger_history};
ghost use Rattle.zk_test_trigger.specs.Tried.{IsBelow};

use crate::draws::{draw, drawn};
use crate::ranges::names_in_range;
use std::alloc::Global;
use std::process::Abort;
use std::test::Fail;
use zk_base::{NoMemory, Service, Who};
use zk_trigger::{Cause, Trigger, TriggerOp, TriggerReply, TriggerState, trigger_next};

const HISTORIES: u32 = 20;

const STEPS: u32 = 300;

/// The service and its plain machine, and the number of the next step.
#[derive(Drop)]
struct Beside {
    triggers: Trigger,
    plain: TriggerState,
    next: u32,
    ghost below: { IsBelow next (trigger_history triggers) },
    ghost few: { plain.entries ≤ next },
}

/// A cause as a number.
fn number_of(cause: Cause) -> u64 {
    match cause {
        Cause::Event(event) => u64::from(event),
        Cause::Time => 64,
    }
}

/// A reply as numbers.
fn numbers_of(reply: Option<TriggerReply>) -> [u64; 5] {
    match reply {
        None => [0, 0, 0, 0, 0],
        Some(TriggerReply::Armed(number)) => [1, number, 0, 0, 0],
        Some(TriggerReply::Busy) => [2, 0, 0, 0, 0],
        Some(TriggerReply::Done) => [3, 0, 0, 0, 0],
        Some(TriggerReply::Inval) => [4, 0, 0, 0, 0],
        Some(TriggerReply::Now(time)) => [5, time, 0, 0, 0],
        Some(TriggerReply::Fire(number, item, queue, cause)) => {
            let (item, queue) = (u64::from(item), u64::from(queue));
            [6, number, item, queue, number_of(cause)]
        }
    }
}

impl Beside {
    fn new(alloc: Global) -> Beside {
        Beside {
            triggers: Trigger::new(alloc),
            plain: TriggerState::new(alloc),
            next: 0,
        }
    }

    /// One attempt, which both answer alike. A `Next` in vain is known as such before.
    fn attempt<R: Abort>(&mut self, rt: &R, who: Who, op: TriggerOp) -> Result<(), NoMemory> {
        let step = self.next;
        if step >= 1000 || !names_in_range(&op) {
            return Ok(());
        }
        self.next = step + 1;
        let futile = self.triggers.is_futile(who, &op);
        let told = self.triggers.act(who, step, op)?;
        assert!(rt; futile == told.is_none(), "at {step}");
        let wanted = trigger_next(&mut self.plain, who, &op)?;
        assert!(rt; numbers_of(told) == numbers_of(wanted), "at {step}");
        Ok(())
    }
}

#[test]
fn random_histories(rt: HostRuntime) -> Result<(), Fail> {
    for history in 0..HISTORIES {
        let mut seed = history;
        let mut beside = Beside::new(rt.alloc());
        for _ in 0..STEPS {
            let who = Who {
                number: draw(&mut seed, 4),
                prio: 0,
            };
            beside.attempt(&rt, who, drawn(&mut seed))?;
        }
        assert!(rt; beside.triggers.history().len() > 200);
    }
    Ok(())
}
