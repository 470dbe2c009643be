ghost use Rattle.std.specs.Prelude.{◌+◌, ◌≤◌, IfOk};
ghost use Rattle.zk_test_trigger.specs.Pumped.{IsArmer, IsReady};

use crate::ranges::names_in_range;
use std::alloc::Global;
use std::sync::Wait;
use zk_base::{NoMemory, Who};
use zk_model_work::Submitted;
use zk_trigger::{Pump, Trigger, TriggerOp, TriggerReply};
use zk_turn::{Cell, Pass, last_pass};
use zk_work::Work;

const ARMER: Who = Who { number: 0, prio: 0 };

const PUMPER: Who = Who { number: 1, prio: 0 };

/// Triggers and a work service in cells, the pass of a player that arms, and the pump of another.
#[derive(Drop)]
pub struct Both {
    pub triggers: Cell<Trigger>,
    pub work: Cell<Work>,
    pub armer: Pass<Trigger>,
    pub pump: Pump,
}

/// Both services before the first entry, with all 256 items and all 8 queues, which are started.
pub fn open_both(alloc: Global) -> Result<Both, NoMemory>
    ensures armer { IfOk result (λ both. IsArmer both.triggers 0 both.armer) }
    ensures ready { IfOk result (λ both. IsReady both.triggers both.work 0 both.pump) }
{
    let (triggers, mut passes) = Cell::new(alloc, Trigger::new(alloc), &[ARMER, PUMPER])?;
    let pumper = last_pass(&triggers, PUMPER, &mut passes);
    let armer = last_pass(&triggers, ARMER, &mut passes);
    let service = Work::new(alloc, 256, &[9, 10, 11, 12, 13, 14, 15, 16], &[true; 8])?;
    let (work, mut passes) = Cell::new(alloc, service, &[PUMPER])?;
    let worker = last_pass(&work, PUMPER, &mut passes);
    Ok(Both {
        triggers,
        work,
        armer,
        pump: Pump::new(pumper, worker),
    })
}

/// One operation by the player that arms, as its step of this number, and its reply, if it is possible. One out of range is
/// answered as want of memory.
pub fn ask<R: Wait>(
    rt: &R,
    triggers: &Cell<Trigger>,
    armer: Pass<Trigger>,
    step: u32,
    op: TriggerOp,
) -> (Pass<Trigger>, Result<Option<TriggerReply>, NoMemory>)
    requires armer { IsArmer triggers.now step armer }
    requires few { step ≤ 1000 }
    ensures armer { IsArmer triggers.now (step + 1) result.0 }
{
    if !names_in_range(&op) {
        return (armer, Err(NoMemory));
    }
    let (armer, answer) = triggers.call(rt, armer, step, op);
    match answer {
        Err(e) => (armer, Err(e)),
        Ok(None) => (armer, Ok(None)),
        Ok(Some(made)) => (armer, Ok(Some(made.0))),
    }
}

/// One step of the pump, which has made so many.
pub fn pumped<R: Wait>(
    rt: &R,
    pump: &mut Pump,
    triggers: &Cell<Trigger>,
    work: &Cell<Work>,
    steps: u32,
) -> Result<Option<Submitted>, NoMemory>
    requires ready { IsReady triggers.now work.now steps pump.old }
    requires few { steps ≤ 1000 }
    ensures ready { IsReady triggers.now work.now (steps + 1) pump.new }
{
    pump.step(rt, triggers, work)
}
