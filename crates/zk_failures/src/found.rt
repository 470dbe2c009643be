ghost use Rattle.std.specs.Prelude.{◌≡◌, IfOk, slice_get, option_map};
ghost use Rattle.zk_worker.specs.declared.steps.Spot.TheVariants as spots;
ghost use Rattle.zk_worker.specs.Families.{entry_at};
ghost use Rattle.zk_worker.specs.Follows.{made_at};
ghost use Rattle.zk_trace.specs.Shown.{trace_shown};
ghost use Rattle.zk_failures.specs.Found.{found_at};

use std::alloc::Global;
use zk_base::{Entry, Listed, NoMemory};
use zk_model_work::WorkReply;
use zk_trace::{History, Trace};
use zk_worker::{Spot, Step, StepReply};

/// A step with its reply.
pub type Made = (Step, StepReply);

/// The same reply once more.
fn copied(alloc: Global, reply: &WorkReply) -> Result<WorkReply, NoMemory>
    ensures { IfOk result (λ copy. copy ≡ reply.now) }
{
    Ok(match reply {
        WorkReply::Sub(submitted) => WorkReply::Sub(*submitted),
        WorkReply::Armed => WorkReply::Armed,
        WorkReply::Flags(flags) => WorkReply::Flags(*flags),
        WorkReply::Truth(truth) => WorkReply::Truth(*truth),
        WorkReply::Wait => WorkReply::Wait,
        WorkReply::WaitFor(number) => WorkReply::WaitFor(*number),
        WorkReply::Number(number) => WorkReply::Number(*number),
        WorkReply::Done => WorkReply::Done,
        WorkReply::Already => WorkReply::Already,
        WorkReply::Busy => WorkReply::Busy,
        WorkReply::Now(time, ended) => {
            WorkReply::Now(*time, Listed::from_vec(ended.items().to_vec(alloc)?))
        }
        WorkReply::Run(item, number) => WorkReply::Run(*item, *number),
    })
}

/// What was asked and answered at a place of a history.
fn said_at<O: Copy, R: Copy>(history: &[Entry<O, R>], place: u64) -> Option<(O, R)>
    ensures { result ≡ option_map (λ e. (e.op, e.reply)) (slice_get history.now place) }
{
    let entry = history.get(place as usize)?;
    Some((entry.op, entry.reply))
}

/// What was asked and answered at a place of an object's history.
fn said_of<O: Copy, R: Copy>(histories: &[History<O, R>], object: u32, place: u64) -> Option<(O, R)>
    ensures { result ≡ option_map (λ e. (e.op, e.reply)) (entry_at histories.now object place) }
{
    let history = histories.get(object as usize)?;
    said_at(history.items(), place)
}

fn work_found(alloc: Global, trace: &Trace, place: u64) -> Result<Option<Made>, NoMemory>
    ensures { IfOk result (λ found. found ≡ made_at (trace_shown trace.now) (spots.Work place)) }
{
    let Some(entry) = trace.work.items().get(place as usize) else {
        return Ok(None);
    };
    let reply = copied(alloc, &entry.reply)?;
    Ok(Some((Step::Work(entry.op), StepReply::Work(reply, place))))
}

fn clock_found(trace: &Trace, place: u64) -> Option<Made>
    ensures { result ≡ made_at (trace_shown trace.now) (spots.Clock place) }
{
    let (op, reply) = said_at(trace.clock.items(), place)?;
    Some((Step::Clock(op), StepReply::Clock(reply, place)))
}

fn table_found(trace: &Trace, place: u64) -> Option<Made>
    ensures { result ≡ made_at (trace_shown trace.now) (spots.Table place) }
{
    let (op, reply) = said_at(trace.table.items(), place)?;
    Some((Step::Table(op), StepReply::Table(reply, place)))
}

fn sem_found(trace: &Trace, object: u32, place: u64) -> Option<Made>
    ensures { result ≡ made_at (trace_shown trace.now) (spots.Sem object place) }
{
    let (op, reply) = said_of(trace.sems.items(), object, place)?;
    Some((Step::Sem(object, op), StepReply::Sem(object, reply, place)))
}

fn msgq_found(trace: &Trace, object: u32, place: u64) -> Option<Made>
    ensures { result ≡ made_at (trace_shown trace.now) (spots.Msgq object place) }
{
    let (op, reply) = said_of(trace.msgqs.items(), object, place)?;
    Some((
        Step::Msgq(object, op),
        StepReply::Msgq(object, reply, place),
    ))
}

fn signal_found(trace: &Trace, object: u32, place: u64) -> Option<Made>
    ensures { result ≡ made_at (trace_shown trace.now) (spots.Signal object place) }
{
    let (op, reply) = said_of(trace.signals.items(), object, place)?;
    Some((
        Step::Signal(object, op),
        StepReply::Signal(object, reply, place),
    ))
}

fn chan_found(trace: &Trace, object: u32, place: u64) -> Option<Made>
    ensures { result ≡ made_at (trace_shown trace.now) (spots.Chan object place) }
{
    let (op, reply) = said_of(trace.chans.items(), object, place)?;
    Some((
        Step::Chan(object, op),
        StepReply::Chan(object, reply, place),
    ))
}

fn obs_found(trace: &Trace, object: u32, place: u64) -> Option<Made>
    ensures { result ≡ made_at (trace_shown trace.now) (spots.Obs object place) }
{
    let (op, reply) = said_of(trace.observers.items(), object, place)?;
    Some((Step::Obs(object, op), StepReply::Obs(object, reply, place)))
}

/// The step and the reply that stand at a spot of a trace: a look at a signal as one that had to find it raised, where it did.
pub fn found_at(alloc: Global, trace: &Trace, spot: &Spot) -> Result<Option<Made>, NoMemory>
    ensures { IfOk result (λ found. found ≡ found_at (trace_shown trace.now) spot.now) }
{
    Ok(match *spot {
        Spot::Work(place) => work_found(alloc, trace, place)?,
        Spot::Clock(place) => clock_found(trace, place),
        Spot::Table(place) => table_found(trace, place),
        Spot::Sem(object, place) => sem_found(trace, object, place),
        Spot::Msgq(object, place) => msgq_found(trace, object, place),
        Spot::Signal(object, place) => signal_found(trace, object, place),
        Spot::Chan(object, place) => chan_found(trace, object, place),
        Spot::Obs(object, place) => obs_found(trace, object, place),
        Spot::LookItem(object, flags, at) => {
            Some((Step::LookItem(object), StepReply::Flags(flags, at)))
        }
        Spot::LookSignal(object, seen) => {
            Some((Step::LookSignal(object, seen.raised), StepReply::Seen(seen)))
        }
    })
}
