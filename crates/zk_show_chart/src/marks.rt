ghost use Rattle.std.specs.Prelude.{◌≡◌, false};
ghost use Rattle.zk_show_chart.specs.Marks.{is_begin, some_begins, begins, begins_at};

use zk_base::Entry;
use zk_model_bus::{ChanOp, ChanReply, ObsOp, ObsReply};
use zk_model_wait::{ClockOp, MsgqOp, MsgqReply, SemOp, SemReply};
use zk_model_work::{WorkOp, WorkReply};
use zk_trace::{History, Trace};
use zk_worker::Spot;

/// What a step says of the bars of its lane.
#[derive(Clone, Copy, PartialEq, Eq)]
pub enum Mark {
    /// A handler's run begins.
    Begin,
    /// A handler's run ends.
    End,
    /// Observers are told of a channel: their visits follow.
    Tell,
    /// An observer is visited: a listener whose script runs from now on, where this is true.
    Visit(bool),
    /// A channel is read, and freed next.
    Read,
    /// A channel is freed.
    Free,
    /// The caller waits from now on.
    Wait,
    /// A wait of the caller ends, or a part of it.
    Over,
    /// Nothing.
    Plain,
}

/// The entry of an object's history at a place.
pub fn entry_of<O, R>(
    histories: &[History<O, R>],
    object: u32,
    place: u64,
) -> Option<&Entry<O, R>> {
    let history = histories.get(object as usize)?;
    history.items().get(place as usize)
}

fn work_mark(op: WorkOp, reply: &WorkReply) -> Mark
    ensures { is_begin result ≡ begins op }
{
    match op {
        WorkOp::Begin(_) => Mark::Begin,
        WorkOp::End(_) => Mark::End,
        WorkOp::CancelDone(_) | WorkOp::FlushDone(_) | WorkOp::DrainDone(_) => Mark::Over,
        _ => match reply {
            WorkReply::Wait | WorkReply::WaitFor(_) => Mark::Wait,
            _ => Mark::Plain,
        },
    }
}

fn clock_mark(op: ClockOp) -> Mark
    ensures { is_begin result ≡ false }
{
    match op {
        ClockOp::AlarmEnd(_) => Mark::Over,
        _ => Mark::Plain,
    }
}

fn sem_mark(op: SemOp, reply: SemReply) -> Mark
    ensures { is_begin result ≡ false }
{
    match op {
        SemOp::TakeEnd(_) | SemOp::TakeQuit(_) | SemOp::PollEnd(_) | SemOp::PollQuit(_) => {
            Mark::Over
        }
        _ => match reply {
            SemReply::Wait | SemReply::Armed => Mark::Wait,
            _ => Mark::Plain,
        },
    }
}

fn msgq_mark(op: MsgqOp, reply: MsgqReply) -> Mark
    ensures { is_begin result ≡ false }
{
    match op {
        MsgqOp::PutEnd(_) | MsgqOp::PutQuit(_) | MsgqOp::GetEnd(_) | MsgqOp::GetQuit(_) => {
            Mark::Over
        }
        MsgqOp::PollEnd(_) | MsgqOp::PollQuit(_) => Mark::Over,
        _ => match reply {
            MsgqReply::Wait | MsgqReply::Armed => Mark::Wait,
            _ => Mark::Plain,
        },
    }
}

fn chan_mark(op: ChanOp, reply: ChanReply) -> Mark
    ensures { is_begin result ≡ false }
{
    match op {
        ChanOp::ClaimEnd(_) | ChanOp::ClaimQuit(_) => Mark::Over,
        ChanOp::Set(_) | ChanOp::List => Mark::Tell,
        ChanOp::Get => Mark::Read,
        ChanOp::Free => Mark::Free,
        _ => match reply {
            ChanReply::Wait => Mark::Wait,
            _ => Mark::Plain,
        },
    }
}

fn obs_mark(op: ObsOp, reply: ObsReply) -> Mark
    ensures { is_begin result ≡ false }
{
    match op {
        ObsOp::Visit(_) => Mark::Visit(reply == ObsReply::Run),
        ObsOp::TakeEnd(_) | ObsOp::TakeQuit(_) => Mark::Over,
        _ => match reply {
            ObsReply::Wait => Mark::Wait,
            _ => Mark::Plain,
        },
    }
}

/// What the entry at a spot says of the bars of its lane, if there is one.
fn mark_at(trace: &Trace, spot: Spot) -> Option<Mark>
    ensures { some_begins result ≡ begins_at trace.now spot }
{
    match spot {
        Spot::Work(place) => {
            let entry = trace.work.items().get(place as usize)?;
            Some(work_mark(entry.op, &entry.reply))
        }
        Spot::Clock(place) => {
            let entry = trace.clock.items().get(place as usize)?;
            Some(clock_mark(entry.op))
        }
        Spot::Sem(object, place) => {
            let entry = entry_of(trace.sems.items(), object, place)?;
            Some(sem_mark(entry.op, entry.reply))
        }
        Spot::Msgq(object, place) => {
            let entry = entry_of(trace.msgqs.items(), object, place)?;
            Some(msgq_mark(entry.op, entry.reply))
        }
        Spot::Chan(object, place) => {
            let entry = entry_of(trace.chans.items(), object, place)?;
            Some(chan_mark(entry.op, entry.reply))
        }
        Spot::Obs(object, place) => {
            let entry = entry_of(trace.observers.items(), object, place)?;
            Some(obs_mark(entry.op, entry.reply))
        }
        _ => None,
    }
}

/// What the step at a spot says of the bars of its lane.
pub fn mark_of(trace: &Trace, spot: Spot) -> Mark
    ensures { is_begin result ≡ begins_at trace.now spot }
{
    match mark_at(trace, spot) {
        Some(mark) => mark,
        None => Mark::Plain,
    }
}
