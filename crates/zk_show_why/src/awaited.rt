use crate::people::{known, worker_of};
use crate::serving::first_named;
use crate::waits::{entry_at, holder_of};
use zk_base::Who;
use zk_line::word_of;
use zk_model_bus::{ChanReply, ObsReply};
use zk_model_wait::{MsgqReply, SemReply};
use zk_model_work::{Submitted, WorkReply};
use zk_scenario::{Call, Scenario};
use zk_trace::Trace;
use zk_words::Word;
use zk_worker::{Log, Spot};

/// Whoever a call waits for by what that player does: it holds a channel, or runs an item.
#[derive(Clone, Copy)]
pub struct Keeper {
    pub player: usize,
    /// Since which of its own steps.
    pub since: Option<u32>,
}

/// Whether a player's last step began a wait, or asked an event of a poll that wasn't ready.
pub fn is_waiting(trace: &Trace, log: &Log) -> bool {
    let waits = match log.steps.items().last() {
        Some(spot) => begins_wait(trace, spot),
        None => None,
    };
    waits.unwrap_or(false)
}

fn begins_wait(trace: &Trace, spot: &Spot) -> Option<bool> {
    let waits = match *spot {
        Spot::Work(place) => match trace.work.items().get(place as usize)?.reply {
            WorkReply::Wait => true,
            WorkReply::WaitFor(_) => true,
            _ => false,
        },
        Spot::Sem(object, place) => match entry_at(trace.sems.items(), object, place)?.reply {
            SemReply::Wait => true,
            SemReply::Armed => true,
            _ => false,
        },
        Spot::Msgq(object, place) => match entry_at(trace.msgqs.items(), object, place)?.reply {
            MsgqReply::Wait => true,
            MsgqReply::Armed => true,
            _ => false,
        },
        Spot::Chan(object, place) => {
            entry_at(trace.chans.items(), object, place)?.reply == ChanReply::Wait
        }
        Spot::Obs(object, place) => {
            entry_at(trace.observers.items(), object, place)?.reply == ObsReply::Wait
        }
        Spot::LookSignal(_, seen) => !seen.raised,
        _ => false,
    };
    Some(waits)
}

/// Who keeps a player waiting in this call, whose last step began the wait.
pub fn keeper_of(scenario: &Scenario, trace: &Trace, log: &Log, call: &Call) -> Option<Keeper> {
    let word = word_of(call);
    if word == Word::Flush {
        return admitted_to(scenario, trace, admission_awaited(trace, log)?);
    }
    let object = known(first_named(call)?)?;
    match word {
        Word::Claim => holder(trace, object),
        Word::Publish => holder(trace, object),
        Word::Notify => holder(trace, object),
        Word::Read => holder(trace, object),
        Word::CancelSync => runner_of(trace, scenario.number(object)),
        Word::Drain => Some(Keeper {
            player: worker_of(scenario, scenario.number(object)),
            since: None,
        }),
        _ => None,
    }
}

/// Who holds a channel.
fn holder(trace: &Trace, chan: u32) -> Option<Keeper> {
    let holder = holder_of(trace, chan)?;
    Some(Keeper {
        player: holder.player as usize,
        since: Some(holder.since),
    })
}

// Whoever made this step.
fn since(who: Who, step: u32) -> Keeper {
    Keeper {
        player: who.number as usize,
        since: Some(step),
    }
}

/// The worker that has run an item last, by the item's number.
fn runner_of(trace: &Trace, item: u32) -> Option<Keeper> {
    let mut runner = None;
    for entry in trace.work.items() {
        match &entry.reply {
            WorkReply::Run(run, _) if *run == item => runner = Some(since(entry.who, entry.step)),
            _ => {}
        }
    }
    runner
}

// The number of the admission that a flush awaits.
fn admission_awaited(trace: &Trace, log: &Log) -> Option<u64> {
    let Some(Spot::Work(place)) = log.steps.items().last() else {
        return None;
    };
    match trace.work.items().get(*place as usize)?.reply {
        WorkReply::WaitFor(number) => Some(number),
        _ => None,
    }
}

/// The worker that runs an admission, or that has it before it.
fn admitted_to(scenario: &Scenario, trace: &Trace, number: u64) -> Option<Keeper> {
    let mut keeper = None;
    for entry in trace.work.items() {
        match &entry.reply {
            WorkReply::Run(_, admission) if *admission == number => {
                keeper = Some(since(entry.who, entry.step));
            }
            reply => {
                if let Some(queue) = queue_in(reply, number) {
                    keeper = Some(Keeper {
                        player: worker_of(scenario, queue),
                        since: None,
                    });
                }
            }
        }
    }
    keeper
}

// The queue to which this reply says that an admission went.
fn queue_in(reply: &WorkReply, number: u64) -> Option<u32> {
    match reply {
        WorkReply::Sub(submitted) => queue_of(*submitted, number),
        WorkReply::Now(_, expiries) => {
            for expiry in expiries.items() {
                if let Some(queue) = queue_of(expiry.submitted, number) {
                    return Some(queue);
                }
            }
            None
        }
        _ => None,
    }
}

fn queue_of(submitted: Submitted, number: u64) -> Option<u32> {
    match submitted {
        Submitted::Fresh(admission, queue) if admission == number => Some(queue),
        Submitted::Rerun(admission, queue) if admission == number => Some(queue),
        _ => None,
    }
}
