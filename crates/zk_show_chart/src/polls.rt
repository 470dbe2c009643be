use crate::marks::entry_of;
use std::alloc::Global;
use zk_base::{NoMemory, Seen};
use zk_line::MOST_EVENTS;
use zk_model_wait::{ClockOp, MsgqReply, SemReply};
use zk_trace::Trace;
use zk_worker::{Log, PlayerState, Spot, Word};

/// A wait of a poll of signals alone. No reply tells of it, since a look makes no entry.
#[derive(Clone, Copy)]
pub struct PollWait {
    /// The first step at which a signal wasn't raised.
    pub first: usize,
    /// The last step of the poll, if it has its answer.
    pub last: Option<usize>,
}

/// What a poll of a player has found.
#[derive(Drop)]
struct Polling {
    /// The signals that weren't raised.
    looked: Vec<u32>,
    /// The first step at which one wasn't.
    first: Option<usize>,
    /// Whether it looked again, or its alarm ended.
    waits: bool,
    /// Whether it is registered where a reply says so.
    told: bool,
}

impl Polling {
    /// Before a poll. It takes no memory.
    fn new(alloc: Global) -> Polling {
        Polling {
            looked: Vec::new(alloc),
            first: None,
            waits: false,
            told: false,
        }
    }

    /// The poll is over, or there was none.
    fn clear(&mut self) {
        self.looked.clear();
        self.first = None;
        self.waits = false;
        self.told = false;
    }

    /// A look of the poll at a signal.
    fn look(&mut self, step: usize, signal: u32, seen: Seen) -> Result<(), NoMemory> {
        if seen.raised {
            self.waits = self.waits || self.looked.contains(&signal);
            return Ok(());
        }
        if self.first.is_none() {
            self.first = Some(step);
        }
        if self.looked.len() < MOST_EVENTS {
            self.looked.push(signal)?;
        }
        Ok(())
    }

    /// A step that isn't answered as a check of a signal.
    fn step(&mut self, trace: &Trace, step: usize, spot: Spot) -> Result<(), NoMemory> {
        match spot {
            Spot::LookSignal(signal, seen) => return self.look(step, signal, seen),
            Spot::Clock(place) if ends_alarm(trace, place) => self.waits = true,
            _ if is_armed(trace, spot) => self.told = true,
            Spot::Sem(_, _) | Spot::Msgq(_, _) => {}
            _ => self.clear(),
        }
        Ok(())
    }

    /// The wait of the poll, whose last step this is if it has its answer.
    fn wait(&self, last: Option<usize>) -> Option<PollWait> {
        let first = self.first?;
        if self.told || !self.waits && last.is_some() {
            return None;
        }
        Some(PollWait { first, last })
    }
}

fn ends_alarm(trace: &Trace, place: u64) -> bool {
    match trace.clock.items().get(place as usize) {
        Some(entry) => matches!(entry.op, ClockOp::AlarmEnd(_)),
        None => false,
    }
}

/// Whether a poll is registered by the step at a spot.
fn is_armed(trace: &Trace, spot: Spot) -> bool {
    match spot {
        Spot::Sem(object, place) => match entry_of(trace.sems.items(), object, place) {
            Some(entry) => entry.reply == SemReply::Armed,
            None => false,
        },
        Spot::Msgq(object, place) => match entry_of(trace.msgqs.items(), object, place) {
            Some(entry) => entry.reply == MsgqReply::Armed,
            None => false,
        },
        _ => false,
    }
}

/// The last step of an answered call, and which call it is.
fn answer_at(log: &Log, place: usize) -> Option<(usize, Word)> {
    match log.answers.get(place) {
        Some(answered) => Some((answered.step as usize, answered.word)),
        None => None,
    }
}

/// The call that a step ends, if it ends one, by the place of the first answer that isn't of an earlier step.
fn ended_by(log: &Log, next: usize, step: usize) -> Option<Word> {
    let (at, word) = answer_at(log, next)?;
    if at == step { Some(word) } else { None }
}

fn put_wait(waits: &mut Vec<PollWait>, wait: Option<PollWait>) -> Result<(), NoMemory> {
    if let Some(wait) = wait {
        waits.push(wait)?;
    }
    Ok(())
}

/// The waits of a player's polls of signals alone, by their steps.
pub fn poll_waits(alloc: Global, trace: &Trace, log: &Log) -> Result<Vec<PollWait>, NoMemory> {
    let mut waits = Vec::new(alloc);
    let mut polling = Polling::new(alloc);
    let mut next = 0;
    for (step, spot) in log.steps.items().iter().enumerate() {
        let ended = ended_by(log, next, step);
        if ended != Some(Word::Check) {
            polling.step(trace, step, *spot)?;
        }
        if ended.is_some() {
            next += 1;
            put_wait(&mut waits, polling.wait(Some(step)))?;
            polling.clear();
        }
    }
    if log.state == PlayerState::Standing {
        put_wait(&mut waits, polling.wait(None))?;
    }
    Ok(waits)
}
