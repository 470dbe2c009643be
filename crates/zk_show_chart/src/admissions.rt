use crate::ArrowKind;
use crate::waits::Source;
use std::alloc::Global;
use zk_base::{Entry, NoMemory};
use zk_model_work::{Expiry, Submitted, WorkOp, WorkReply};

/// What a player waits for.
#[derive(Clone, Copy, PartialEq, Eq)]
enum Awaited {
    Nothing,
    /// That the admission of this number ends or is dropped.
    Admission(u64),
    /// That nothing waits or runs at this queue any more.
    Queue(u32),
    /// It came, in this row.
    Come(u32),
}

/// An admission that isn't over, and its queue.
#[derive(Clone, Copy)]
struct Open {
    number: u64,
    queue: u32,
}

/// What goes on with an item.
#[derive(Clone, Copy)]
struct ItemState {
    /// The queue of its last delay.
    delayed: u32,
    /// The row that set its delay, while that isn't over.
    armed: Option<u32>,
    /// Its admission that stands in a line.
    waits: Option<Open>,
    /// Its admission that runs.
    runs: Option<Open>,
}

/// What goes on at a queue.
#[derive(Clone, Copy)]
struct QueueState {
    /// The item that runs.
    runs: Option<u32>,
    /// How many admissions wait or run.
    open: u32,
}

/// What the work service has done so far, with the rows of what admitted items and of what ended waits.
#[derive(Drop)]
pub struct Admissions {
    /// The row that told of each admission, by its number.
    told: Vec<u32>,
    items: Vec<ItemState>,
    queues: Vec<QueueState>,
    /// What each player waits for.
    awaited: Vec<Awaited>,
}

/// What is awaited has come, in this row.
fn settle(awaited: &mut [Awaited], what: Awaited, row: u32) {
    for index in 0..awaited.len() {
        if awaited[index] == what {
            awaited[index] = Awaited::Come(row);
        }
    }
}

impl Admissions {
    /// Before the first entry.
    pub fn new(
        alloc: Global,
        items: usize,
        queues: usize,
        players: usize,
    ) -> Result<Admissions, NoMemory> {
        let idle = ItemState {
            delayed: 0,
            armed: None,
            waits: None,
            runs: None,
        };
        let empty = QueueState {
            runs: None,
            open: 0,
        };
        Ok(Admissions {
            told: Vec::new(alloc),
            items: vec![in alloc; idle; items]?,
            queues: vec![in alloc; empty; queues]?,
            awaited: vec![in alloc; Awaited::Nothing; players]?,
        })
    }

    /// The item is admitted to a queue. Admissions are told of in the order of their numbers.
    fn admit(&mut self, item: u32, open: Open, row: u32) -> Result<(), NoMemory> {
        if open.number != self.told.len() as u64 {
            return Ok(());
        }
        self.told.push(row)?;
        if let Some(state) = self.items.get_mut(item as usize) {
            state.waits = Some(open);
        }
        if let Some(queue) = self.queues.get_mut(open.queue as usize) {
            queue.open = queue.open.saturating_add(1);
        }
        Ok(())
    }

    fn submitted(&mut self, item: u32, answer: Submitted, row: u32) -> Result<(), NoMemory> {
        match answer {
            Submitted::Fresh(number, queue) | Submitted::Rerun(number, queue) => {
                self.admit(item, Open { number, queue }, row)
            }
            _ => Ok(()),
        }
    }

    fn expired(&mut self, expiries: &[Expiry], row: u32) -> Result<(), NoMemory> {
        for expiry in expiries {
            self.submitted(expiry.item, expiry.submitted, row)?;
        }
        Ok(())
    }

    /// The item is delayed, to be submitted to this queue.
    fn delayed(&mut self, item: u32, queue: u32, row: u32) {
        if let Some(state) = self.items.get_mut(item as usize) {
            state.delayed = queue;
            state.armed = Some(row);
        }
    }

    /// The item's delay is over, if it has one: what set it.
    fn disarm(&mut self, item: u32) -> Source {
        let row = self.items.get_mut(item as usize)?.armed.take()?;
        Some((ArrowKind::Delay, row))
    }

    /// Delays are over: what set the first of them.
    fn disarm_all(&mut self, expiries: &[Expiry]) -> Source {
        let mut first = None;
        for expiry in expiries {
            let source = self.disarm(expiry.item);
            if first.is_none() {
                first = source;
            }
        }
        first
    }

    /// What admitted the item, if it stands in a line.
    fn admitted(&self, item: u32) -> Source {
        let open = self.items.get(item as usize)?.waits?;
        let row = self.told.get(open.number as usize)?;
        Some((ArrowKind::Drop, *row))
    }

    /// What a cancel of the item undoes: an admission, else a delay.
    fn cancelled(&mut self, item: u32) -> Source {
        let delay = self.disarm(item);
        let admission = self.admitted(item);
        if admission.is_none() {
            delay
        } else {
            admission
        }
    }

    /// What an entry undoes or ends.
    fn undone(&mut self, entry: &Entry<WorkOp, WorkReply>) -> Source {
        if let WorkReply::Now(_, expiries) = &entry.reply {
            return self.disarm_all(expiries.items());
        }
        match entry.op {
            WorkOp::Cancel(item) | WorkOp::CancelStart(item) => self.cancelled(item),
            WorkOp::FlushStart(item) | WorkOp::Reschedule(item, _, _) => self.disarm(item),
            _ => None,
        }
    }

    /// An admission is over, in this row.
    fn close(&mut self, open: Open, row: u32) {
        settle(&mut self.awaited, Awaited::Admission(open.number), row);
        let Some(queue) = self.queues.get_mut(open.queue as usize) else {
            return;
        };
        queue.open = queue.open.saturating_sub(1);
        if queue.open == 0 {
            settle(&mut self.awaited, Awaited::Queue(open.queue), row);
        }
    }

    /// The item's admission that stands in a line is dropped.
    fn dropped(&mut self, item: u32, row: u32) {
        let Some(state) = self.items.get_mut(item as usize) else {
            return;
        };
        if let Some(open) = state.waits.take() {
            self.close(open, row);
        }
    }

    /// The row that told of the admission which runs from now on.
    fn begun(&mut self, queue: u32, item: u32, number: u64) -> Option<u32> {
        if let Some(state) = self.items.get_mut(item as usize) {
            state.waits = None;
            state.runs = Some(Open { number, queue });
        }
        if let Some(state) = self.queues.get_mut(queue as usize) {
            state.runs = Some(item);
        }
        self.told.get(number as usize).copied()
    }

    fn ended(&mut self, queue: u32, row: u32) {
        let Some(state) = self.queues.get_mut(queue as usize) else {
            return;
        };
        let Some(item) = state.runs.take() else {
            return;
        };
        let Some(state) = self.items.get_mut(item as usize) else {
            return;
        };
        if let Some(open) = state.runs.take() {
            self.close(open, row);
        }
    }

    fn wait(&mut self, player: u32, what: Awaited) {
        if let Some(awaited) = self.awaited.get_mut(player as usize) {
            *awaited = what;
        }
    }

    /// The row in which what the player waited for came.
    fn over(&mut self, player: u32) -> Option<u32> {
        match self.awaited.get(player as usize) {
            Some(Awaited::Come(row)) => Some(*row),
            _ => None,
        }
    }

    /// The player waits for the end of the item's run.
    fn cancels(&mut self, player: u32, item: u32) {
        if let Some(state) = self.items.get(item as usize) {
            if let Some(open) = state.runs {
                self.wait(player, Awaited::Admission(open.number));
            }
        }
    }

    /// The player waits for an admission of the item, which a flush of a delayed item makes itself.
    fn flushes(&mut self, player: u32, item: u32, number: u64, row: u32) -> Result<(), NoMemory> {
        if let Some(state) = self.items.get(item as usize) {
            let queue = state.runs.map_or(state.delayed, |open| open.queue);
            self.admit(item, Open { number, queue }, row)?;
        }
        self.wait(player, Awaited::Admission(number));
        Ok(())
    }

    /// An entry that no arrow leads to.
    fn go_on(&mut self, entry: &Entry<WorkOp, WorkReply>, row: u32) -> Result<(), NoMemory> {
        let player = entry.who.number;
        match (entry.op, &entry.reply) {
            (WorkOp::Submit(item, _), WorkReply::Sub(answer)) => {
                self.submitted(item, *answer, row)
            }
            (
                WorkOp::Schedule(item, _, _) | WorkOp::Reschedule(item, _, _),
                WorkReply::Sub(answer),
            ) => { self.submitted(item, *answer, row) }
            (_, WorkReply::Now(_, expiries)) => self.expired(expiries.items(), row),
            (WorkOp::FlushStart(item), WorkReply::WaitFor(number)) => {
                self.flushes(player, item, *number, row)
            }
            _ => {
                self.take(player, entry, row);
                Ok(())
            }
        }
    }

    /// An entry that admits nothing.
    fn take(&mut self, player: u32, entry: &Entry<WorkOp, WorkReply>, row: u32) {
        match entry.op {
            WorkOp::Schedule(item, queue, _) | WorkOp::Reschedule(item, queue, _) => {
                self.delayed(item, queue, row);
            }
            WorkOp::Cancel(item) => self.dropped(item, row),
            WorkOp::CancelStart(item) => {
                self.dropped(item, row);
                if entry.reply == WorkReply::Wait {
                    self.cancels(player, item);
                }
            }
            WorkOp::DrainStart(queue, _) => self.wait(player, Awaited::Queue(queue)),
            WorkOp::End(queue) => self.ended(queue, row),
            _ => {}
        }
    }

    /// What this entry comes from: a `begin` from the admission, the end of a wait from what ended it, and what ends a delay or
    /// drops an admission from what set or admitted it. The entry stands in a row.
    pub fn step(&mut self, entry: &Entry<WorkOp, WorkReply>, row: u32) -> Result<Source, NoMemory> {
        match (entry.op, &entry.reply) {
            (WorkOp::Begin(queue), WorkReply::Run(item, number)) => {
                let from = self.begun(queue, *item, *number);
                Ok(from.map(|from| (ArrowKind::Admission, from)))
            }
            (WorkOp::CancelDone(_) | WorkOp::FlushDone(_) | WorkOp::DrainDone(_), _) => {
                let from = self.over(entry.who.number);
                Ok(from.map(|from| (ArrowKind::Completion, from)))
            }
            _ => {
                let source = self.undone(entry);
                self.go_on(entry, row)?;
                Ok(source)
            }
        }
    }
}
