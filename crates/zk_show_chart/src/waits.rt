use crate::ArrowKind;
use std::alloc::Global;
use std::collections::VecDeque;
use zk_base::{Entry, MOST_PLAYERS, NoMemory, WaitList, Waiter, Who};
use zk_model_bus::{ChanOp, ChanReply, ObsOp, ObsReply};
use zk_model_wait::{MsgqOp, MsgqReply, SemOp, SemReply};

/// The most who wait at an object: as many as there are players.
const MOST_WAITS: u64 = MOST_PLAYERS as u64;

/// What an entry comes from, if something: of which kind the arrow is, and the row.
pub type Source = Option<(ArrowKind, u32)>;

/// The waits of a kind, each with what ended it.
type Waits<M> = WaitList<M, Source>;

/// One more waits, if there may be one.
fn join<M: Drop + Copy>(
    waits: &mut Waits<M>,
    place: u64,
    who: Who,
    payload: M,
) -> Result<(), NoMemory> {
    if waits.open() < MOST_WAITS && waits.next() <= place && place < u64::MAX {
        waits.join(Waiter {
            place,
            who,
            payload,
        })?;
    }
    Ok(())
}

/// A wait ends: what ended it.
fn end<M: Drop + Copy>(waits: &mut Waits<M>, who: Who, begun: u64) -> Source {
    waits.end(who.number, begun).flatten()
}

/// A wait is given up: what ended it before, if something did.
fn quit<M: Drop + Copy>(waits: &mut Waits<M>, who: Who, begun: u64) -> Source {
    waits.quit(who.number, begun, None).flatten()
}

/// What the entries of a semaphore come from.
#[derive(Drop)]
pub struct Gives {
    takers: Waits<()>,
    pollers: Waits<()>,
}

impl Gives {
    /// Before the first entry. It takes no memory.
    pub fn new(alloc: Global) -> Gives {
        Gives {
            takers: WaitList::new(alloc),
            pollers: WaitList::new(alloc),
        }
    }

    /// The first who waits is served, or else the first who polls.
    fn give(&mut self, row: u32) {
        if self.takers.first().is_some() {
            self.takers.decide_first(Some((ArrowKind::Give, row)));
        } else {
            self.pollers.decide_first(Some((ArrowKind::Note, row)));
        }
    }

    /// What this entry comes from. The entry is that of a place, and stands in a row.
    pub fn step(
        &mut self,
        entry: &Entry<SemOp, SemReply>,
        place: u64,
        row: u32,
    ) -> Result<Source, NoMemory> {
        let who = entry.who;
        match (entry.op, entry.reply) {
            (SemOp::Take(_), SemReply::Wait) => join(&mut self.takers, place, who, ())?,
            (SemOp::PollArm(_), SemReply::Armed) => join(&mut self.pollers, place, who, ())?,
            (SemOp::Give, _) => self.give(row),
            (SemOp::Reset, _) => self.takers.decide_all(Some((ArrowKind::Wake, row))),
            (SemOp::TakeEnd(begun), _) => return Ok(end(&mut self.takers, who, begun)),
            (SemOp::TakeQuit(begun), _) => return Ok(quit(&mut self.takers, who, begun)),
            (SemOp::PollEnd(begun), _) => return Ok(end(&mut self.pollers, who, begun)),
            (SemOp::PollQuit(begun), _) => return Ok(quit(&mut self.pollers, who, begun)),
            _ => {}
        }
        Ok(None)
    }
}

/// What the entries of a message queue come from.
#[derive(Drop)]
pub struct Puts {
    /// The rows of the puts whose messages are in the queue, that of the message that is got next first.
    messages: VecDeque<u32>,
    /// Who waits to put a message in, with the row of that put.
    putters: Waits<u32>,
    getters: Waits<()>,
    pollers: Waits<()>,
}

impl Puts {
    /// Before the first entry. It takes no memory.
    pub fn new(alloc: Global) -> Puts {
        Puts {
            messages: VecDeque::new(alloc),
            putters: WaitList::new(alloc),
            getters: WaitList::new(alloc),
            pollers: WaitList::new(alloc),
        }
    }

    /// The first who waits for a message has it: whether somebody does.
    fn hand(&mut self, row: u32) -> bool {
        let waits = self.getters.first().is_some();
        if waits {
            self.getters.decide_first(Some((ArrowKind::Message, row)));
        } else {
            self.pollers.decide_first(Some((ArrowKind::Note, row)));
        }
        waits
    }

    /// A message is put in: the first who waits for one has it.
    fn put(&mut self, row: u32) -> Result<(), NoMemory> {
        if !self.hand(row) {
            self.messages.push_back(row)?;
        }
        Ok(())
    }

    /// A message is put in before the others: the first who waits for one has it.
    fn put_front(&mut self, row: u32) -> Result<(), NoMemory> {
        if !self.hand(row) {
            self.messages.push_front(row)?;
        }
        Ok(())
    }

    /// The first message is taken, and the first that waits moves in, by the get in this row.
    fn get(&mut self, row: u32) -> Result<Source, NoMemory> {
        let taken = self.messages.pop_front();
        if let Some(first) = self.putters.first() {
            self.putters.decide_first(Some((ArrowKind::Wake, row)));
            self.messages.push_back(first.payload)?;
        }
        Ok(taken.map(|from| (ArrowKind::Message, from)))
    }

    /// All messages are dropped, and all who wait to put one in are woken.
    fn purge(&mut self, row: u32) {
        self.messages.clear();
        self.putters.decide_all(Some((ArrowKind::Wake, row)));
    }

    /// An entry that ends no wait.
    fn go_on(
        &mut self,
        entry: &Entry<MsgqOp, MsgqReply>,
        place: u64,
        row: u32,
    ) -> Result<Source, NoMemory> {
        let who = entry.who;
        match (entry.op, entry.reply) {
            (MsgqOp::Put(_, _), MsgqReply::Done) => self.put(row)?,
            (MsgqOp::PutFront(_), MsgqReply::Done) => self.put_front(row)?,
            (MsgqOp::Put(_, _), MsgqReply::Wait) => join(&mut self.putters, place, who, row)?,
            (MsgqOp::Get(_), MsgqReply::Wait) => join(&mut self.getters, place, who, ())?,
            (MsgqOp::PollArm(_), MsgqReply::Armed) => join(&mut self.pollers, place, who, ())?,
            (MsgqOp::Get(_), MsgqReply::Bytes(_)) => return self.get(row),
            (MsgqOp::Purge, _) => self.purge(row),
            _ => {}
        }
        Ok(None)
    }

    /// What this entry comes from. The entry is that of a place, and stands in a row.
    pub fn step(
        &mut self,
        entry: &Entry<MsgqOp, MsgqReply>,
        place: u64,
        row: u32,
    ) -> Result<Source, NoMemory> {
        let who = entry.who;
        match entry.op {
            MsgqOp::PutEnd(begun) => Ok(end(&mut self.putters, who, begun)),
            MsgqOp::PutQuit(begun) => Ok(quit(&mut self.putters, who, begun)),
            MsgqOp::GetEnd(begun) => Ok(end(&mut self.getters, who, begun)),
            MsgqOp::GetQuit(begun) => Ok(quit(&mut self.getters, who, begun)),
            MsgqOp::PollEnd(begun) => Ok(end(&mut self.pollers, who, begun)),
            MsgqOp::PollQuit(begun) => Ok(quit(&mut self.pollers, who, begun)),
            _ => self.go_on(entry, place, row),
        }
    }
}

/// What the entries of a channel come from.
#[derive(Drop)]
pub struct Frees {
    callers: Waits<()>,
}

impl Frees {
    /// Before the first entry. It takes no memory.
    pub fn new(alloc: Global) -> Frees {
        Frees {
            callers: WaitList::new(alloc),
        }
    }

    /// The channel goes to the first who waits, where it was freed.
    fn freed(&mut self, reply: ChanReply, row: u32) {
        if reply == ChanReply::Done {
            self.callers.decide_first(Some((ArrowKind::Handover, row)));
        }
    }

    /// What this entry comes from. The entry is that of a place, and stands in a row.
    pub fn step(
        &mut self,
        entry: &Entry<ChanOp, ChanReply>,
        place: u64,
        row: u32,
    ) -> Result<Source, NoMemory> {
        let who = entry.who;
        if entry.reply == ChanReply::Wait {
            join(&mut self.callers, place, who, ())?;
            return Ok(None);
        }
        match entry.op {
            ChanOp::Free | ChanOp::Finish => self.freed(entry.reply, row),
            ChanOp::ClaimEnd(begun) => return Ok(end(&mut self.callers, who, begun)),
            ChanOp::ClaimQuit(begun) => return Ok(quit(&mut self.callers, who, begun)),
            _ => {}
        }
        Ok(None)
    }
}

/// What the takes of a subscriber come from.
#[derive(Drop)]
pub struct Visits {
    /// The rows of the visits whose channels are in its list, the oldest first.
    channels: VecDeque<u32>,
    takers: Waits<()>,
}

impl Visits {
    /// Before the first entry. It takes no memory.
    pub fn new(alloc: Global) -> Visits {
        Visits {
            channels: VecDeque::new(alloc),
            takers: WaitList::new(alloc),
        }
    }

    /// A visit: the first who waits for a channel has it.
    fn visit(&mut self, row: u32) -> Result<(), NoMemory> {
        if self.takers.first().is_some() {
            self.takers.decide_first(Some((ArrowKind::Message, row)));
        } else {
            self.channels.push_back(row)?;
        }
        Ok(())
    }

    /// What this entry comes from, if it takes a channel. The entry is that of a place, and stands in a row.
    pub fn step(
        &mut self,
        entry: &Entry<ObsOp, ObsReply>,
        place: u64,
        row: u32,
    ) -> Result<Source, NoMemory> {
        let who = entry.who;
        match (entry.op, entry.reply) {
            (ObsOp::Visit(_), ObsReply::Pushed) => self.visit(row)?,
            (ObsOp::Take(_), ObsReply::Wait) => join(&mut self.takers, place, who, ())?,
            (ObsOp::Take(_), ObsReply::Channel(_)) => {
                let taken = self.channels.pop_front();
                return Ok(taken.map(|from| (ArrowKind::Message, from)));
            }
            (ObsOp::TakeEnd(begun), _) => return Ok(end(&mut self.takers, who, begun)),
            (ObsOp::TakeQuit(begun), _) => return Ok(quit(&mut self.takers, who, begun)),
            _ => {}
        }
        Ok(None)
    }
}
