ghost use Rattle.std.specs.Prelude.{◌≡◌, true, false, ◌+◌, ◌-◌, ◌^◌, ◌<◌, ◌≤◌, ◌++◌, ◌∷◌, [], Some, length, IsOk, IfOk, OnOk, OnErr};
ghost use Rattle.circular_buffer.specs.Buffer.{buffer};
ghost use Rattle.zk_base.specs.declared.ids.Who.{Who};
ghost use Rattle.zk_base.specs.History.{AddsNone};
ghost use Rattle.zk_base.specs.Limits.{most_entries};
ghost use Rattle.zk_model_wait.specs.Msgq.{new_msgq, peek_reply, moved_in, only_looks, msgq_reply, msgq_after, may_wait};

use circular_buffer::HeapCircularBuffer;
use std::alloc::Global;
use std::marker::Model;
use zk_base::{Msg, NoMemory, Store, WaitList, Waiter, Who};

/// What can be asked of a message queue.
#[derive(Clone, Copy, Debug, PartialEq, Eq)]
pub enum MsgqOp {
    /// Puts a message in. Where the queue is full the caller waits, if this is true. Zephyr's `k_msgq_put`.
    Put(Msg, bool),
    /// Puts a message in before the first one, so that it is got next. The caller never waits. Zephyr's `k_msgq_put_front`.
    PutFront(Msg),
    /// Ends a put of the caller that waited and is decided: the one that the entry of this place began.
    PutEnd(u64),
    /// Gives a put of the caller up, decided or not: the one that the entry of this place began.
    PutQuit(u64),
    /// Takes the first message. Where there is none the caller waits, if this is true. Zephyr's `k_msgq_get`.
    Get(bool),
    /// Ends a get of the caller that waited and is decided: the one that the entry of this place began.
    GetEnd(u64),
    /// Gives a get of the caller up, decided or not: the one that the entry of this place began.
    GetQuit(u64),
    /// Reads the first message, which stays. Zephyr's `k_msgq_peek`.
    Peek,
    /// Reads the message of this index, from 0 for the first, which stays. Zephyr's `k_msgq_peek_at`.
    PeekAt(u32),
    /// Discards all messages, and ends all puts that wait. Zephyr's `k_msgq_purge`.
    Purge,
    /// Asks how many messages there are. Zephyr's `k_msgq_num_used_get`.
    Used,
    /// Asks for how many more there is room. Zephyr's `k_msgq_num_free_get`.
    Free,
    /// Asks whether there is a message. Where there is none the caller is registered, if this is true: a later put notifies it.
    /// The registration of an event by Zephyr's `k_poll`.
    PollArm(bool),
    /// Ends a poll of the caller that is notified: the one that the entry of this place began.
    PollEnd(u64),
    /// Gives a poll of the caller up, notified or not: the one that the entry of this place began.
    PollQuit(u64),
}

/// What a message queue answers.
#[derive(Clone, Copy, Debug, PartialEq, Eq)]
pub enum MsgqReply {
    /// It is done.
    Done,
    /// There is no message, or no room for one, and the caller doesn't wait; or its put was purged.
    NoMsg,
    /// There is no message, or no room for one, and the caller waits.
    Wait,
    /// The wait was given up.
    Again,
    /// The message.
    Bytes(Msg),
    /// How many.
    Number(u32),
    /// There is a message, and the caller of the poll isn't registered.
    Ready,
    /// There is no message, and the caller of the poll isn't registered.
    NotReady,
    /// There is no message, and the caller of the poll is registered.
    Armed,
    /// The poll ended notified.
    Noted,
    /// The poll was given up, and was not notified.
    Plain,
}

/// The state of a message queue's machine, with the memory that it has for waits.
#[derive(Drop)]
pub struct MsgqStore {
    entries: u64,
    // The message that is got next at the front. It has its room from the start.
    ring: HeapCircularBuffer<Msg>,
    puts: WaitList<Msg, MsgqReply>,
    gets: WaitList<(), MsgqReply>,
    // Who is notified is decided.
    pollers: WaitList<(), MsgqReply>,
}

impl Model for MsgqStore {
    ghost use Rattle.std.specs.Prelude.{◌≤◌, min};
    ghost use Rattle.zk_model_wait.specs.Msgq.{MsgqView, IsWithin};

    ghost Value = { MsgqView };

    ghost view = { λ s. record {
      msgq = record {
        most = s.ring.capacity;
        entries = s.entries;
        messages = s.ring.items;
        puts = s.puts.waits;
        gets = s.gets.waits;
        pollers = s.pollers.waits;
      };
      room = min (min s.puts.room s.gets.room) s.pollers.room;
    } };

    ghost invariant = { λ s. record {
      within : IsWithin (record {
        most = s.ring.capacity;
        entries = s.entries;
        messages = s.ring.items;
        puts = s.puts.waits;
        gets = s.gets.waits;
        pollers = s.pollers.waits;
      });
      sent : s.puts.next ≤ s.entries;
      got : s.gets.next ≤ s.entries;
      polled : s.pollers.next ≤ s.entries;
    } };
}

/// The state of a message queue's machine alone, which contracts see as its definition has it.
#[derive(Drop)]
pub struct MsgqState {
    store: MsgqStore,
}

impl Model for MsgqState {
    ghost use Rattle.zk_model_wait.specs.Msgq.{Msgq};

    ghost Value = { Msgq };

    ghost view = { λ s. s.store.msgq };
}

impl MsgqState {
    /// A message queue before the first entry, for so many messages.
    pub fn new(alloc: Global, most: u32) -> Result<MsgqState, NoMemory>
        requires { most ≤ 256 }
        ensures { IfOk result (λ state. state ≡ new_msgq most) }
    {
        Ok(MsgqState {
            store: MsgqStore::new(alloc, most)?,
        })
    }

    /// The same state with its memory, as an engine keeps it.
    pub fn into_store(self) -> MsgqStore
        ensures { result.msgq ≡ self }
    {
        let MsgqState { store } = self;
        store
    }
}

/// One message more behind the others, for which there is room.
fn append(ring: &mut HeapCircularBuffer<Msg>, message: Msg)
    requires { length ring.old.items < ring.old.capacity }
    ensures { ring.new ≡ buffer (ring.old.items ++ message ∷ []) ring.old.capacity }
{
    ring.push_back(message);
}

impl MsgqStore {
    /// A message queue before the first entry, for so many messages.
    pub fn new(alloc: Global, most: u32) -> Result<MsgqStore, NoMemory>
        requires { most ≤ 256 }
        ensures { IfOk result (λ store. store.msgq ≡ new_msgq most) }
    {
        Ok(MsgqStore {
            entries: 0,
            ring: HeapCircularBuffer::with_capacity(alloc, most as usize)?,
            puts: WaitList::new(alloc),
            gets: WaitList::new(alloc),
            pollers: WaitList::new(alloc),
        })
    }

    fn put(&mut self, who: Who, message: Msg, waits: bool) -> Result<Option<MsgqReply>, NoMemory>
        requires { self.old.msgq.entries < most_entries }
        ensures reply { IfOk result (λ reply.
            reply ≡ msgq_reply self.old.msgq who (MsgqOp.Put message waits)) }
        ensures next { IfOk result (λ reply.
            self.new.msgq ≡ msgq_after self.old.msgq who (MsgqOp.Put message waits) reply) }
        ensures unchanged { OnErr result (self.new.msgq ≡ self.old.msgq) }
        ensures memory { waits ≡ false → IsOk result }
        ensures roomy { 1 ≤ self.old.room → IsOk result }
        ensures room { self.old.room ≤ self.new.room + 1 }
        ensures kept { AddsNone result → self.old.room ≤ self.new.room }
    {
        let mut reply = MsgqReply::Done;
        if self.gets.first().is_some() {
            self.gets.decide_first(MsgqReply::Bytes(message));
        } else if !self.ring.is_full() {
            append(&mut self.ring, message);
            self.pollers.decide_first(MsgqReply::Noted);
        } else if waits {
            self.puts.join(Waiter {
                place: self.entries,
                who,
                payload: message,
            })?;
            reply = MsgqReply::Wait;
        } else {
            reply = MsgqReply::NoMsg;
        }
        self.entries += 1;
        Ok(Some(reply))
    }

    fn put_front(&mut self, who: Who, message: Msg) -> MsgqReply
        requires { self.old.msgq.entries < most_entries }
        ensures reply { Some result ≡ msgq_reply self.old.msgq who (MsgqOp.PutFront message) }
        ensures next { self.new.msgq ≡ msgq_after self.old.msgq who (MsgqOp.PutFront message) (Some result) }
        ensures room { self.old.room ≤ self.new.room }
    {
        let mut reply = MsgqReply::Done;
        if self.gets.first().is_some() {
            self.gets.decide_first(MsgqReply::Bytes(message));
        } else if self.ring.try_push_front(message).is_ok() {
            self.pollers.decide_first(MsgqReply::Noted);
        } else {
            reply = MsgqReply::NoMsg;
        }
        self.entries += 1;
        reply
    }

    fn put_end(&mut self, who: Who, place: u64) -> Option<MsgqReply>
        requires { self.old.msgq.entries < most_entries }
        ensures reply { result ≡ msgq_reply self.old.msgq who (MsgqOp.PutEnd place) }
        ensures next { self.new.msgq ≡ msgq_after self.old.msgq who (MsgqOp.PutEnd place) result }
        ensures room { self.old.room ≤ self.new.room }
    {
        let reply = self.puts.end(who.number, place)?;
        self.entries += 1;
        Some(reply)
    }

    fn put_quit(&mut self, who: Who, place: u64) -> Option<MsgqReply>
        requires { self.old.msgq.entries < most_entries }
        ensures reply { result ≡ msgq_reply self.old.msgq who (MsgqOp.PutQuit place) }
        ensures next { self.new.msgq ≡ msgq_after self.old.msgq who (MsgqOp.PutQuit place) result }
        ensures room { self.old.room ≤ self.new.room }
    {
        let reply = self.puts.quit(who.number, place, MsgqReply::Again)?;
        self.entries += 1;
        Some(reply)
    }

    /// The message of the first put that waits moves in.
    fn move_in(&mut self)
        requires { length self.old.msgq.messages < self.old.msgq.most }
        ensures next { self.new.msgq ≡ moved_in self.old.msgq.puts.waiting self.old.msgq }
        ensures room { self.old.room ≤ self.new.room }
    {
        if let Some(first) = self.puts.first() {
            append(&mut self.ring, first.payload);
            self.puts.decide_first(MsgqReply::Done);
        }
    }

    fn get(&mut self, who: Who, waits: bool) -> Result<Option<MsgqReply>, NoMemory>
        requires { self.old.msgq.entries < most_entries }
        ensures reply { IfOk result (λ reply. reply ≡ msgq_reply self.old.msgq who (MsgqOp.Get waits)) }
        ensures next { IfOk result (λ reply.
            self.new.msgq ≡ msgq_after self.old.msgq who (MsgqOp.Get waits) reply) }
        ensures unchanged { OnErr result (self.new.msgq ≡ self.old.msgq) }
        ensures memory { waits ≡ false → IsOk result }
        ensures roomy { 1 ≤ self.old.room → IsOk result }
        ensures room { self.old.room ≤ self.new.room + 1 }
        ensures kept { AddsNone result → self.old.room ≤ self.new.room }
    {
        if let Some(message) = self.ring.pop_front() {
            self.move_in();
            self.entries += 1;
            return Ok(Some(MsgqReply::Bytes(message)));
        }
        let mut reply = MsgqReply::NoMsg;
        if waits {
            self.gets.join(Waiter {
                place: self.entries,
                who,
                payload: (),
            })?;
            reply = MsgqReply::Wait;
        }
        self.entries += 1;
        Ok(Some(reply))
    }

    fn get_end(&mut self, who: Who, place: u64) -> Option<MsgqReply>
        requires { self.old.msgq.entries < most_entries }
        ensures reply { result ≡ msgq_reply self.old.msgq who (MsgqOp.GetEnd place) }
        ensures next { self.new.msgq ≡ msgq_after self.old.msgq who (MsgqOp.GetEnd place) result }
        ensures room { self.old.room ≤ self.new.room }
    {
        let reply = self.gets.end(who.number, place)?;
        self.entries += 1;
        Some(reply)
    }

    fn get_quit(&mut self, who: Who, place: u64) -> Option<MsgqReply>
        requires { self.old.msgq.entries < most_entries }
        ensures reply { result ≡ msgq_reply self.old.msgq who (MsgqOp.GetQuit place) }
        ensures next { self.new.msgq ≡ msgq_after self.old.msgq who (MsgqOp.GetQuit place) result }
        ensures room { self.old.room ≤ self.new.room }
    {
        let reply = self.gets.quit(who.number, place, MsgqReply::Again)?;
        self.entries += 1;
        Some(reply)
    }

    fn purge(&mut self, who: Who) -> MsgqReply
        requires { self.old.msgq.entries < most_entries }
        ensures reply { Some result ≡ msgq_reply self.old.msgq who MsgqOp.Purge }
        ensures next { self.new.msgq ≡ msgq_after self.old.msgq who MsgqOp.Purge (Some result) }
        ensures room { self.old.room ≤ self.new.room }
    {
        self.ring.clear();
        self.puts.decide_all(MsgqReply::NoMsg);
        self.entries += 1;
        MsgqReply::Done
    }

    fn poll_arm(&mut self, who: Who, waits: bool) -> Result<Option<MsgqReply>, NoMemory>
        requires { self.old.msgq.entries < most_entries }
        ensures reply { IfOk result (λ reply.
            reply ≡ msgq_reply self.old.msgq who (MsgqOp.PollArm waits)) }
        ensures next { IfOk result (λ reply.
            self.new.msgq ≡ msgq_after self.old.msgq who (MsgqOp.PollArm waits) reply) }
        ensures unchanged { OnErr result (self.new.msgq ≡ self.old.msgq) }
        ensures memory { waits ≡ false → IsOk result }
        ensures roomy { 1 ≤ self.old.room → IsOk result }
        ensures room { self.old.room ≤ self.new.room + 1 }
        ensures kept { AddsNone result → self.old.room ≤ self.new.room }
    {
        let mut reply = MsgqReply::Ready;
        if self.ring.is_empty() {
            reply = MsgqReply::NotReady;
            if waits {
                self.pollers.join(Waiter {
                    place: self.entries,
                    who,
                    payload: (),
                })?;
                reply = MsgqReply::Armed;
            }
        }
        self.entries += 1;
        Ok(Some(reply))
    }

    fn poll_end(&mut self, who: Who, place: u64) -> Option<MsgqReply>
        requires { self.old.msgq.entries < most_entries }
        ensures reply { result ≡ msgq_reply self.old.msgq who (MsgqOp.PollEnd place) }
        ensures next { self.new.msgq ≡ msgq_after self.old.msgq who (MsgqOp.PollEnd place) result }
        ensures room { self.old.room ≤ self.new.room }
    {
        let reply = self.pollers.end(who.number, place)?;
        self.entries += 1;
        Some(reply)
    }

    fn poll_quit(&mut self, who: Who, place: u64) -> Option<MsgqReply>
        requires { self.old.msgq.entries < most_entries }
        ensures reply { result ≡ msgq_reply self.old.msgq who (MsgqOp.PollQuit place) }
        ensures next { self.new.msgq ≡ msgq_after self.old.msgq who (MsgqOp.PollQuit place) result }
        ensures room { self.old.room ≤ self.new.room }
    {
        let reply = self.pollers.quit(who.number, place, MsgqReply::Plain)?;
        self.entries += 1;
        Some(reply)
    }

    /// The message of an index, which stays.
    fn peek(&self, index: u32) -> MsgqReply
        ensures { result ≡ peek_reply self.now.msgq index }
    {
        match self.ring.get(index as usize) {
            Some(message) => MsgqReply::Bytes(*message),
            None => MsgqReply::NoMsg,
        }
    }

    /// An operation that only looks is counted.
    fn count(&mut self)
        requires { self.old.msgq.entries < most_entries }
        ensures next { self.new.msgq ≡ record self.old.msgq { entries = self.old.msgq.entries + 1 } }
        ensures room { self.old.room ≤ self.new.room }
    {
        self.entries += 1;
    }

    /// What an operation that changes nothing answers.
    fn look(&self, op: &MsgqOp) -> MsgqReply
        requires looks { only_looks op.now ≡ true }
        ensures { (who : Who) → Some result ≡ msgq_reply self.now.msgq who op.now }
    {
        match *op {
            MsgqOp::PeekAt(index) => self.peek(index),
            MsgqOp::Used => MsgqReply::Number(self.ring.len() as u32),
            MsgqOp::Free => MsgqReply::Number((self.ring.capacity() - self.ring.len()) as u32),
            _ => self.peek(0),
        }
    }
}

/// One operation of a message queue's machine: its reply and its next state.
///
/// `None` says that the operation isn't possible now. Only a `Put`, a `Get` and a `PollArm` that wait take memory.
pub fn msgq_next(
    store: &mut MsgqStore,
    who: Who,
    op: &MsgqOp,
) -> Result<Option<MsgqReply>, NoMemory>
    requires { store.old.msgq.entries < most_entries }
    ensures reply { IfOk result (λ reply. reply ≡ msgq_reply store.old.msgq who op.now) }
    ensures next { IfOk result (λ reply. store.new.msgq ≡ msgq_after store.old.msgq who op.now reply) }
    ensures unchanged { OnErr result (store.new.msgq ≡ store.old.msgq) }

    // Memory: one place is enough, and is taken only by a wait or a poll that begins.
    ensures memory { may_wait op.now ≡ false → IsOk result }
    ensures roomy { 1 ≤ store.old.room → IsOk result }
    ensures room { store.old.room ≤ store.new.room + 1 }
    ensures kept { AddsNone result → store.old.room ≤ store.new.room }
{
    match *op {
        MsgqOp::Put(message, waits) => store.put(who, message, waits),
        MsgqOp::PutFront(message) => Ok(Some(store.put_front(who, message))),
        MsgqOp::PutEnd(place) => Ok(store.put_end(who, place)),
        MsgqOp::PutQuit(place) => Ok(store.put_quit(who, place)),
        MsgqOp::Get(waits) => store.get(who, waits),
        MsgqOp::GetEnd(place) => Ok(store.get_end(who, place)),
        MsgqOp::GetQuit(place) => Ok(store.get_quit(who, place)),
        MsgqOp::Purge => Ok(Some(store.purge(who))),
        MsgqOp::PollArm(waits) => store.poll_arm(who, waits),
        MsgqOp::PollEnd(place) => Ok(store.poll_end(who, place)),
        MsgqOp::PollQuit(place) => Ok(store.poll_quit(who, place)),
        MsgqOp::Peek | MsgqOp::PeekAt(_) | MsgqOp::Used | MsgqOp::Free => {
            let reply = store.look(op);
            store.count();
            Ok(Some(reply))
        }
    }
}

impl Store for MsgqStore {
    type Op = MsgqOp;

    type Reply = MsgqReply;

    type State = MsgqState;

    ghost use Rattle.zk_model_wait.specs.Msgq.{open_calls, msgq_closes, msgq_machine};

    ghost state = { λ s. s.msgq };

    ghost room = { λ s. s.room };

    ghost machine = { msgq_machine };

    ghost entries = { λ q. q.entries };

    ghost owed = { open_calls };

    ghost closes = { λ q who op. msgq_closes op };

    fn next(&mut self, who: Who, op: &MsgqOp) -> Result<Option<MsgqReply>, NoMemory> {
        msgq_next(self, who, op)
    }

    fn is_closing(&self, _who: Who, op: &MsgqOp) -> bool {
        matches!(
            op,
            MsgqOp::PutEnd(_)
                | MsgqOp::PutQuit(_)
                | MsgqOp::GetEnd(_)
                | MsgqOp::GetQuit(_)
                | MsgqOp::PollEnd(_)
                | MsgqOp::PollQuit(_)
        )
    }

    fn is_futile(&self, who: Who, op: &MsgqOp) -> bool {
        match op {
            MsgqOp::PutEnd(place) => !self.puts.is_decided(who.number, *place),
            MsgqOp::GetEnd(place) => !self.gets.is_decided(who.number, *place),
            MsgqOp::PollEnd(place) => !self.pollers.is_decided(who.number, *place),
            _ => false,
        }
    }

    fn owed(&self) -> u64 {
        self.puts.open() + self.gets.open() + self.pollers.open()
    }

    fn reserve(&mut self, more: usize) -> Result<(), NoMemory> {
        self.puts.reserve(more)?;
        self.gets.reserve(more)?;
        self.pollers.reserve(more)
    }

    fn room(&self) -> u64 {
        self.puts
            .room()
            .min(self.gets.room())
            .min(self.pollers.room())
    }

    fn counts_entries() {}
}
