use zk_base::{Listed, Seen};
use zk_model_bus::{ChanOp, ChanReply, ObsOp, ObsReply, TableOp, TableReply};
use zk_model_wait::{
    ClockOp, ClockReply, MsgqOp, MsgqReply, SemOp, SemReply, SignalOp, SignalReply,
};
use zk_model_work::{WorkOp, WorkReply};

/// The most attempts that a player has at a time: those of a poll that waits for eight events, and its alarm.
pub const MOST_ATTEMPTS: u32 = 9;

/// One step of a player: what it asks of which service.
#[derive(Clone, Copy, Debug, PartialEq, Eq)]
pub enum Step {
    /// An operation of the work service.
    Work(WorkOp),
    /// An operation of the clock.
    Clock(ClockOp),
    /// An operation of the object table. Objects are named by their numbers.
    Table(TableOp),
    /// An operation of the semaphore of this object number.
    Sem(u32, SemOp),
    /// An operation of the message queue of this object number.
    Msgq(u32, MsgqOp),
    /// A write to the signal of this object number.
    Signal(u32, SignalOp),
    /// An operation of the channel of this object number.
    Chan(u32, ChanOp),
    /// An operation of the observer of this object number: a listener or a subscriber.
    Obs(u32, ObsOp),
    /// A look at the busy flags of the item of this object number. It makes no entry.
    LookItem(u32),
    /// A look at the signal of this object number, and whether it is possible only where the signal is raised. It makes no
    /// entry.
    LookSignal(u32, bool),
}

/// What a step was answered.
#[derive(Drop, PartialEq)]
pub enum StepReply {
    /// The work service's reply, and the place of the entry in its history, from 0.
    Work(WorkReply, u64),
    /// The clock's reply, and the place of the entry in its history, from 0.
    Clock(ClockReply, u64),
    /// The object table's reply, and the place of the entry in its history, from 0.
    Table(TableReply, u64),
    /// The object number of the semaphore, its reply, and the place of the entry in its history, from 0.
    Sem(u32, SemReply, u64),
    /// The object number of the message queue, its reply, and the place of the entry in its history, from 0.
    Msgq(u32, MsgqReply, u64),
    /// The object number of the signal, its reply, and the place of the entry in its history, from 0.
    Signal(u32, SignalReply, u64),
    /// The object number of the channel, its reply, and the place of the entry in its history, from 0.
    Chan(u32, ChanReply, u64),
    /// The object number of the observer, its reply, and the place of the entry in its history, from 0.
    Obs(u32, ObsReply, u64),
    /// The busy flags that a look at an item found, below 32, and after how many entries of the work service it found them.
    Flags(u8, u64),
    /// What a look at a signal found.
    Seen(Seen),
}

/// Where a step stands in what was recorded.
#[derive(Clone, Copy, Debug, PartialEq, Eq)]
pub enum Spot {
    /// The place of the entry in the history of the work service.
    Work(u64),
    /// The place of the entry in the history of the clock.
    Clock(u64),
    /// The place of the entry in the history of the object table.
    Table(u64),
    /// The object number of a semaphore, and the place of the entry in its history.
    Sem(u32, u64),
    /// The object number of a message queue, and the place of the entry in its history.
    Msgq(u32, u64),
    /// The object number of a signal, and the place of the entry in its history.
    Signal(u32, u64),
    /// The object number of a channel, and the place of the entry in its history.
    Chan(u32, u64),
    /// The object number of an observer, and the place of the entry in its history.
    Obs(u32, u64),
    /// A look, which has no entry: the object number of the item, its busy flags, and after how many entries of the work
    /// service they were found.
    LookItem(u32, u8, u64),
    /// A look, which has no entry: the object number of the signal, and what was found.
    LookSignal(u32, Seen),
}

/// The spots of a player's steps, by the number of the step.
pub type Spots = Listed<Spot>;
