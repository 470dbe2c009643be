use crate::{Answer, Step, Word};
use zk_base::{Few, Msg};
use zk_line::{Events, MOST_EVENTS};
use zk_words::Timeout;

/// The most scripts and runs that are open at a time: one for each channel, the run of a worker, and its item's script.
pub const MOST_FRAMES: usize = 18;

/// How a call goes: which steps it makes in which order.
#[derive(Clone, Copy)]
pub enum Plan {
    /// One step, whose reply it answers.
    One(Step),
    /// One step, whose reply it answers unless it has to wait, and then the step that ends the wait.
    Pair(Step, Closing),
    /// One step and then another, whose reply it answers.
    Twice(Step, Step),
    /// A step that may begin a wait of this length at most, and then the step that ends it or gives it up. With ticks, an
    /// alarm is set before.
    Wait(Waiting, Timeout),
    /// A poll of this length at most for these events: it asks for each, waits, and gives up what it has registered. With
    /// ticks, an alarm is set before.
    Poll(Timeout, Events),
    /// The use of the channel of this object number, for which it waits so long at most: it asks for it, uses it, visits the
    /// observers of which the channel tells it, and frees it. With ticks, an alarm is set before.
    Channel(u32, Using, Timeout),
}

/// What a call does with the channel that it has got.
#[derive(Clone, Copy)]
pub enum Using {
    /// It puts this message in, and visits the observers. Zephyr's `zbus_chan_pub`.
    Publish(Msg),
    /// It visits the observers. Zephyr's `zbus_chan_notify`.
    Notify,
    /// It reads the message. Zephyr's `zbus_chan_read`.
    Read,
}

/// What a call waits for, at the object of this number.
#[derive(Clone, Copy)]
pub enum Waiting {
    /// Taking a semaphore.
    Take(u32),
    /// Putting a message into a queue.
    Put(u32, Msg),
    /// Getting a message out of a queue.
    Get(u32),
    /// Claiming a channel.
    Claim(u32),
    /// Taking the oldest channel of a subscriber.
    SubWait(u32),
    /// Getting a channel for this message.
    Offer(u32, Msg),
    /// Getting a channel, to notify its observers or to read it.
    Enter(u32),
}

/// The step that ends a wait, by the place of the entry that began it.
#[derive(Clone, Copy)]
pub enum Closing {
    /// The end of a sync cancel.
    Cancel,
    /// The end of a flush.
    Flush,
    /// The end of a drain.
    Drain,
}

/// How far an event of a poll is.
#[derive(Clone, Copy, PartialEq, Eq)]
pub enum Mark {
    /// It isn't asked yet.
    Unasked,
    /// The player is registered, by the entry at this place of its object.
    Armed(u64),
    /// It is ready.
    Ready,
    /// It wasn't ready, and the player isn't registered.
    Not,
}

/// The alarm of a poll.
#[derive(Clone, Copy, PartialEq, Eq)]
pub enum Alarm {
    /// There is none.
    Unset,
    /// It ends at this moment or later.
    Due(u64),
    /// It has ended.
    Ended,
}

/// How far a call or a run has come.
#[derive(Clone, Copy, PartialEq, Eq)]
pub enum Stage {
    /// Nothing of it was done.
    Start,
    /// A worker has taken up an item and hasn't ended it.
    Runs,
    /// A call waits since the entry at this place of its service.
    Waits(u64),
    /// A call has made the first of its two steps.
    Halfway,
    /// A call has set its alarm, for this moment.
    Alarmed(u64),
    /// A call waits since the entry at this place of its object, and until its alarm of this moment ends.
    WaitsUntil(u64, u64),
    /// The alarm of a call has ended, which gives up the wait that the entry at this place of its object began.
    Quits(u64),
    /// A poll with this alarm, and how far each of its events is.
    Polls(Alarm, [Mark; MOST_EVENTS]),
    /// A call has got its channel, and has yet to use it.
    Holds,
    /// A call holds its channel and visits observers: those that are left, in order, and whether one was full.
    Visits(Few, bool),
    /// A call has read this message, and has yet to free its channel.
    Reads(Msg),
}

/// What is played.
#[derive(Clone, Copy, PartialEq, Eq)]
pub enum Role {
    /// The script of this object.
    Script(u32),
    /// The runs of this queue, one after the other. The number is that of the object.
    Worker(u32),
}

/// A script or a run that is open, and how far it has come.
#[derive(Clone, Copy, PartialEq, Eq)]
pub struct Frame {
    /// What is played.
    pub role: Role,
    /// How many calls of the script are answered.
    pub next: u32,
    /// How far the call is that comes next.
    pub stage: Stage,
}

/// How a frame goes on by the reply to its step, where its stage and the answer stand already.
#[derive(Clone, Copy, PartialEq, Eq)]
pub enum Moved {
    /// It goes on at its stage.
    Goes,
    /// The call is answered.
    Answers,
    /// The script of this object is played next.
    Enters(u32),
}

/// What a reply does to the frame whose step it answers.
#[derive(Clone, Copy)]
pub enum Progress {
    /// It goes on at this stage.
    Goes(Stage),
    /// The call is answered.
    Answers(Word, Answer),
    /// The script of this object is played next, and the frame then goes on at this stage.
    Enters(u32, Stage),
}
