use crate::looks::Looks;
use zk_base::{Entry, Listed};
use zk_model_bus::{ChanOp, ChanReply, ObsOp, ObsReply, TableOp, TableReply};
use zk_model_wait::{
    ClockOp, ClockReply, MsgqOp, MsgqReply, SemOp, SemReply, SignalOp, SignalReply,
};
use zk_model_work::{WorkOp, WorkReply};
use zk_worker::Log;

/// How a run ended.
#[derive(Clone, Copy, PartialEq, Eq)]
pub enum Ending {
    /// Each thread is through its script, each worker is between two runs, and no admission waits.
    Ended,
    /// Some player isn't, and none can go on.
    Stuck,
    /// Some player has made all the steps that a player may make.
    Spent,
}

/// What a service did, oldest first.
pub type History<O, R> = Listed<Entry<O, R>>;

/// What the objects of a kind did, by object number; an object of another kind did nothing.
pub type Histories<O, R> = Listed<History<O, R>>;

/// What each player did, in player order.
pub type Logs = Listed<Log>;

/// All that a run of a scenario did.
#[derive(Drop)]
pub struct Trace {
    /// How the run ended.
    pub ending: Ending,
    /// The history of the work service.
    pub work: History<WorkOp, WorkReply>,
    /// The history of the clock.
    pub clock: History<ClockOp, ClockReply>,
    /// The history of the object table.
    pub table: History<TableOp, TableReply>,
    /// The histories of the semaphores.
    pub sems: Histories<SemOp, SemReply>,
    /// The histories of the message queues.
    pub msgqs: Histories<MsgqOp, MsgqReply>,
    /// The writes to the signals.
    pub signals: Histories<SignalOp, SignalReply>,
    /// The histories of the channels.
    pub chans: Histories<ChanOp, ChanReply>,
    /// The histories of the observers: the listeners and the subscribers.
    pub observers: Histories<ObsOp, ObsReply>,
    /// What players saw without an entry.
    pub looks: Looks,
    /// The log of each player.
    pub logs: Logs,
}
