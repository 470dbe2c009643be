use zk_base::{Errno, Listed};

/// What can be asked of the work service. An item is its number among the items, a queue its number
/// among the queues, each from 0 in declared order.
#[derive(Clone, Copy, Debug, PartialEq, Eq)]
pub enum WorkOp {
    /// Submits an item, to this queue where one is named. Zephyr's `k_work_submit_to_queue`.
    Submit(u32, Option<u32>),
    /// Cancels an item without waiting. Zephyr's `k_work_cancel`.
    Cancel(u32),
    /// Starts a cancel of an item that waits for the end of its run. Zephyr's `k_work_cancel_sync`.
    CancelStart(u32),
    /// The run that the caller's sync cancel found, started at this place of the history, has ended.
    CancelDone(u64),
    /// Starts a flush of an item. Zephyr's `k_work_flush`.
    FlushStart(u32),
    /// What the caller's flush waits for, started at this place of the history, has ended or was dropped.
    FlushDone(u64),
    /// Submits an item to a queue after a delay in ticks, unless it is delayed, queued or being
    /// cancelled. Zephyr's `k_work_schedule_for_queue`.
    Schedule(u32, u32, u32),
    /// Sets an item's delay anew, in ticks, whatever the item is at. Zephyr's
    /// `k_work_reschedule_for_queue`.
    Reschedule(u32, u32, u32),
    /// How many ticks it is until an item's delay is over. Zephyr's
    /// `k_work_delayable_remaining_get`.
    Remaining(u32),
    /// Starts a queue, so that it takes items. Zephyr's `k_work_queue_start`.
    Start(u32),
    /// Starts a drain of a queue, which is plugged too where this is true. Zephyr's `k_work_queue_drain`.
    DrainStart(u32, bool),
    /// The drain that was started by the caller at this place of the history is over.
    DrainDone(u64),
    /// Takes a plug away, so that the queue takes items again. Zephyr's `k_work_queue_unplug`.
    Unplug(u32),
    /// Stops a started queue that is plugged, empty and idle: it takes no items until it is started
    /// again. Zephyr's `k_work_queue_stop`.
    Stop(u32),
    /// So many ticks have passed: the delays that are over by now end, and their items are submitted.
    /// Zephyr's `sys_clock_announce`.
    Announce(u32),
    /// The queue's worker takes up the next admission.
    Begin(u32),
    /// The queue's worker has played the handler to its end.
    End(u32),
}

/// What became of a submission.
#[derive(Clone, Copy, Debug, PartialEq, Eq)]
pub enum Submitted {
    /// The item is queued already. Answer 0.
    Already,
    /// Admitted, with the number of the admission and its queue. Answer 1.
    Fresh(u64, u32),
    /// Admitted while the item runs, to the queue that runs it. Answer 2.
    Rerun(u64, u32),
    /// Not admitted.
    Refused(Errno),
}

/// An item whose delay is over, and what became of its submission.
#[derive(Clone, Copy, Debug, PartialEq, Eq)]
pub struct Expiry {
    /// The item whose delay is over.
    pub item: u32,
    /// The answer to its submission, which nobody is told.
    pub submitted: Submitted,
}

/// The delays that one announce ended, in the order in which they did.
pub type Expiries = Listed<Expiry>;

/// What the work service answers.
#[derive(Debug, Drop, PartialEq)]
pub enum WorkReply {
    /// Of a submission.
    Sub(Submitted),
    /// The item is delayed from now on. Answer 1.
    Armed,
    /// The busy flags of an item, below 32: 1 running, 2 cancelling, 4 queued, 8 delayed, 16 flushing.
    Flags(u8),
    /// Of a sync cancel and of a flush: whether there was something to cancel, to flush.
    Truth(bool),
    /// It isn't over yet: the caller waits for its end.
    Wait,
    /// The caller waits for the end of the admission of this number.
    WaitFor(u64),
    /// A number. Of a drain 0 where nothing had to be awaited, and 1 once it is over; else in ticks.
    Number(u64),
    /// Done, with nothing to say of it.
    Done,
    /// Nothing was done, since it was done before.
    Already,
    /// Nothing was done, since the queue isn't plugged, or something of it waits or runs.
    Busy,
    /// The time after an announce, in ticks, and the delays that ended by it.
    Now(u64, Expiries),
    /// The item that a worker took up, and the number of its admission.
    Run(u32, u64),
}
