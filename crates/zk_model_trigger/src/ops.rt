use zk_base::Few;

/// What can be asked of triggers. Items are 0 to 255, queues 0 to 7, events 0 to 63, and time is counted in ticks, from 0.
#[derive(Clone, Copy)]
pub enum TriggerOp {
    /// Arms an item: it fires, to be submitted to this queue, once one of these events is ready, or so many ticks from now on
    /// where a number is given. It names one event at least. Zephyr's `k_work_poll_submit_to_queue`.
    Arm(u32, u32, Few, Option<u32>),
    /// Makes an event ready. It stays so until it is unposted. Zephyr's `k_poll_signal_raise`.
    Post(u32),
    /// Makes an event unready. What it has fired stays fired. Zephyr's `k_poll_signal_reset`.
    Unpost(u32),
    /// So many ticks pass. Zephyr's `sys_clock_announce`.
    Tick(u32),
    /// Gives up the arm of an item, if it waits. Zephyr's `k_work_poll_cancel`.
    Cancel(u32),
    /// Takes the first fire that isn't taken. It isn't possible where there is none.
    Next,
}

/// Why an arm has fired.
#[derive(Clone, Copy)]
pub enum Cause {
    /// This event was ready.
    Event(u32),
    /// Its time was out.
    Time,
}

/// What triggers answer.
#[derive(Clone, Copy)]
pub enum TriggerReply {
    /// The number of the arm: how many were armed before it.
    Armed(u64),
    /// The item has an arm that waits, or that has fired and isn't taken.
    Busy,
    /// It is done.
    Done,
    /// The item has no arm that waits.
    Inval,
    /// The time from now on, in ticks.
    Now(u64),
    /// An arm that has fired: its number, its item, its queue, and why.
    Fire(u64, u32, u32, Cause),
}
