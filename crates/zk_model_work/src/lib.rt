//! The work service as a plain machine: its operations, its state, and the questions to it.
#![tactic(auto)]

mod answers;
mod busy;
mod changes;
mod growth;
mod laws;
mod ops;
mod parts;
mod questions;
mod state;

pub use answers::{
    cancel_start_reply, cancel_wait, closes, drain_reply, drain_wait, flush_start_reply,
    flush_wait, is_pending, may_begin, may_end, remaining, start_reply, stop_reply, submission,
    taken_up, unplug_reply,
};
pub use busy::{BusyFlags, flags, united};
pub use changes::{
    answer, begin, change, disarm, drain, drop_waiting, end_run, expire, set_life, settle, stop,
};
pub use growth::{arm, fresh_queues, hurry, mark, put_wait, submit, submit_arms};
pub use laws::{
    begins_in_order, cancels_hold, delays_hold, drains_hold, flags_show, flushes_hold, goes_on,
    keeps_laws, never_overlaps, runs_once, submissions_hold,
};
pub use ops::{Expiries, Expiry, Submitted, WorkOp, WorkReply};
pub use parts::{Admission, Arm, Awaited, Change, Closing, Fate, Item, Life, Queue, Wait};
pub use questions::{
    armed, deadline_of, drained_of, due, first_in_line, flushed, has_come, is_due,
    is_empty_and_idle, is_flushing, is_plugged, is_started, is_unanswered, is_worker, item_of,
    live_arm, run, running, waiting,
};
pub use state::{WorkState, work_next};
