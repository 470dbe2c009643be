//! The services that players wait at, as plain machines, and the laws of their histories: the clock, semaphores, message
//! queues and signals.
#![tactic(auto)]

mod clock;
mod clock_laws;
mod msgq;
mod msgq_laws;
mod sem;
mod sem_laws;
mod signal;
mod signal_laws;

pub use clock::{Alarm, ClockOp, ClockReply, ClockState, ClockStore, clock_next};
pub use clock_laws::{alarms_hold, keeps_clock_laws, time_passes};
pub use msgq::{MsgqOp, MsgqReply, MsgqState, MsgqStore, msgq_next};
pub use msgq_laws::{
    first_in_first_out, keeps_msgq_laws, queue_calls_are_told, queue_polls_hold, queue_waits_end,
    ring_holds,
};
pub use sem::{SemOp, SemReply, SemState, SemStore, sem_next};
pub use sem_laws::{calls_are_told, gives_add_up, keeps_sem_laws, polls_hold, waits_end};
pub use signal::{SignalOp, SignalReply, SignalState, SignalStore, signal_next};
pub use signal_laws::{keeps_signal_laws, stamps_tell_writes};
