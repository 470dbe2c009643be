//! The waiting and running admissions of the work service, and the busy flags of its items.
#![tactic(auto)]

mod close_up;
mod copies;
mod place;
mod queues;
mod ring;
mod runs;
mod ticket;
mod waiting;
mod words;

pub use queues::Queues;
pub use ticket::Ticket;
