//! Event objects: sixteen bits, posts that add to them, and waits for any or all of some.
#![tactic(auto)]

mod engine;
mod event;
mod laws;
mod service;
mod waiting;

pub use event::{EventOp, EventReply, EventState, EventStore, Wanted, event_next};
pub use laws::event_waits_end;
pub use service::Event;
pub use waiting::wait_event;
