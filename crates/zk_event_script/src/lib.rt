//! Side scripts of an event object: its operations are read, played and printed with their replies.
#![tactic(auto)]

mod limits;
mod output;
mod print;
mod read;
mod side;

pub use limits::GREATEST_BITS;
pub use output::event_output;
