//! Side scripts of triggered work: its operations are read, played and printed with their replies.
#![tactic(auto)]

mod limits;
mod output;
mod print;
mod read;
mod side;

pub use limits::{GREATEST_EVENT, GREATEST_ITEM, GREATEST_QUEUE, MOST_TICKS};
pub use output::trigger_output;
