//! Signals, and who is noted when something is ready.
#![tactic(auto)]

mod notes;
mod signal;
mod signal_engine;

pub use notes::{Member, Notes};
pub use signal::Signal;
