//! The work service: all items and queues of a scenario, with their history.
#![tactic(auto)]

mod active;
mod engine;
mod flushed;
mod open_waits;
mod told;
mod touched;
mod waits;
mod work;

pub use work::Work;
