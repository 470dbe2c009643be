//! The services of time: the clock with its alarms, and the timeouts of the items that are armed.
#![tactic(auto)]

mod alarms;
mod arm;
mod clock;
mod clock_engine;
mod deltas;
mod timeout;
mod timeout_list;

pub use clock::Clock;
pub use timeout::Timeout;
pub use timeout_list::TimeoutList;
