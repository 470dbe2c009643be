//! Triggers as a plain machine: items that are armed, what fires them, and the laws of its histories.
#![tactic(auto)]

mod changes;
mod laws;
mod ops;
mod parts;
mod questions;
mod state;

pub use changes::deadline_after;
pub use laws::{ends_once, fires_once, keeps_trigger_laws, replies_are_told};
pub use ops::{Cause, TriggerOp, TriggerReply};
pub use parts::{Arm, Armed, Change, Fire, Life, Occasion};
pub use questions::is_reached;
pub use state::{TriggerState, trigger_next};
