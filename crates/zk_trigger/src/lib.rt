//! Triggered work: items that are submitted once an event is ready or their time is out.
#![tactic(auto)]

mod engine;
mod live;
mod live_arms;
mod pump;
mod trigger;

pub use pump::Pump;
pub use trigger::Trigger;
pub use zk_model_trigger::{Cause, TriggerOp, TriggerReply, TriggerState, trigger_next};
