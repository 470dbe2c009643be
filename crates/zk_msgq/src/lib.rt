//! The message queue service.
#![tactic(auto)]

mod msgq;

pub use msgq::Msgq;
