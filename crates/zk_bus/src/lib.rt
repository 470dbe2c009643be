//! The channel service of zbus.
#![tactic(auto)]

mod channel;

pub use channel::Channel;
