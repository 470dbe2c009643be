//! The observer service of zbus: listeners, and subscribers with their lists of channels.
#![tactic(auto)]

mod observer;

pub use observer::Observer;
