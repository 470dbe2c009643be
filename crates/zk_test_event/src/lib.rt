//! Threads that share an event object, each proved, and tests of them; and an event object beside a plain one.
#![tactic(auto)]

mod parts;
#[cfg(test)]
mod plain;
#[cfg(test)]
mod script_tests;
#[cfg(test)]
mod thread_tests;

pub use parts::{Part, Task, parts_of, play_each};
