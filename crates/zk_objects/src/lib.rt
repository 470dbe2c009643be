//! The object table as a service: for each object the set of the players that have permission on it.
#![tactic(auto)]

mod engine;
mod first;
mod marks;
mod object;
mod objects;

pub use objects::Objects;
