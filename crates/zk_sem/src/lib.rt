//! The semaphore service.
#![tactic(auto)]

mod sem;

pub use sem::Sem;
