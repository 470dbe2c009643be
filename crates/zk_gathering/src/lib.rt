//! The trace that is gathered of what services recorded and what players did, and what of it shows how the run ended.
#![tactic(auto)]

mod gathering;
mod looks;
mod waiting;

pub use gathering::gather;
pub use waiting::none_waits;
