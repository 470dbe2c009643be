//! What plain services and the players of a scenario have come to, from whichever start: what holds of it, and the trace
//! that is made of it.
#![tactic(auto)]

mod endings;
mod traces;

pub use endings::ending_of;
pub use traces::trace_of;
