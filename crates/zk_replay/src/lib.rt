//! The round robin run of a scenario, on one thread.
#![tactic(auto)]

mod last_turn;
mod laws;
mod run;
mod sleepers;
mod turns;

pub use laws::{none_goes_on, none_is_served, one_run};
pub use run::replay;
