//! Sets of the players of a scenario.
#![tactic(auto)]

mod bits;
mod player_set;

pub use player_set::PlayerSet;
