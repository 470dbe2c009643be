//! One attempt, or one look, at one service that threads share, with the pass of one player.
#![tactic(auto)]

mod at_cell;
mod looking;

pub use at_cell::visit;
pub use looking::look;
