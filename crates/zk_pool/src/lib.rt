//! A pool of items that threads take out, one at a time, and give back: each item is in the queue or in one hand.
#![tactic(auto)]

mod close;
mod hand;
mod keeper;
mod moves;
mod numbered;
mod opening;
mod pool;
mod room;
mod rule;
mod views;

pub use hand::Hand;
pub use keeper::Keeper;
pub use numbered::Numbered;
pub use pool::Pool;
pub use room::Room;
pub use rule::{Deal, Fill, FindNothing, Give, Grow, Merge, PoolRule, Take};
pub use views::View;
