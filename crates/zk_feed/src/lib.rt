//! Publishers that feed message subscribers: each sends its messages to all of them on a thread of its own, and then all that
//! each subscriber took is printed.
#![tactic(auto)]

mod fan;
mod feeder;
mod gather;
mod hearing;
mod lasts;
mod printing;
mod run;
mod send;
mod shared;
mod size;
mod subscribers;

pub use run::feed;
pub use size::{FeedSize, MOST_MESSAGES, MOST_PUBLISHERS, MOST_SUBSCRIBERS};
