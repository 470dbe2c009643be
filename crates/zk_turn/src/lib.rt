//! A cell that gives one caller at a time a turn at a service, and tells each what stands in the service's history by then.
#![tactic(auto)]

mod call;
mod cell;
mod close;
mod held;
mod looks;
mod opening;
mod pass;
mod publishing;
mod rule;
mod turns;
mod views;
mod word;

pub use cell::Cell;
pub use held::Held;
pub use pass::{Pass, last_pass};
pub use rule::{
    Announce, Await, Beginning, Deal, Draw, LoadCount, LoadWord, Measure, Merge, PassOn, Publish,
    Recall, Stamp, TurnRule, Weigh,
};
pub use views::{Flight, Note, Part, Stage, View};
pub use word::Look;
