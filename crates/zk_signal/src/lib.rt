//! A signal that threads write and look at without a turn: each call is a few atomic steps, takes no memory and waits for nobody.
#![tactic(auto)]

mod close;
mod looks;
mod opening;
mod order;
mod pass;
mod rule;
mod signal;
mod views;
mod words;
mod writes;

pub use order::{HasStamp, in_stamp_order};
pub use pass::SigPass;
pub use rule::{Beginning, Deal, Draw, Look, Merge, Settle, SignalRule};
pub use signal::SharedSignal;
pub use views::View;
