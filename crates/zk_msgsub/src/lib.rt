//! Message subscribers: each gets a copy of the message in a bounded queue of its own, and they come and go while publishers run.
#![tactic(auto)]

mod close;
mod fan;
mod fan_laws;
mod fan_service;
mod fan_state;
mod moves;
mod msg_sub;
mod note;
mod opening;
mod publisher;
mod rule;
mod seats;
mod views;

pub use fan::Fan;
pub use fan_laws::{changes_are_told, keeps_fan_laws, opens_are_told};
pub use fan_state::{FanOp, FanReply, FanState, fan_next};
pub use msg_sub::{Full, MsgSub};
pub use note::Note;
pub use publisher::{Publisher, Sent};
pub use rule::{
    AddPublisher, AddSend, Deal, DoubleSends, FindFull, FindNothing, Merge, Push, SubRule, Take,
};
pub use seats::{PubSeat, SubSeat};
pub use views::{Pushed, View};
