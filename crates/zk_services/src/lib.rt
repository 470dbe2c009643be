//! The services of one thread, on which players play: those of a scenario at first.
#![tactic(auto)]

mod counted;
mod first;
mod objects;
mod plain;
mod table;

pub use counted::{Counted, ServiceId, service_of};
pub use first::{first_players, first_services};
pub use objects::{act_at, histories_of};
pub use plain::{Histories, History, Plain};
