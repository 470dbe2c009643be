//! The laws of players: what each player that follows a scenario has done, whatever its services show, and how what it plays with
//! starts. Each law is the contract of a function that does nothing.
#![tactic(auto)]

mod answer_laws;
mod attempt_laws;
mod call_laws;
mod check_laws;
mod poll_laws;
mod script_laws;
mod stack_laws;
mod start_laws;
mod visit_laws;

pub use answer_laws::{calls_are_answered_once, states_are_told};
pub use attempt_laws::calls_go_on;
pub use call_laws::calls_are_made;
pub use check_laws::users_are_checked;
pub use poll_laws::{answered_polls_are_played, keeps_poll_laws, services_tell_polls};
pub use script_laws::scripts_are_played;
pub use stack_laws::scripts_are_entered;
pub use start_laws::starts_as_declared;
pub use visit_laws::publishes_visit_their_observers;
