//! Tests alone, of message subscribers: what a push and a take answer, who is listed, and publishers on threads while subscribers
//! come and go.
#![tactic(auto)]

#[cfg(test)]
mod fan_tests;
mod parts;
mod playing;
#[cfg(test)]
mod queue_tests;
mod seats;
#[cfg(test)]
mod thread_tests;

pub use parts::{Part, ROUNDS, Shared, play_each};
pub use playing::{Outcome, play_two};
pub use seats::{message_of, one_seat, two_seats};
