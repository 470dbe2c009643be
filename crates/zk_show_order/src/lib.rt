//! The steps of a trace in one order that each service's history and each player's steps agree with.
#![tactic(auto)]

mod drawing;
mod lanes;
mod order;
mod services;

pub use order::order_of;
pub use services::service_number;
