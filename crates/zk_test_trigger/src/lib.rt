//! Tests of triggers beside their plain machine, and of the pump; and both services in cells with a pump, for these tests and
//! for a bench.
#![tactic(auto)]

mod both;
#[cfg(test)]
mod draws;
#[cfg(test)]
mod pump_tests;
#[cfg(test)]
mod random_tests;
mod ranges;

pub use both::{Both, ask, open_both, pumped};
