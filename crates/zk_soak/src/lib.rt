//! The scenario of `soak`, of any number: twelve threads that make 300 drawn calls each.
#![tactic(auto)]

mod draws;
mod text;

pub use text::generate;
