//! A run as a value in JSON: its players, steps, bars, arrows and answers, and what is told of how it ended.
#![tactic(auto)]

mod answers;
mod array;
mod chart;
mod escape;
mod names;
mod told;
mod value;

pub use escape::texts_stay_texts;
pub use value::put_json;
