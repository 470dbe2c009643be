//! What a long text is printed on: its last bytes stand in a row in place, so a word costs no look for memory.
#![tactic(auto)]

mod paper;
mod row;

pub use paper::Paper;
