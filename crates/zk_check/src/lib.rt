//! Whether a trace is lawful for its scenario, and if it isn't, at which line of the text and why.
#![tactic(auto)]

mod laws;
mod verdict;

pub use laws::rows_rise;
pub use verdict::{Checked, check};
pub use zk_failures::{Fail, Site, is_its_line};
