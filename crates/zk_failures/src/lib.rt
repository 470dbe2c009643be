//! Where a trace that isn't lawful for its scenario first fails, and why.
#![tactic(auto)]

mod ending;
mod found;
mod history;
mod item_looks;
mod lines;
mod log;
mod look_order;
mod looks;
mod own;
mod part;
mod place;
mod reason;
mod same;
mod site;
mod unlike;

pub use lines::{is_its_line, line_at};
pub use reason::failure;
pub use site::{Fail, Site};
