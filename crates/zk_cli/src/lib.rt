//! The program's top calls, over any source, any sink and any gate.
#![tactic(auto)]

mod cores;
mod top;

pub use cores::zk_run;
pub use top::zk_plain;
pub use zk_forms::{Form, needs_cores};
