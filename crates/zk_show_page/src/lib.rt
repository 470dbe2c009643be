//! A run as a page: one file that any browser opens, and that asks for nothing in the network.
#![tactic(auto)]

mod head;
mod page;
mod script;

pub use page::put_page;
