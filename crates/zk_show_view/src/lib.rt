//! The top call of the program `zk_show`: a run as a chart or in sentences, over any source and sink.
#![tactic(auto)]

mod answers;
mod show;
mod verdict;
mod view;

pub use show::zk_show;
pub use view::View;
