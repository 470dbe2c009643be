//! A chart of a run as lines of text.
#![tactic(auto)]

mod header;
mod laws;
mod layout;
mod line;
mod marks;
mod names;
mod rows;
mod text;
mod words;

pub use laws::rows_fit;
pub use text::put_text;
