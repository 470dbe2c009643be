//! Side scripts: lines in which players ask one service, and what is printed of them.
#![tactic(auto)]

mod limits;
mod output;
mod play;
mod players;
mod refusal;
mod side;
mod slots;

pub use limits::{GREATEST_PLAYER, LONGEST_SIDE_SCRIPT, MOST_LINES};
pub use output::side_output;
pub use side::Side;
pub use slots::{are_none, few_in, number_or_none, one_of, only_exact_number, only_number_in};
