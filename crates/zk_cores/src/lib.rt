//! A scenario on several cores: its callers in a pool, out of which each core takes one for some steps and keeps it while it waits,
//! and what is left played on by one thread until no player can go on.
#![tactic(auto)]

mod barrier;
mod cores;
mod finish;
mod round;
mod run;
mod seat;
mod seating;

pub use run::{MOST_CORES, play};
