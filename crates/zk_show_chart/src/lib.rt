//! A run as a chart: its steps in one order, and what goes on between them.
#![tactic(auto)]

mod admissions;
mod answers;
mod arrows;
mod bars;
mod chart;
mod lane;
mod lines;
mod making;
mod marks;
mod polls;
mod raises;
mod rows;
mod ticks;
mod waits;

pub use answers::{answer_in, has_died, has_failed};
pub use arrows::arrows_of;
pub use bars::bars_of;
pub use chart::{Arrow, ArrowKind, Bar, BarKind, Chart, Row, Tick};
pub use making::chart_of;
pub use ticks::ticks_of;
