//! The services of a scenario in cells, the signals without one, and a player's passes of them all: how both are made, the
//! attempts of one player, and how passes are put together and the services taken out again.
#![tactic(auto)]

mod at_cells;
mod cells;
mod dealing;
mod desk;
mod emptying;
mod hints;
mod items;
mod joining;
mod notes;
mod opening;
mod passes;
mod playing;
mod quick;
mod signals;

pub use cells::Cells;
pub use dealing::{Undealt, deal_passes};
pub use desk::Desk;
pub use emptying::empty_cells;
pub use hints::has_news_of;
pub use joining::join_passes;
pub use opening::open_cells;
pub use passes::Passes;
pub use quick::{is_quick, quick_attempt};
