//! The kernel that threads share: each service of a scenario in a cell, the signals without one, and a caller for each player.
#![tactic(auto)]

mod caller;
mod calling;
mod close;
mod dealing;
mod hints;
mod kernel;
mod news;
mod opening;
mod quick;
mod rest;
mod stop;

pub use caller::Caller;
pub use kernel::Kernel;
pub use rest::Rest;
pub use stop::Stop;
pub use zk_cells::is_quick;
