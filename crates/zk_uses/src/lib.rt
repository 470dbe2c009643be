//! What threads share, used as a caller would use it: services in cells, signals and pools. Each caller is proved; `zk_test_uses`
//! runs them.
#![tactic(auto)]

mod ball;
mod clock_shared;
mod juggling;
mod looked_at;
mod looking;
mod often;
mod raising;
mod taking;
mod work_shared;

pub use ball::{Ball, balls};
pub use clock_shared::ticked_by_two;
pub use juggling::{Juggled, juggle, juggled_by_four, juggled_by_two};
pub use looked_at::{looked_at_by_two, looked_at_meanwhile, submitted_and_cancelled_by_two};
pub use looking::{Looker, closed_after_looks, look_often};
pub use often::{Caller, call_in_turn, call_often};
pub use raising::{Raised, Raiser, all_in_order, raise_often, raised_by_two};
pub use taking::{four_callers, last_caller, two_callers};
pub use work_shared::{submitted_by_four, submitted_by_two};
