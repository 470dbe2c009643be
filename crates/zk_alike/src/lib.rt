//! Whether a service answers an entry as it was answered before.
#![tactic(auto)]

mod again;
mod alike;

pub use again::answers;
pub use alike::Alike;
