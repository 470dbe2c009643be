use thiserror::Error;

/// Why a call was left before it had its answer. Its steps so far stay, and its caller makes no further call.
#[derive(Clone, Copy, Debug, PartialEq, Eq, Error)]
pub enum Stop {
    /// The memory for a step wasn't found.
    #[error("no memory")]
    NoMemory,
    /// The player has made all the steps that it may make.
    #[error("spent")]
    Spent,
}
