/// The most ticks of a delay and of a wait, and by which the clock goes on at once.
pub const MOST_TICKS: u32 = 1_000_000;

/// The most that a semaphore counts to.
pub const MOST_COUNT: u32 = 1_000_000;

/// The greatest result that a signal is raised with: it has 16 bits.
pub const GREATEST_RESULT: u32 = 65_535;

/// The greatest priority.
pub const GREATEST_PRIORITY: u64 = 15;

/// The least priority, without its minus.
pub const LEAST_PRIORITY: u64 = 16;
