/// The most queues of a scenario. Each has a worker, which is one of its players.
pub const MOST_QUEUES: usize = 8;

/// The most work items.
pub const MOST_ITEMS: usize = 256;

/// The most semaphores.
pub const MOST_SEMS: usize = 32;

/// The most message queues.
pub const MOST_MSGQS: usize = 16;

/// The most signals.
pub const MOST_SIGNALS: usize = 32;

/// The most observers, subscribers and listeners together.
pub const MOST_OBSERVERS: usize = 32;

/// The most channels.
pub const MOST_CHANS: usize = 16;

/// The most calls in all scripts.
pub const MOST_CALLS: u32 = 4096;

/// The longest text of a scenario, in bytes.
pub const LONGEST_SCENARIO: usize = 1_048_576;
