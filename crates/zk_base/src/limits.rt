/// The most players of a scenario: its threads, and a worker for each of its queues.
pub const MOST_PLAYERS: u32 = 256;

/// The most messages of a message queue, and the most channels in a subscriber's list.
pub const MOST_HELD: u32 = 256;
