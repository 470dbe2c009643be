/// The greatest number of an item. The least is 0.
pub const GREATEST_ITEM: u32 = 255;

/// The greatest number of a queue. The least is 0.
pub const GREATEST_QUEUE: u32 = 7;

/// The greatest number of an event. The least is 0.
pub const GREATEST_EVENT: u32 = 63;

/// The most ticks that one operation names. The fewest are 1.
pub const MOST_TICKS: u32 = 1_000_000;
