/// The longest side script, in bytes.
pub const LONGEST_SIDE_SCRIPT: usize = 1_048_576;

/// The most lines of a side script, its first included.
pub const MOST_LINES: u32 = 20_000;

/// The greatest number of a player. The least is 0.
pub const GREATEST_PLAYER: u32 = 63;
