/// An item that is armed, and when it expires.
#[derive(Clone, Copy, PartialEq, Eq)]
pub struct Timeout {
    /// The item that is armed.
    pub item: u32,
    /// The queue that the item is to be submitted to.
    pub queue: u32,
    /// The moment at which it expires, in ticks since the start.
    pub deadline: u64,
}
