/// An item that is armed, as the list keeps it.
#[derive(Clone, Copy, PartialEq, Eq)]
pub struct Arm {
    /// The item that is armed.
    pub item: u32,
    /// The queue that the item is to be submitted to.
    pub queue: u32,
    /// The ticks from the deadline of the arm that expires before it; of the first one, from the start.
    pub delta: u64,
}
