/// What a look at a signal found: its last write, by the stamp of that write.
#[derive(Clone, Copy, Debug, PartialEq, Eq)]
pub struct Seen {
    /// Whether the signal was raised.
    pub raised: bool,
    /// The result that it was raised with, or 0.
    pub result: u16,
    /// How many writes there had been.
    pub stamp: u32,
}
