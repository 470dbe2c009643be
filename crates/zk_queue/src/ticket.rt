/// An admission that waits or runs.
#[derive(Clone, Copy)]
pub struct Ticket {
    /// The item that was admitted.
    pub item: u32,
    /// The number of the admission.
    pub number: u64,
}
