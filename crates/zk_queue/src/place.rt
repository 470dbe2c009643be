/// Where the entry of an item that waits stands.
#[derive(Clone, Copy)]
pub struct Place {
    /// In which queue's ring.
    pub queue: u32,
    /// At which position there.
    pub position: u64,
}
