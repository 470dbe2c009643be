use zk_base::Listed;
use zk_line::Call;

/// The calls that an object makes, in order: those of a thread, of an item's handler, or of a listener.
#[derive(Drop)]
pub struct Script {
    /// The object number of whoever plays the script.
    pub owner: u32,
    /// The calls, first to last.
    pub calls: Listed<Call>,
}
