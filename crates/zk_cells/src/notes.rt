ghost use Rattle.std.specs.Prelude.{◌≡◌};

use zk_base::Entry;
use zk_model_wait::{SignalOp, SignalReply};

/// A write of a caller at a signal, by the signal's object number, as the entry that the history will have of it.
#[derive(Drop)]
pub struct Note {
    pub(crate) signal: u32,
    pub(crate) entry: Entry<SignalOp, SignalReply>,
}
