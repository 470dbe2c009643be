ghost use Rattle.std.specs.Prelude.{◌≡◌};
ghost use Rattle.zk_model_work.specs.Questions.{busy_flags};
ghost use Rattle.zk_queue.specs.Words.{has_flag};

use bitflags::Flags;
use zk_model_work::{BusyFlags, united};

/// The word of an item with these marks in place of its own: cancelling, delayed and flushing.
pub fn marked(word: BusyFlags, bits: BusyFlags) -> BusyFlags
    ensures { result.0 ≡ busy_flags (has_flag word.0 1) (has_flag bits.0 2) (has_flag word.0 4)
        (has_flag bits.0 8) (has_flag bits.0 16) }
{
    united(
        word.contains(BusyFlags::RUNNING),
        bits.contains(BusyFlags::CANCELING),
        word.contains(BusyFlags::QUEUED),
        bits.contains(BusyFlags::DELAYED),
        bits.contains(BusyFlags::FLUSHING),
    )
}
