ghost use Rattle.std.specs.Prelude.{⊤, ◌≡◌, [], ◌∷◌, codes};
ghost use Rattle.zk_model_work.specs.Questions.{weight, busy_flags};
ghost use Rattle.zk_model_work.specs.Answers.{flags};

use crate::Item;
use bitflags::{Flag, Flags, bitflag_items};

/// What an item is busy with.
#[derive(Clone, Copy, Debug, PartialEq, Eq)]
pub struct BusyFlags(u8);

bitflag_items! {
    impl BusyFlags: u8 {
        const RUNNING = 1;
        const CANCELING = 2;
        const QUEUED = 4;
        const DELAYED = 8;
        const FLUSHING = 16;
    }
}

impl Flags for BusyFlags {
    type Bits = u8;

    ghost exact = { ⊤ };

    ghost table = { (codes "RUNNING", 1) ∷ (codes "CANCELING", 2) ∷ (codes "QUEUED", 4)
        ∷ (codes "DELAYED", 8) ∷ (codes "FLUSHING", 16) ∷ [] };

    ghost set_of = { λ f. f.0 };

    fn flags<'a>() -> &'a [Flag<BusyFlags>] {
        BusyFlags::FLAGS
    }

    fn bits(&self) -> u8 {
        self.0
    }

    fn from_bits_retain(bits: u8) -> BusyFlags {
        BusyFlags(bits)
    }
}

/// The flag, where it is set.
fn where_set(flag: BusyFlags, is_set: bool) -> BusyFlags
    ensures { result.0 ≡ weight flag.0 is_set }
{
    if is_set { flag } else { BusyFlags::empty() }
}

/// The flags that are set.
pub fn united(
    running: bool,
    cancelling: bool,
    queued: bool,
    delayed: bool,
    flushing: bool,
) -> BusyFlags
    ensures { result.0 ≡ busy_flags running cancelling queued delayed flushing }
{
    where_set(BusyFlags::RUNNING, running)
        .union(where_set(BusyFlags::CANCELING, cancelling))
        .union(where_set(BusyFlags::QUEUED, queued))
        .union(where_set(BusyFlags::DELAYED, delayed))
        .union(where_set(BusyFlags::FLUSHING, flushing))
}

/// The busy flags of an item, which is armed and being flushed or isn't. Zephyr's `k_work_busy_get`.
pub fn flags(item: Item, armed: bool, flushing: bool) -> BusyFlags
    ensures { result.0 ≡ flags item armed flushing }
{
    united(item.running, item.cancelling, item.queued, armed, flushing)
}
