//! The writes of a closed signal, in the order of their stamps.
ghost use Rattle.std.specs.Prelude.{◌≡◌, ℕ, length, map};
ghost use Rattle.std.specs.List.Sorted.{IsPermutation};
ghost use Rattle.zk_signal.specs.Counts.{EachOnceTo, CountsFrom};

use zk_base::Seen;

/// What has a stamp: a write, in whatever form its player keeps it.
pub trait HasStamp {
    /// Its stamp.
    ghost stamp_of: { Self → ℕ };

    /// Its stamp.
    fn stamp(&self) -> u32
        ensures { result ≡ stamp_of self.now };
}

impl HasStamp for Seen {
    ghost stamp_of = { λ seen. seen.stamp };

    fn stamp(&self) -> u32 {
        self.stamp
    }
}

/// Puts all writes of a closed signal in the order of their stamps. It takes no memory.
pub fn in_stamp_order<W: HasStamp>(writes: &mut [W])
    requires stamps { EachOnceTo (length writes.old) (map W.stamp_of writes.old) }
    ensures same { IsPermutation writes.old writes.new }
    ensures order { CountsFrom 0 (map W.stamp_of writes.new) }
{
    writes.sort_unstable_by_key(|write| write.stamp());
}
