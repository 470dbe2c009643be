ghost use Rattle.std.specs.Prelude.{◌≡◌, ◌≤◌, false};
ghost use Rattle.zk_signal.specs.Passes.{IsPassOf, Looked, pass_top};

use crate::pass::SigPass;
use crate::rule::Look;
use crate::signal::{SharedSignal, WORD};
use crate::words::{is_raised_in, seen_in};
use zk_base::Seen;

impl SharedSignal {
    /// What the newest write that has settled left, with its stamp. Zephyr's `k_poll_signal_check`.
    ///
    /// It takes no room of the pass, so a waiting caller may look as often as it likes.
    pub fn look(&self, pass: &mut SigPass) -> Seen
        requires own { IsPassOf self.now pass.old }
        ensures own { IsPassOf self.now pass.new }

        // It is no older than all that the pass had written or read.
        ensures not_older { pass_top pass.old ≤ result.stamp }
        ensures looked { Looked pass.old pass.new result }
        ensures clear { result.raised ≡ false → result.result ≡ 0 }
    {
        let word = self.table.shared.load::<Look>(&mut pass.seat, WORD);
        seen_in(word)
    }

    /// Whether the newest write that has settled was a raise, by one load and without a pass.
    ///
    /// It is a hint, for whoever wants to know whether a look is worth its while: another write may come at any moment.
    pub fn is_raised(&self) -> bool {
        is_raised_in(self.table.shared.peek(WORD))
    }
}
