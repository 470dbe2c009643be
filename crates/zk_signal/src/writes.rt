ghost use Rattle.std.specs.Prelude.{◌≡◌, ◌<◌, false};
ghost use Rattle.zk_signal.specs.Counts.{Rises};
ghost use Rattle.zk_signal.specs.Passes.{IsPassOf, Wrote, pass_room, pass_stamps, pass_top};
ghost use Rattle.zk_signal.specs.Words.{raised_at, clear_at, written};

use crate::pass::SigPass;
use crate::rule::{Draw, Settle};
use crate::signal::{COUNTER, SharedSignal, WORD};
use crate::words::word_of;
use zk_base::Seen;

impl SharedSignal {
    /// Raises the signal with a result, and answers the stamp of this write. Zephyr's `k_poll_signal_raise`.
    pub fn raise(&self, pass: &mut SigPass, value: u16) -> u32
        requires own { IsPassOf self.now pass.old }
        requires room { 0 < pass_room pass.old }
        ensures own { IsPassOf self.now pass.new }

        // The stamp is above all that the pass had written or read, so its stamps rise.
        ensures above { pass_top pass.old < result }
        ensures wrote { Wrote pass.old pass.new (raised_at result value) }
        ensures rise { Rises (pass_stamps pass.old) → Rises (pass_stamps pass.new) }
    {
        self.write(pass, true, value)
    }

    /// Clears the signal, and answers the stamp of this write. Zephyr's `k_poll_signal_reset`.
    pub fn clear(&self, pass: &mut SigPass) -> u32
        requires own { IsPassOf self.now pass.old }
        requires room { 0 < pass_room pass.old }
        ensures own { IsPassOf self.now pass.new }

        // The stamp is above all that the pass had written or read, so its stamps rise.
        ensures above { pass_top pass.old < result }
        ensures wrote { Wrote pass.old pass.new (clear_at result) }
        ensures rise { Rises (pass_stamps pass.old) → Rises (pass_stamps pass.new) }
    {
        self.write(pass, false, 0)
    }

    // Draws the next stamp, and settles the write of this stamp: the greater of its word and the shared one stays.
    fn write(&self, pass: &mut SigPass, raised: bool, value: u16) -> u32
        requires own { IsPassOf self.now pass.old }
        requires room { 0 < pass_room pass.old }
        requires tidy { raised ≡ false → value ≡ 0 }
        ensures own { IsPassOf self.now pass.new }
        ensures above { pass_top pass.old < result }
        ensures wrote { Wrote pass.old pass.new (written raised value result) }
        ensures rise { Rises (pass_stamps pass.old) → Rises (pass_stamps pass.new) }
    {
        let drawn = self
            .table
            .shared
            .fetch_add::<Draw>(&mut pass.seat, COUNTER, 1);
        let stamp = (drawn + 1) as u32;
        let word = word_of(&Seen {
            raised,
            result: value,
            stamp,
        });
        prove!(word < 1 << 40);
        self.table
            .shared
            .fetch_max::<Settle>(&mut pass.seat, WORD, word);
        pass.room -= 1;
        stamp
    }
}
