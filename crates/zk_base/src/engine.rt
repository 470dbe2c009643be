ghost use Rattle.std.specs.Prelude.{◌≡◌, ℕ, ◌+◌, ◌<◌, ◌≤◌, Bool, true, false, List, None, IsOk, IfOk};
ghost use Rattle.zk_base.specs.declared.ids.Who.{Who};
ghost use Rattle.zk_base.specs.History.{AddsNone};
ghost use Rattle.zk_base.specs.Legal.{Machine};
ghost use Rattle.zk_base.specs.Limits.{most_entries};
ghost use Rattle.zk_base.specs.Recording.{CountsEntries, Steps};
ghost use Rattle.zk_base.specs.Touched.{LeavesOthers};

use crate::{NoMemory, Who};

/// What a service computes and keeps, apart from its history.
pub trait Engine: Drop {
    type Op: Drop;

    type Reply: Drop;

    type State: Drop;

    /// It stands for this state of the machine, which may say more than is kept.
    ghost stands_for: { Self → Self.State → Type 0 };

    /// How many changes it takes without memory.
    ghost room: { Self → ℕ };

    /// Its machine.
    ghost machine: { Machine Self.State Self.Op Self.Reply };

    /// How many entries were made.
    ghost entries: { Self.State → ℕ };

    /// How many entries are owed in a state: those of the closing operations that are still to come.
    ghost owed: { Self.State → ℕ };

    /// Whether an operation gives an owed entry in a state.
    ghost closes: { Self.State → Who → Self.Op → Bool };

    /// Whether an operation may take memory at any room.
    ghost grows: { Self.Op → Bool };

    /// The word of an index that is published for looks, in a state.
    ghost word: { Self.State → ℕ → ℕ };

    ghost WORDS: { ℕ };

    /// How many words are published for looks: those of the indices below it.
    const WORDS: u32;

    /// The indices of the words that the last operation may have changed.
    ghost touched: { Self → List ℕ };

    /// One operation. The reply comes twice, since one of them is kept in the history.
    fn step(
        &mut self,
        who: Who,
        op: &Self::Op,
    ) -> Result<Option<(Self::Reply, Self::Reply)>, NoMemory>
        requires ready { (s : Self.State) × stands_for self.old s
            × (machine.in_range s op.now ≡ true) × (entries s < most_entries) }
        ensures step { (s : Self.State) → stands_for self.old s → Steps machine s who op.now result (stands_for self.new) }
        ensures touched { (s after : Self.State) → stands_for self.old s → stands_for self.new after →
            LeavesOthers WORDS (touched self.new) (word s) (word after) }
        ensures closing { (s : Self.State) → stands_for self.old s → closes s who op.now ≡ true → IsOk result }
        ensures roomy { 3 ≤ room self.old → grows op.now ≡ false → IsOk result }
        ensures room { room self.old ≤ room self.new + 3 }
        ensures kept { AddsNone result → room self.old ≤ room self.new };

    /// Whether this operation gives an owed entry now.
    fn is_closing(&self, who: Who, op: &Self::Op) -> bool
        ensures { (s : Self.State) → stands_for self.now s → result ≡ closes s who op.now };

    /// Whether it is plain that this operation isn't possible now. It may say no where it isn't.
    fn is_futile(&self, who: Who, op: &Self::Op) -> bool
        ensures { (s : Self.State) → stands_for self.now s → result ≡ true →
            machine.reply_of s who op.now ≡ None };

    /// How many entries are owed now.
    fn owed(&self) -> u64
        ensures { (s : Self.State) → stands_for self.now s → result ≡ owed s };

    /// The word of this index, now.
    fn word(&self, index: u32) -> u32
        ensures word { (s : Self.State) → stands_for self.now s → result ≡ word s index }
        ensures small { index < WORDS → result < 65536 };

    /// The indices of the words that the last operation may have changed: each other word is as it was before it.
    fn touched(&self) -> &[u32]
        ensures { result.now ≡ touched self.now };

    /// Makes room for three changes.
    fn reserve(&mut self) -> Result<(), NoMemory>
        ensures room { IfOk result (λ _. 3 ≤ room self.new) }
        ensures more { room self.old ≤ room self.new }
        ensures same { (s : Self.State) → stands_for self.old s → stands_for self.new s };

    /// How many changes fit without memory.
    fn room(&self) -> u64
        ensures { result ≡ room self.now };

    /// How entries are counted and owed, in all states. It does nothing.
    fn counts_entries()
        ensures { CountsEntries machine entries owed closes };
}
