ghost use Rattle.std.specs.Prelude.{◌≡◌, ℕ, ◌+◌, ◌<◌, ◌≤◌, Bool, true, None, IsOk, IfOk, OnErr};
ghost use Rattle.zk_base.specs.declared.ids.Who.{Who};
ghost use Rattle.zk_base.specs.History.{AddsNone};
ghost use Rattle.zk_base.specs.Legal.{Machine, after_reply};
ghost use Rattle.zk_base.specs.Limits.{most_entries};
ghost use Rattle.zk_base.specs.Recording.{CountsEntries};

use crate::{NoMemory, Who};

/// The state of a machine as its definition has it, with the memory that it has for more.
pub trait Store: Drop {
    type Op: Drop;

    type Reply: Copy + Drop;

    type State: Drop;

    /// The state that it keeps.
    ghost state: { Self → Self.State };

    /// How many entries it takes without memory.
    ghost room: { Self → ℕ };

    /// Its machine.
    ghost machine: { Machine Self.State Self.Op Self.Reply };

    /// How many entries were made.
    ghost entries: { Self.State → ℕ };

    /// How many entries are owed in a state: those of the closing operations that are still to come.
    ghost owed: { Self.State → ℕ };

    /// Whether an operation gives an owed entry in a state.
    ghost closes: { Self.State → Who → Self.Op → Bool };

    /// One operation: its reply and its next state.
    ///
    /// `None` says that the operation isn't possible now.
    fn next(&mut self, who: Who, op: &Self::Op) -> Result<Option<Self::Reply>, NoMemory>
        requires { entries (state self.old) < most_entries }
        ensures reply { IfOk result (λ reply. reply ≡ machine.reply_of (state self.old) who op.now) }
        ensures next { IfOk result (λ reply.
            state self.new ≡ after_reply machine (state self.old) who op.now reply) }
        ensures unchanged { OnErr result (state self.new ≡ state self.old) }

        // Memory: one place is enough, and no closing operation takes it.
        ensures memory { closes (state self.old) who op.now ≡ true → IsOk result }
        ensures roomy { 1 ≤ room self.old → IsOk result }
        ensures room { room self.old ≤ room self.new + 1 }
        ensures kept { AddsNone result → room self.old ≤ room self.new };

    /// Whether this operation gives an owed entry now.
    fn is_closing(&self, who: Who, op: &Self::Op) -> bool
        ensures { result ≡ closes (state self.now) who op.now };

    /// Whether it is plain that this operation isn't possible now. It may say no where it isn't.
    fn is_futile(&self, who: Who, op: &Self::Op) -> bool
        ensures { result ≡ true → machine.reply_of (state self.now) who op.now ≡ None };

    /// How many entries are owed now.
    fn owed(&self) -> u64
        ensures { result ≡ owed (state self.now) };

    /// Makes room for so many entries.
    fn reserve(&mut self, more: usize) -> Result<(), NoMemory>
        ensures room { IfOk result (λ _. more ≤ room self.new) }
        ensures more { room self.old ≤ room self.new }
        ensures same { state self.new ≡ state self.old };

    /// How many entries it takes without memory.
    fn room(&self) -> u64
        ensures { result ≡ room self.now };

    /// How entries are counted and owed, in all states. It does nothing.
    fn counts_entries()
        ensures { CountsEntries machine entries owed closes };
}
