ghost use Rattle.std.specs.Prelude.{◌≡◌, ℕ, ◌+◌, ◌<◌, ◌≤◌, Bool, true, false, List, length, Option, None, IsOk, IfOk, OnErr};
ghost use Rattle.zk_base.specs.declared.ids.Who.{Who};
ghost use Rattle.zk_base.specs.declared.ids.Entry.{Entry};
ghost use Rattle.zk_base.specs.History.{extended, AddsNone, IsAbove};
ghost use Rattle.zk_base.specs.Legal.{Machine, state_after, IsLegal};
ghost use Rattle.zk_base.specs.Limits.{most_entries};
ghost use Rattle.zk_base.specs.Touched.{LeavesOthers};

use crate::{Entry, NoMemory, Who};

/// An object of the kernel with its history, which its machine lets stand at every moment.
pub trait Service: Drop {
    /// What can be asked of it.
    type Op;

    /// What it answers.
    type Reply;

    /// The state of its machine, which contracts see as the machine's definition has it.
    type State;

    /// The machine that the history is of.
    ghost machine: { Machine Self.State Self.Op Self.Reply };

    /// The state that the machine starts in. No call changes it.
    ghost start: { Self → Self.State };

    /// What was done, oldest first.
    ghost history: { Self → List (Entry Self.Op Self.Reply) };

    /// How many entries fit beside the owed ones.
    ghost room: { Self → ℕ };

    /// Whether an operation gives an owed entry in a state, and so takes no memory.
    ghost closes: { Self.State → Who → Self.Op → Bool };

    /// Whether an operation may take memory at any room.
    ghost grows: { Self.Op → Bool };

    /// The word of an index that is published for looks, in a state.
    ghost word: { Self.State → ℕ → ℕ };

    ghost WORDS: { ℕ };

    /// How many words are published for looks: those of the indices below it.
    const WORDS: u32;

    /// The indices of the words that the last `act` may have changed.
    ghost touched: { Self → List ℕ };

    /// Makes one entry, or says that the machine doesn't let it stand.
    ///
    /// The step is the number of this step among all steps of the player, at whatever service.
    fn act(&mut self, who: Who, step: u32, op: Self::Op) -> Result<Option<Self::Reply>, NoMemory>
        requires later { IsAbove (history self.old) who.number step }
        requires range { machine.in_range (start self.old) op ≡ true }
        requires short { length (history self.old) < most_entries }

        // The machine's answer, and one entry just where there is one.
        ensures reply { IfOk result (λ reply.
            reply ≡ machine.reply_of (state_after machine (start self.old) (history self.old)) who op) }
        ensures entry { IfOk result (λ reply.
            history self.new ≡ extended (history self.old) who step op reply) }
        ensures err { OnErr result (history self.new ≡ history self.old) }
        ensures start { start self.new ≡ start self.old }
        ensures touched { LeavesOthers WORDS (touched self.new)
            (word (state_after machine (start self.old) (history self.old)))
            (word (state_after machine (start self.new) (history self.new))) }

        // Memory: a closing operation takes none, and no other but a growing one takes any where there is room for 3.
        ensures closing { closes (state_after machine (start self.old) (history self.old)) who op ≡ true → IsOk result }
        ensures roomy { 3 ≤ room self.old → grows op ≡ false → IsOk result }
        // The room falls only with an entry, and by at most 3.
        ensures room { room self.old ≤ room self.new + 3 }
        ensures kept { AddsNone result → room self.old ≤ room self.new };

    /// Whether it is plain that the machine doesn't let this operation stand now, so that asking would be in vain. It
    /// may say no where it would be.
    fn is_futile(&self, who: Who, op: &Self::Op) -> bool
        ensures { result ≡ true →
            machine.reply_of (state_after machine (start self.now) (history self.now)) who op.now ≡ None };

    /// Makes room for three entries, beside the owed ones.
    fn reserve(&mut self) -> Result<(), NoMemory>
        ensures room { IfOk result (λ _. 3 ≤ room self.new) }
        ensures more { room self.old ≤ room self.new }
        ensures history { history self.new ≡ history self.old }
        ensures start { start self.new ≡ start self.old };

    /// The word of this index, which is published for looks: a function of the history, 0 at an index that has none.
    fn word(&self, index: u32) -> u32
        ensures word { result ≡ word (state_after machine (start self.now) (history self.now)) index }
        ensures small { index < WORDS → result < 65536 };

    /// The indices of the words that the last `act` may have changed: each other word is as it was before it.
    fn touched(&self) -> &[u32]
        ensures { result.now ≡ touched self.now };

    /// How many entries fit beside the owed ones.
    fn room(&self) -> u64
        ensures { result ≡ room self.now };

    /// All entries so far, oldest first.
    fn history(&self) -> &[Entry<Self::Op, Self::Reply>]
        ensures history { result.now ≡ history self.now }
        ensures legal { IsLegal machine (start self.now) (history self.now) };

    /// All entries so far, without taking memory.
    fn into_history(self) -> Vec<Entry<Self::Op, Self::Reply>>
        ensures history { result.items ≡ history self }
        ensures legal { IsLegal machine (start self) (history self) };
}
