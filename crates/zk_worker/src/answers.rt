ghost use Rattle.std.specs.Prelude.{◌≡◌, ◌++◌, [], ◌∷◌, length, OnOk, OnErr, slice_get};

use crate::Positions;
use crate::answer_rows::AnswerRows;
use std::alloc::Global;
use std::marker::Model;
use zk_base::{Errno, Msg, NoMemory};
use zk_model_bus::OopsWhy;
use zk_words::Word;

/// What a call of a script is answered.
#[derive(Clone, Copy, Debug, PartialEq, Eq)]
pub enum Answer {
    /// A number. Of a submission 0 where the item was queued already, 1 where it was admitted, and 2 where it was admitted
    /// while it runs. Of a delayed submission the same, and 1 where the item is delayed. Of a drain 0 where it didn't have to
    /// wait, and 1 where it did. Of a question for the rest of a delay so many ticks. Of a question for a semaphore's count,
    /// or for how many messages a queue has or has room for, that number. Of a write to a signal 0, and of a call of zbus
    /// or of the object table that is done.
    Number(u64),
    /// The busy flags of an item, below 32.
    Flags(u8),
    /// A truth value. Of a sync cancel whether the item was busy, and of a flush whether it had to wait.
    Truth(bool),
    /// A refusal, with its name.
    Refused(Errno),
    /// The message that a queue gave or showed, or that was read of a channel.
    Bytes(Msg),
    /// Whether a signal is raised, and with which result. The result of one that isn't is 0.
    Signal(bool, u16),
    /// The positions of the events of a poll that are ready.
    Ready(Positions),
    /// The object number of the channel that a subscriber was told of.
    Channel(u32),
    /// A user's call failed its check for this reason, which ended its thread.
    Oops(OopsWhy),
}

/// A call that has its answer.
#[derive(Clone, Copy, Debug, PartialEq, Eq)]
pub struct Answered {
    /// The number of the call's last step among all steps of the player, from 0.
    pub step: u32,
    /// The call.
    pub word: Word,
    /// What it answered.
    pub answer: Answer,
}

/// The answered calls of a player, in the order of their answers.
#[derive(Drop)]
pub struct Answers {
    rows: AnswerRows,
}

impl Model for Answers {
    ghost use Rattle.std.specs.Prelude.{List};
    ghost use Rattle.zk_worker.specs.declared.answers.Answered.{Answered};

    ghost Value = { List Answered };

    ghost view = { λ a. a.rows.items };
}

impl Answers {
    /// None. It takes no memory.
    pub fn new(alloc: Global) -> Answers
        ensures { result ≡ [] }
    {
        Answers {
            rows: AnswerRows::new(alloc),
        }
    }

    /// Those that a player kept. It takes no memory.
    pub fn from_rows(rows: AnswerRows) -> Answers
        ensures { result ≡ rows.items }
    {
        Answers { rows }
    }

    /// How many they are.
    pub fn len(&self) -> usize
        ensures { result ≡ length self.now }
    {
        self.rows.len()
    }

    /// The answered call of this place, from 0.
    pub fn get(&self, place: usize) -> Option<Answered>
        ensures { result ≡ slice_get self.now place }
    {
        self.rows.get(place)
    }

    /// One more at the end.
    pub fn push(&mut self, answered: Answered) -> Result<(), NoMemory>
        ensures ok { OnOk result (self.new ≡ self.old ++ answered ∷ []) }
        ensures err { OnErr result (self.new ≡ self.old) }
    {
        self.rows.grow(answered)
    }
}
