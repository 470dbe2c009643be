//! Published words: how one is put together and taken apart.
ghost use Rattle.std.specs.Prelude.{◌≡◌, ◌+◌, ◌<◌, ◌≤◌, ◌^◌, max};
ghost use Rattle.zk_turn.specs.Words.{position_of, after_of, before_of};

/// What a look has found: the word of its index, after so many entries of the history.
#[derive(Clone, Copy, PartialEq, Eq)]
pub struct Look {
    pub word: u32,
    pub at: u64,
}

// The value that a word has from its position on.
pub(crate) fn value_after(word: u64) -> u32
    ensures value { result ≡ after_of word }
    ensures small { result < 65536 }
{
    (word / 65_536 % 65_536) as u32
}

// The value that it had before.
pub(crate) fn value_before(word: u64) -> u32
    ensures value { result ≡ before_of word }
    ensures small { result < 65536 }
{
    (word % 65_536) as u32
}

// The word that has this value from this position on, and had another one before.
pub(crate) fn pack(position: u64, after: u32, before: u32) -> u64
    requires position { position < 2 ^ 32 }
    requires after { after < 65536 }
    requires before { before < 65536 }
    ensures position { position_of result ≡ position }
    ensures after { after_of result ≡ after }
    ensures before { before_of result ≡ before }
{
    position * 4_294_967_296 + (after as u64 * 65_536 + before as u64)
}

// What a word says that was loaded before the count was, to a pass that has seen so many entries.
pub(crate) fn look_at(word: u64, count: u64, front: u64) -> Look
    ensures settled { position_of word ≤ count → (result.at ≡ max (position_of word) front) × (result.word ≡ after_of word) }
    ensures flying { count < position_of word → (result.at ≡ count) × (result.word ≡ before_of word) }
    ensures small { result.word < 65536 }
{
    let position = word / 4_294_967_296;
    if position <= count {
        Look {
            word: value_after(word),
            at: position.max(front),
        }
    } else {
        Look {
            word: value_before(word),
            at: count,
        }
    }
}
