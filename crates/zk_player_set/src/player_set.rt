ghost use Rattle.std.specs.Prelude.{◌≡◌, ℕ, ◌+◌, ◌/◌, ◌<◌, ◌≤◌, true, false, not, ◌==◌, ◌&&◌, ◌||◌, nat_lt};
ghost use Rattle.zk_base.specs.Limits.{most_players};
ghost use Rattle.zk_player_set.specs.Players.{word_bits, has};

use crate::bits::{WORD_BITS, has_bit, ones_from, with_bit, without_bit, without_bits, zeros_from};
use zk_base::MOST_PLAYERS;

/// The words of a set of players: so many that each player of a scenario has a bit.
const PLAYER_WORDS: usize = ((MOST_PLAYERS - 1) / WORD_BITS + 1) as usize;

/// A set of players that a scenario can have: the player p is bit p % 64 of word p / 64.
#[derive(Clone, Copy)]
pub struct PlayerSet {
    words: [u64; PLAYER_WORDS],
}

impl PlayerSet {
    /// No player.
    pub fn none() -> PlayerSet
        ensures { (player : ℕ) → has result player ≡ false }
    {
        PlayerSet {
            words: [0; PLAYER_WORDS],
        }
    }

    /// The player is one of them.
    pub fn contains(&self, player: u32) -> bool
        ensures { result ≡ has self.now player }
    {
        if player < MOST_PLAYERS {
            let word = self.words[(player / WORD_BITS) as usize];
            has_bit(word, player % WORD_BITS)
        } else {
            false
        }
    }

    /// How many players follow each other in the set, from this one on. It counts no further than the word of 64 players in
    /// which this one is.
    #[inline(always)]
    pub fn consecutive_from(&self, player: u32) -> u32
        requires { player < most_players }
        ensures all { (other : ℕ) → player ≤ other → other < player + result → has self.now other ≡ true }
        ensures end { (player + result) / word_bits ≡ player / word_bits → has self.now (player + result) ≡ false }
    {
        let word = self.words[(player / WORD_BITS) as usize];
        ones_from(word, player % WORD_BITS)
    }

    /// How many players follow each other that aren't in the set, from this one on. It counts no further than the word of 64
    /// players in which this one is.
    #[inline(always)]
    pub fn absent_from(&self, player: u32) -> u32
        requires { player < most_players }
        ensures all { (other : ℕ) → player ≤ other → other < player + result → has self.now other ≡ false }
        ensures end { (player + result) / word_bits ≡ player / word_bits → has self.now (player + result) ≡ true }
        ensures few { result ≤ word_bits }
    {
        let word = self.words[(player / WORD_BITS) as usize];
        zeros_from(word, player % WORD_BITS)
    }

    /// Takes one player more. One that a scenario can't have isn't taken.
    pub fn insert(&mut self, player: u32)
        ensures { (other : ℕ) →
            has self.new other ≡ (has self.old other || (player == other && nat_lt player most_players)) }
    {
        if player < MOST_PLAYERS {
            let at = (player / WORD_BITS) as usize;
            self.words[at] = with_bit(self.words[at], player % WORD_BITS);
        }
    }

    /// Takes one player out.
    pub fn remove(&mut self, player: u32)
        ensures { (other : ℕ) → has self.new other ≡ (has self.old other && not (player == other)) }
    {
        if player < MOST_PLAYERS {
            let at = (player / WORD_BITS) as usize;
            self.words[at] = without_bit(self.words[at], player % WORD_BITS);
        }
    }

    /// The same players without those of another set.
    #[inline(always)]
    pub fn without(&self, others: &PlayerSet) -> PlayerSet
        ensures { (player : ℕ) → has result player ≡ (has self.now player && not (has others.now player)) }
    {
        let mut words = self.words;
        for at in 0..PLAYER_WORDS {
            words[at] = without_bits(words[at], others.words[at]);
        }
        PlayerSet { words }
    }
}
