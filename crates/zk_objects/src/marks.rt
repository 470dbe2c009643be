ghost use Rattle.std.specs.Prelude.{◌≡◌, ℕ, ◌==◌, ◌||◌, ◌+◌, ◌≤◌, [], IsOk, IfOk, OnErr};
ghost use Rattle.std.specs.List.{list_any};
ghost use Rattle.zk_objects.specs.Players.{is_marked};

use std::alloc::Global;
use std::marker::Model;
use zk_base::{MOST_PLAYERS, NoMemory};
use zk_player_set::PlayerSet;

/// The players that are marked, of any number: the set of those that a scenario can have, and a list of any above them.
#[derive(Drop)]
pub struct Marks {
    within: PlayerSet,
    above: Vec<u32>,
}

impl Model for Marks {
    ghost use Rattle.std.specs.Prelude.{◌-◌, vec_len, vec_capacity};
    ghost use Rattle.zk_objects.specs.Players.{Marked};

    ghost Value = { Marked };

    ghost view = { λ m. record {
      within = m.within;
      above = m.above.items;
      room = vec_capacity m.above - vec_len m.above;
    } };
}

impl Marks {
    /// The players of a set.
    pub fn new(alloc: Global, players: PlayerSet) -> Marks
        ensures within { result.within ≡ players }
        ensures above { result.above ≡ [] }
    {
        Marks {
            within: players,
            above: Vec::new(alloc),
        }
    }

    /// The player is one of those above the set.
    fn is_above(&self, player: u32) -> bool
        ensures { result ≡ list_any (λ other. other == player) self.now.above }
    {
        self.above.iter().any(|other| *other == player)
    }

    /// The player is one of them.
    pub fn has(&self, player: u32) -> bool
        ensures { result ≡ is_marked self.now player }
    {
        self.within.contains(player) || self.is_above(player)
    }

    /// Marks one player more. Those that a scenario can have take no memory.
    pub fn insert(&mut self, player: u32) -> Result<(), NoMemory>
        ensures added { IfOk result (λ _.
            (other : ℕ) → is_marked self.new other ≡ (is_marked self.old other || player == other)) }
        ensures same { OnErr result ((other : ℕ) → is_marked self.new other ≡ is_marked self.old other) }
        ensures roomy { 1 ≤ self.old.room → IsOk result }
        ensures room { self.old.room ≤ self.new.room + 1 }
        ensures kept { OnErr result (self.old.room ≤ self.new.room) }
    {
        if player < MOST_PLAYERS {
            self.within.insert(player);
        } else {
            self.above.push(player)?;
        }
        Ok(())
    }

    /// Makes room for so many.
    pub fn reserve(&mut self, more: usize) -> Result<(), NoMemory>
        ensures room { IfOk result (λ _. more ≤ self.new.room) }
        ensures more { self.old.room ≤ self.new.room }
        ensures same { (other : ℕ) → is_marked self.new other ≡ is_marked self.old other }
    {
        self.above.reserve(more)?;
        Ok(())
    }

    /// How many more it takes without memory.
    pub fn room(&self) -> u64
        ensures { result ≡ self.now.room }
    {
        (self.above.capacity() - self.above.len()) as u64
    }
}
