ghost use Rattle.std.specs.Prelude.{◌≡◌, ℕ, ◌+◌, ◌≤◌, [], ◌∷◌, length, IfOk, List, vec_len, vec_capacity};
ghost use Rattle.zk_signal.specs.Limits.{most_players};
ghost use Rattle.zk_signal.specs.Passes.{IsNewPass, AreNewPasses, players_in};
ghost use Rattle.zk_signal.specs.Views.{opened};

use crate::pass::SigPass;
use crate::rule::{Beginning, Deal};
use crate::signal::SharedSignal;
use crate::views::View;
use atomic_table::{Seat, Table};
use std::alloc::Global;
use zk_base::{NoMemory, push_within};

// The writes that one player may make, so that the shared word stays below 2^40.
const MOST_WRITES: u32 = 20_000;

impl SharedSignal {
    /// A signal before the first write, which isn't raised, and one pass for each player, in order.
    ///
    /// There are at most 256 players.
    pub fn new(alloc: Global, players: &[u32]) -> Result<(SharedSignal, Vec<SigPass>), NoMemory>
        requires few { length players.now ≤ most_players }
        ensures players { IfOk result (λ made. players_in made.0 ≡ players.now) }
        ensures passes { IfOk result (λ made. AreNewPasses made.0 players.now made.1.items) }
    {
        let mut passes = Vec::with_capacity(alloc, players.len())?;
        let mut copies = Vec::with_capacity(alloc, players.len())?;
        copies.extend_from_slice(players)?;
        let beginning = Beginning { players: copies };
        let (table, mut seat) = Table::of_words(alloc, &[0, 0], &beginning)?;
        let signal = SharedSignal { table };
        signal.deal_all(&mut seat, players, &mut passes);
        Ok((signal, passes))
    }

    // A pass for each player, in order.
    fn deal_all(&self, seat: &mut Seat<u64, View>, players: &[u32], passes: &mut Vec<SigPass>)
        requires table { seat.old.table_id ≡ self.now.table.shared.table_id }
        requires opened { seat.old.me ≡ (opened players.now, []) }
        requires none { passes.old.items ≡ [] }
        requires room { vec_len passes.old + length players.now ≤ vec_capacity passes.old }
        ensures { AreNewPasses self.now players.now passes.new.items }
    {
        for index in 0..players.len() {
            let pass = self.deal(seat, players[index]);
            push_within(passes, pass);
        }
    }

    // The pass of the first player that has none yet.
    fn deal(&self, seat: &mut Seat<u64, View>, player: u32) -> SigPass
        requires table { seat.old.table_id ≡ self.now.table.shared.table_id }
        requires first { (others : List ℕ) × (seat.old.me ≡ (opened (player ∷ others), [])) }
        ensures table { seat.new.table_id ≡ seat.old.table_id }
        ensures others { (others : List ℕ) → seat.old.me ≡ (opened (player ∷ others), []) →
            seat.new.me ≡ (opened others, []) }
        ensures pass { IsNewPass self.now player result }
    {
        let dealt = self.table.shared.split_seat::<Deal>(seat);
        SigPass {
            seat: dealt,
            room: MOST_WRITES,
        }
    }
}
