ghost use Rattle.std.specs.Prelude.{◌≡◌, ◌+◌, ◌≤◌, [], ◌∷◌, ◌++◌, length, IfOk, List, vec_len, vec_capacity};
ghost use Rattle.zk_base.specs.declared.ids.Who.{Who};
ghost use Rattle.zk_base.specs.Legal.{IsLegal};
ghost use Rattle.zk_turn.specs.Players.{Differ};
ghost use Rattle.zk_turn.specs.Views.{opened};
ghost use Rattle.zk_turn.specs.Words.{AreFirstWords};
ghost use Rattle.zk_turn.specs.Passes.{IsNewPass, AreNewPasses, given_to, players_in};

use crate::cell::Cell;
use crate::pass::Pass;
use crate::rule::{Beginning, Deal};
use crate::turns::FIRST_WORD;
use crate::views::View;
use atomic_table::{Seat, Table};
use std::alloc::Global;
use std::snapshot::Snapshot;
use std::sync::atomic::AtomicU64;
use zk_base::{NoMemory, Service, Who, push_within};

// The entries that one player may add, so that a history stays far below 2^32.
const ROOM_OF_A_PASS: u64 = 20_000;

impl<S: Service> Cell<S> {
    /// A cell for this service, and one pass for each player, in order.
    ///
    /// There are 1 to 256 players, whose numbers differ, and the service has made no entry yet.
    pub fn new(
        alloc: Global,
        service: S,
        players: &[Who],
    ) -> Result<(Cell<S>, Vec<Pass<S>>), NoMemory>
        requires empty { S.history service ≡ [] }
        requires few { length players.now ≤ 256 }
        requires differ { Differ players.now }
        ensures given { IfOk result (λ made. given_to made.0 ≡ service) }
        ensures players { IfOk result (λ made. players_in made.0 ≡ players.now) }
        ensures passes { IfOk result (λ made. AreNewPasses (IsLegal S.machine) S.start made.0 players.now made.1.items) }
    {
        let mut passes = Vec::with_capacity(alloc, players.len())?;
        let mut copies = Vec::with_capacity(alloc, players.len())?;
        copies.extend_from_slice(players)?;
        let beginning = Beginning {
            service: Snapshot::of(&service),
            players: copies,
        };
        let words = first_words(alloc, &service)?;
        let mut slots = Vec::with_capacity(alloc, 1)?;
        push_within(&mut slots, Some(service));
        let Ok((table, mut seat)) = Table::new(alloc, &words, slots, &beginning) else {
            return Err(NoMemory);
        };
        let cell = Cell {
            table,
            sleepers: AtomicU64::new(0),
        };
        cell.deal_all(&mut seat, players, &mut passes);
        Ok((cell, passes))
    }

    // A pass for each player, in order.
    fn deal_all(
        &self,
        seat: &mut Seat<Option<S>, View<S::Op, S::Reply, S::State>>,
        players: &[Who],
        passes: &mut Vec<Pass<S>>,
    )
        requires table { seat.old.table_id ≡ self.now.table.shared.table_id }
        requires words { self.now.table.shared.table_id.words ≡ 3 + S.WORDS }
        requires opened { seat.old.me ≡ (opened (S.start (given_to self.now)) S.WORDS players.now, []) }
        requires differ { Differ players.now }
        requires none { passes.old.items ≡ [] }
        requires room { vec_len passes.old + length players.now ≤ vec_capacity passes.old }
        ensures { AreNewPasses (IsLegal S.machine) S.start self.now players.now passes.new.items }
    {
        for index in 0..players.len() {
            let pass = self.deal(seat, players[index]);
            push_within(passes, pass);
        }
    }

    // The pass of the first player that has none yet.
    fn deal(&self, seat: &mut Seat<Option<S>, View<S::Op, S::Reply, S::State>>, who: Who) -> Pass<S>
        requires table { seat.old.table_id ≡ self.now.table.shared.table_id }
        requires words { self.now.table.shared.table_id.words ≡ 3 + S.WORDS }
        requires first { (others : List Who)
            × (seat.old.me ≡ (opened (S.start (given_to self.now)) S.WORDS (who ∷ others), [])) × Differ (who ∷ others) }
        ensures table { seat.new.table_id ≡ seat.old.table_id }
        ensures others { (others : List Who) → seat.old.me ≡ (opened (S.start (given_to self.now)) S.WORDS (who ∷ others), []) →
            seat.new.me ≡ (opened (S.start (given_to self.now)) S.WORDS others, []) }
        ensures pass { IsNewPass (IsLegal S.machine) S.start self.now who result }
    {
        let dealt = self.table.shared.split_seat::<Deal>(seat);
        Pass {
            seat: dealt,
            who,
            room: ROOM_OF_A_PASS,
            front: 0,
        }
    }
}

// The words of a cell at first: no ticket is drawn, none is served but the first, there is no entry, and each published
// word is that of the service as it was given.
fn first_words<S: Service>(alloc: Global, service: &S) -> Result<Vec<u64>, NoMemory>
    requires empty { S.history service.now ≡ [] }
    ensures { IfOk result (λ words. AreFirstWords S.WORDS (S.word (S.start service.now)) words.items) }
{
    let mut words = Vec::with_capacity(alloc, FIRST_WORD + S::WORDS as usize)?;
    words.extend_from_slice(&[0, 0, 0])?;
    for index in 0..S::WORDS {
        words.push(service.word(index) as u64 * 65_536)?;
    }
    Ok(words)
}
