ghost use Rattle.std.specs.Prelude.{◌≡◌, ◌+◌, ◌<◌, length};
ghost use Rattle.zk_base.specs.Legal.{IsLegal, state_after};
ghost use Rattle.zk_turn.specs.Players.{GoesOn};
ghost use Rattle.zk_turn.specs.Passes.{IsPassOf, pass_players, pass_who, pass_seen, pass_mine, pass_holds, pass_room, given_to};

use crate::cell::Cell;
use crate::pass::Pass;
use crate::rule::{LoadCount, LoadWord, Measure};
use crate::turns::{COUNT, FIRST_WORD, TICKET};
use crate::views::View;
use crate::word::{Look, look_at};
use atomic_table::Seat;
use zk_base::Service;

impl<S: Service> Cell<S> {
    /// Looks at the published word of an index, without a turn.
    ///
    /// It makes two loads, and neither waits nor takes memory. A look isn't older than what the pass has seen, and that it
    /// shows the newest entry isn't promised.
    pub fn look(&self, pass: &mut Pass<S>, index: u32) -> Look
        requires own { IsPassOf (IsLegal S.machine) S.start self.now pass.old }
        requires room { 0 < pass_room pass.old }
        requires index { index < S.WORDS }

        // It is a pass of this cell for the same players, with as many turns, and the look takes room as an entry does.
        ensures own { IsPassOf (IsLegal S.machine) S.start self.now pass.new }
        ensures players { pass_players pass.new ≡ pass_players pass.old }
        ensures who { pass_who pass.new ≡ pass_who pass.old }
        ensures holds { pass_holds pass.new ≡ pass_holds pass.old }
        ensures room { pass_room pass.new + 1 ≡ pass_room pass.old }

        // What the pass has seen then begins with what it had seen, and goes on with entries of others.
        ensures seen { GoesOn (pass_players pass.old) (pass_seen pass.old) (pass_seen pass.new) }
        ensures mine { pass_mine pass.new ≡ pass_mine pass.old }

        // It is as long as the look says, and legal, and the word is that of the state after it.
        ensures at { result.at ≡ length (pass_seen pass.new) }
        ensures legal { IsLegal S.machine (S.start (given_to self.now)) (pass_seen pass.new) }
        ensures word { result.word ≡
            S.word (state_after S.machine (S.start (given_to self.now)) (pass_seen pass.new)) index }
        ensures small { result.word < 65536 }
    {
        let place = self.place_of(&mut pass.seat, index);
        let found = self.table.shared.load::<LoadWord<S>>(&mut pass.seat, place);
        let count = self
            .table
            .shared
            .load::<LoadCount<S>>(&mut pass.seat, COUNT);
        let look = look_at(found, count, pass.front);
        pass.room -= 1;
        pass.front = look.at;
        look
    }

    // Where the word of an index stands. The table has one for each, as a step would tell.
    fn place_of(
        &self,
        seat: &mut Seat<Option<S>, View<S::Op, S::Reply, S::State>>,
        index: u32,
    ) -> usize
        requires table { seat.old.table_id ≡ self.now.table.shared.table_id }
        requires words { self.now.table.shared.table_id.words ≡ 3 + seat.old.me.0.words }
        requires player { 0 < length seat.old.me.0.players }
        requires index { index < S.WORDS }
        ensures table { seat.new.table_id ≡ seat.old.table_id }
        ensures same { seat.new.me ≡ seat.old.me }
        ensures place { result ≡ 3 + index }
        ensures within { result < self.now.table.shared.table_id.words }
    {
        let place = FIRST_WORD + index as usize;
        if place >= self.table.word_count() {
            self.table.shared.load::<Measure<S>>(seat, TICKET);
            unreachable!()
        }
        place
    }
}
