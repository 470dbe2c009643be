ghost use Rattle.std.specs.Prelude.{◌≡◌, ◌+◌, ◌<◌, true, None, [], ◌∷◌, length, drop};
ghost use Rattle.zk_base.specs.Legal.{IsLegal};
ghost use Rattle.zk_turn.specs.Views.{in_flight, left, with_stamped};
ghost use Rattle.zk_turn.specs.Words.{word_after, KeepsOthers};
ghost use Rattle.zk_turn.specs.Passes.{IsReady, IsPublishing, IsChange, IsStamped};

use crate::cell::Cell;
use crate::rule::{Announce, Publish, Stamp, Weigh};
use crate::turns::{COUNT, FIRST_WORD, TICKET};
use crate::views::View;
use crate::word::{pack, value_after};
use atomic_table::Seat;
use zk_base::Service;

impl<S: Service> Cell<S> {
    // Publishes the entry, where one was added: announces it, stamps the words that it changed, and counts it.
    pub(crate) fn publish(
        &self,
        seat: &mut Seat<Option<S>, View<S::Op, S::Reply, S::State>>,
        service: S,
        added: bool,
    ) -> S
        requires table { seat.old.table_id ≡ self.now.table.shared.table_id }
        requires words { self.now.table.shared.table_id.words ≡ 3 + seat.old.me.0.words }
        requires out { seat.old.me.1 ≡ (0, None) ∷ [] }
        requires ready { added ≡ true → IsReady (IsLegal S.machine) S.start S.history service seat.old.me.0 }
        requires kept { added ≡ true →
            KeepsOthers S.machine S.start S.history S.word S.WORDS S.touched service seat.old.me.0.seen }
        ensures table { seat.new.table_id ≡ seat.old.table_id }
        ensures service { result ≡ service }
        ensures done { seat.new.me ≡ (left added seat.old.me.0 (S.history service), seat.old.me.1) }
    {
        if !added {
            return service;
        }
        let service = self.announce(seat, service);
        self.stamp_all(seat, &service);
        self.table.shared.fetch_add::<Publish<S>>(seat, COUNT, 1);
        service
    }

    // Announces the entry that the service has got: the service lies in its slot for that.
    fn announce(&self, seat: &mut Seat<Option<S>, View<S::Op, S::Reply, S::State>>, service: S) -> S
        requires table { seat.old.table_id ≡ self.now.table.shared.table_id }
        requires out { seat.old.me.1 ≡ (0, None) ∷ [] }
        requires ready { IsReady (IsLegal S.machine) S.start S.history service seat.old.me.0 }
        ensures table { seat.new.table_id ≡ seat.old.table_id }
        ensures service { result ≡ service }
        ensures words { seat.old.me.0.words ≡ S.WORDS }
        ensures flight { seat.new.me ≡
            (in_flight seat.old.me.0 (drop (length seat.old.me.0.seen) (S.history service)), seat.old.me.1) }
    {
        let None = self.table.shared.exchange(seat, 0, Some(service)) else {
            unreachable!()
        };
        self.table.shared.load::<Announce<S>>(seat, TICKET);
        let Some(service) = self.table.shared.exchange(seat, 0, None) else {
            unreachable!()
        };
        service
    }

    // Makes the words ready that the entry in flight may have changed, and loads no other.
    fn stamp_all(&self, seat: &mut Seat<Option<S>, View<S::Op, S::Reply, S::State>>, service: &S)
        requires table { seat.old.table_id ≡ self.now.table.shared.table_id }
        requires words { self.now.table.shared.table_id.words ≡ 3 + S.WORDS }
        requires flight { IsPublishing (IsLegal S.machine) S.start S.history service.now seat.old.me.0 }
        ensures table { seat.new.table_id ≡ seat.old.table_id }
        ensures stamped { IsStamped S.WORDS (S.touched service.now) seat.old.me seat.new.me }
    {
        let position = service.history().len() as u64;
        let touched = service.touched();
        for place in 0..touched.len() {
            let index = touched[place];
            if index < S::WORDS {
                self.stamp(seat, index, service.word(index), position);
            }
        }
    }

    // Makes the word of an index ready: it is stored with both values, unless it has the same one after the entry in flight.
    fn stamp(
        &self,
        seat: &mut Seat<Option<S>, View<S::Op, S::Reply, S::State>>,
        index: u32,
        after: u32,
        position: u64,
    )
        requires table { seat.old.table_id ≡ self.now.table.shared.table_id }
        requires words { self.now.table.shared.table_id.words ≡ 3 + S.WORDS }
        requires index { index < S.WORDS }
        requires change { IsChange (word_after S.machine S.word) index after position seat.old.me.0 }
        ensures table { seat.new.table_id ≡ seat.old.table_id }
        ensures stamped { seat.new.me ≡
            (with_stamped seat.old.me.0 (index ∷ seat.old.me.0.flight.stamped), seat.old.me.1) }
    {
        let place = FIRST_WORD + index as usize;
        let found = self.table.shared.load::<Weigh<S>>(seat, place);
        let before = value_after(found);
        if after != before {
            let word = pack(position, after, before);
            self.table.shared.store::<Stamp<S>>(seat, place, word);
        }
    }
}
