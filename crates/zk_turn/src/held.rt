ghost use Rattle.std.specs.Prelude.{◌≡◌, ◌+◌, ◌≤◌, ◌<◌, true, false, [], ◌∷◌, length, IsOk, IfOk, OnErr};
ghost use Rattle.zk_base.specs.History.{IsAbove, AddsNone, extended};
ghost use Rattle.zk_base.specs.Legal.{IsLegal, state_after};
ghost use Rattle.zk_base.specs.Touched.{LeavesOthers};
ghost use Rattle.zk_turn.specs.Words.{KeepsOthers};
ghost use Rattle.zk_turn.specs.Passes.{IsHeld, IsSameTurn, Spends, service_of, held_players, held_who, held_room, has_added, has_looked};

use crate::views::View;
use atomic_table::Seat;
use zk_base::{NoMemory, Service, Who};

/// A turn: the service, until `Cell::leave` gives it back. It can't be let go otherwise.
pub struct Held<S: Service> {
    pub(crate) seat: Seat<Option<S>, View<S::Op, S::Reply, S::State>>,
    pub(crate) service: S,
    pub(crate) who: Who,
    pub(crate) room: u64,
    pub(crate) added: bool,
    pub(crate) looked: bool,
}

impl<S: Service> Held<S> {
    /// Makes one entry for the player of the pass, or says that the machine doesn't let it stand: `Service::act`.
    ///
    /// A turn adds one entry at most, and none once its look is made. After `None` or want of memory another operation
    /// may be tried in the same turn.
    pub fn act(&mut self, step: u32, op: S::Op) -> Result<Option<S::Reply>, NoMemory>
        requires held { IsHeld (IsLegal S.machine) S.start S.history
            (KeepsOthers S.machine S.start S.history S.word S.WORDS S.touched) self.old }
        requires fresh { has_added self.old ≡ false }
        requires unlooked { has_looked self.old ≡ false }
        requires alone { held_players self.old ≡ held_who self.old ∷ [] }
        requires later { IsAbove (S.history (service_of self.old)) (held_who self.old).number step }
        requires range { S.machine.in_range (S.start (service_of self.old)) op ≡ true }

        // It is the same turn, with the entry or without.
        ensures held { IsHeld (IsLegal S.machine) S.start S.history
            (KeepsOthers S.machine S.start S.history S.word S.WORDS S.touched) self.new }
        ensures turn { IsSameTurn self.old self.new }
        ensures spends { Spends self.old self.new result }

        // What the service says and does.
        ensures reply { IfOk result (λ reply. reply ≡ S.machine.reply_of
            (state_after S.machine (S.start (service_of self.old)) (S.history (service_of self.old))) (held_who self.old) op) }
        ensures entry { IfOk result (λ reply. S.history (service_of self.new) ≡
            extended (S.history (service_of self.old)) (held_who self.old) step op reply) }
        ensures err { OnErr result (S.history (service_of self.new) ≡ S.history (service_of self.old)) }
        ensures start { S.start (service_of self.new) ≡ S.start (service_of self.old) }
        ensures touched { LeavesOthers S.WORDS (S.touched (service_of self.new))
            (S.word (state_after S.machine (S.start (service_of self.old)) (S.history (service_of self.old))))
            (S.word (state_after S.machine (S.start (service_of self.new)) (S.history (service_of self.new)))) }

        // Memory, as `Service::act` says.
        ensures closing { S.closes (state_after S.machine (S.start (service_of self.old)) (S.history (service_of self.old)))
            (held_who self.old) op ≡ true → IsOk result }
        ensures roomy { 3 ≤ S.room (service_of self.old) → S.grows op ≡ false → IsOk result }
        ensures room { S.room (service_of self.old) ≤ S.room (service_of self.new) + 3 }
        ensures kept { AddsNone result → S.room (service_of self.old) ≤ S.room (service_of self.new) }
    {
        match self.service.act(self.who, step, op) {
            Ok(Some(reply)) => {
                self.added = true;
                self.room -= 1;
                Ok(Some(reply))
            }
            other => other,
        }
    }

    /// The look of a turn: the word of this index, which the service publishes for looks.
    ///
    /// A turn has one look or one entry, and a look takes no room of the pass. After an attempt that was refused, a
    /// look may be made in the same turn.
    pub fn word(&mut self, index: u32) -> u32
        requires held { IsHeld (IsLegal S.machine) S.start S.history
            (KeepsOthers S.machine S.start S.history S.word S.WORDS S.touched) self.old }
        requires fresh { has_added self.old ≡ false }
        requires unlooked { has_looked self.old ≡ false }

        // It is the same turn, without an entry, and its look is made.
        ensures held { IsHeld (IsLegal S.machine) S.start S.history
            (KeepsOthers S.machine S.start S.history S.word S.WORDS S.touched) self.new }
        ensures turn { IsSameTurn self.old self.new }
        ensures service { service_of self.new ≡ service_of self.old }
        ensures room { held_room self.new ≡ held_room self.old }
        ensures added { has_added self.new ≡ false }
        ensures looked { has_looked self.new ≡ true }

        // The word is that of the state after all entries.
        ensures word { result ≡ S.word
            (state_after S.machine (S.start (service_of self.old)) (S.history (service_of self.old))) index }
        ensures small { index < S.WORDS → result < 65536 }
    {
        self.looked = true;
        self.service.word(index)
    }

    /// The service that is held, to be read alone.
    pub fn service(&self) -> &S
        ensures { result.now ≡ service_of self.now }
    {
        &self.service
    }

    /// How many entries the history has, with the one of this turn.
    pub fn at(&self) -> u64
        ensures { result ≡ length (S.history (service_of self.now)) }
    {
        self.service.history().len() as u64
    }
}
