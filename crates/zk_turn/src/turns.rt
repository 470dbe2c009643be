ghost use Rattle.std.specs.Prelude.{◌≡◌, ◌+◌, ◌<◌, ◌%◌, ◌^◌, false, ℕ, []};
ghost use Rattle.atomic_table.specs.Table.{rest};
ghost use Rattle.zk_base.specs.Legal.{IsLegal};
ghost use Rattle.zk_turn.specs.declared.views.Stage.TheVariants.{Idle, Waiting};
ghost use Rattle.zk_turn.specs.Players.{GoesOn, own};
ghost use Rattle.zk_turn.specs.Views.{staged};
ghost use Rattle.zk_turn.specs.Steps.{Took, Fits};
ghost use Rattle.zk_turn.specs.Words.{KeepsOthers};
ghost use Rattle.zk_turn.specs.Passes.{IsPassOf, IsHeldOf, MayPass, pass_players, pass_who, pass_seen, pass_mine, pass_holds, pass_room, held_players, held_who, held_room, held_holds, has_added, has_looked, service_of};

use crate::cell::Cell;
use crate::held::Held;
use crate::pass::Pass;
use crate::rule::{Await, Draw, PassOn};
use crate::views::View;
use atomic_table::Seat;
use std::sync::Wait;
use std::sync::atomic::Ordering::SeqCst;
use std::{hint, thread};
use zk_base::Service;

// The words of a cell: the tickets drawn, the ticket served, and the length of the history, each modulo 2^64. Behind them
// are those that are published, one for each index.
pub(crate) const TICKET: usize = 0;

const SERVING: usize = 1;

pub(crate) const COUNT: usize = 2;

pub(crate) const FIRST_WORD: usize = 3;

// How often a caller looks whether its ticket is served, or the history has grown, before it sleeps: for longer than it
// takes to wake a thread, since else all sleep once one does.
const LOOKS: u32 = 1_000;

impl<S: Service> Cell<S> {
    /// Waits for the turn, and takes the service.
    ///
    /// The pass has room for an entry. Turns come in the order of the tickets; nothing is promised of when, nor that one
    /// comes. Whoever enters twice without leaving waits for itself.
    pub fn enter<R: Wait>(&self, rt: &R, pass: Pass<S>) -> Held<S>
        requires own { IsPassOf (IsLegal S.machine) S.start self.now pass }
        requires room { 0 < pass_room pass }

        // It is a turn of this cell for the player of the pass, in which no entry was added yet and no look was made.
        ensures own { IsHeldOf (IsLegal S.machine) S.start S.history
            (KeepsOthers S.machine S.start S.history S.word S.WORDS S.touched) self.now result }
        ensures players { held_players result ≡ pass_players pass }
        ensures who { held_who result ≡ pass_who pass }
        ensures room { held_room result ≡ pass_room pass }
        ensures holds { held_holds result ≡ pass_holds pass + 1 }
        ensures fresh { has_added result ≡ false }
        ensures unlooked { has_looked result ≡ false }

        // The history goes on from what the pass had seen with entries of others: of its players it has what the pass made.
        ensures seen { GoesOn (pass_players pass) (pass_seen pass) (S.history (service_of result)) }
        ensures mine { own (pass_players pass) (S.history (service_of result)) ≡ pass_mine pass }
    {
        let Pass {
            mut seat,
            who,
            room,
            front: _,
        } = pass;
        let ticket = self.table.shared.fetch_add::<Draw<S>>(&mut seat, TICKET, 1);
        self.await_turn(rt, &mut seat, ticket);
        let Some(service) = self.table.shared.exchange(&mut seat, 0, None) else {
            unreachable!()
        };
        Held {
            seat,
            service,
            who,
            room,
            added: false,
            looked: false,
        }
    }

    // Waits until the ticket is served, and takes the service's slot: looks some times, and then sleeps before it looks again.
    fn await_turn<R: Wait>(
        &self,
        rt: &R,
        seat: &mut Seat<Option<S>, View<S::Op, S::Reply, S::State>>,
        ticket: u64,
    )
        requires table { seat.old.table_id ≡ self.now.table.shared.table_id }
        requires waits { (t : ℕ) × (seat.old.me.0.stage ≡ Waiting t) × (ticket ≡ t % 2 ^ 64) × (seat.old.me.1 ≡ []) }
        ensures table { seat.new.table_id ≡ seat.old.table_id }
        ensures took { (t : ℕ) × Took (IsLegal S.machine) (Fits S.start S.history) t seat.old.me seat.new.me }
    {
        let mut looks = 0;
        for _ in rt.forever() {
            let served = self.table.shared.load::<Await<S>>(seat, SERVING);
            if served == ticket {
                return;
            }
            if looks < LOOKS {
                looks += 1;
                pause(ticket.wrapping_sub(served));
            } else {
                looks = 0;
                self.sleep(rt, served);
            }
        }
        unreachable!()
    }

    // Sleeps as long as this ticket is served. It counts itself among the sleepers first: whoever serves the next ticket
    // before that is seen when it begins to sleep, and whoever serves it later sees the count.
    fn sleep<R: Wait>(&self, rt: &R, served: u64) {
        let low = (served % 4_294_967_296) as u32;
        self.sleepers.fetch_add(1, SeqCst);
        self.table.shared.park(rt, SERVING, low);
        self.sleepers.fetch_sub(1, SeqCst);
    }

    /// Gives the service back, and the turn to the next ticket.
    ///
    /// It takes no memory and waits for nobody.
    pub fn leave(&self, held: Held<S>) -> Pass<S>
        requires own { IsHeldOf (IsLegal S.machine) S.start S.history
            (KeepsOthers S.machine S.start S.history S.word S.WORDS S.touched) self.now held }
        ensures own { IsPassOf (IsLegal S.machine) S.start self.now result }
        ensures players { pass_players result ≡ held_players held }
        ensures who { pass_who result ≡ held_who held }
        ensures room { pass_room result ≡ held_room held }
        ensures holds { pass_holds result ≡ held_holds held }

        // The pass has seen the history as the turn left it.
        ensures seen { pass_seen result ≡ S.history (service_of held) }
        ensures mine { pass_mine result ≡ own (held_players held) (S.history (service_of held)) }
    {
        let Held {
            mut seat,
            service,
            who,
            room,
            added,
            looked: _,
        } = held;
        let front = service.history().len() as u64;
        let service = self.publish(&mut seat, service, added);
        let None = self.table.shared.exchange(&mut seat, 0, Some(service)) else {
            unreachable!()
        };
        self.pass_on(&mut seat);
        Pass {
            seat,
            who,
            room,
            front,
        }
    }

    /// Whether the history has more entries than the pass has seen, by one load and without a turn.
    ///
    /// It is a hint: more may have come by the time that it answers, and the turn of a new entry may not be over yet.
    pub fn has_grown(&self, pass: &Pass<S>) -> bool {
        self.table.shared.peek(COUNT) != pass.front
    }

    /// Waits until the history has more entries than the pass has seen, or a turn has ended: looks some times as
    /// `has_grown` does, and then sleeps until the next ticket is served.
    ///
    /// It takes no room of the pass and no turn, and it may return where nothing is new. No entry that comes meanwhile is
    /// missed: the ticket served is read before the last look, and whoever adds an entry serves the next ticket afterwards.
    pub fn await_news<R: Wait>(&self, rt: &R, pass: &Pass<S>) {
        for _ in 0..LOOKS {
            if self.has_grown(pass) {
                return;
            }
            hint::spin_loop();
        }
        let served = self.table.shared.peek(SERVING);
        if !self.has_grown(pass) {
            self.sleep(rt, served);
        }
    }

    // Serves the next ticket, and wakes all who sleep, if somebody does.
    fn pass_on(&self, seat: &mut Seat<Option<S>, View<S::Op, S::Reply, S::State>>)
        requires table { seat.old.table_id ≡ self.now.table.shared.table_id }
        requires ready { MayPass (Fits S.start S.history) seat.old.me }
        ensures table { seat.new.table_id ≡ seat.old.table_id }
        ensures passed { seat.new.me ≡ (staged seat.old.me.0 Idle, rest seat.old.me.1) }
    {
        self.table.shared.fetch_add::<PassOn<S>>(seat, SERVING, 1);
        // One that sleeps isn't picked out, since the one whose ticket is served has to be among those who wake.
        if self.sleepers.load(SeqCst) != 0 {
            self.table.shared.wake_all(SERVING);
        }
    }
}

// Passes the time between two looks: who is next looks again at once, and who is further behind lets others run.
fn pause(behind: u64) {
    if behind > 1 {
        thread::yield_now();
    } else {
        hint::spin_loop();
    }
}
