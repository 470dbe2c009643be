ghost use Rattle.std.specs.Prelude.{◌≡◌, ◌≢◌, ◌+◌, ◌^◌, ◌-◌, ◌<◌, ◌≤◌, [], Bool, not, true, false, filter, length, All, HoldsAt, IsOk, IfOk, IfSome, IfNone, OnOk, OnErr};
ghost use Rattle.std.specs.List.{list_any};
ghost use Rattle.std.specs.Option.{option_map_or};
ghost use Rattle.zk_model_work.specs.Machine.{awaiting};
ghost use Rattle.zk_work.specs.OpenWaits.{Rises, is_at, IsNewAt, IsOfPlace};

use std::alloc::Global;
use std::marker::Model;
use zk_base::NoMemory;
use zk_model_work::Wait;

/// The waits that aren't answered, in the order of their places.
///
/// A wait that ends stays as an answered one, so that no other moves.
#[derive(Drop)]
pub struct OpenWaits {
    // The lowest place first.
    waits: Vec<Wait>,
    // How many of them are answered: half at most.
    answered: usize,
    // Above the place of each.
    next: u64,
}

impl Model for OpenWaits {
    ghost use Rattle.std.specs.Prelude.{◌≡◌, ◌+◌, ◌-◌, ◌<◌, length, vec_len, vec_capacity, All};
    ghost use Rattle.zk_work.specs.EngineState.{unanswered};
    ghost use Rattle.zk_work.specs.OpenWaits.{OpenWaitsView, Rises};

    ghost Value = { OpenWaitsView };

    ghost view = { λ a. record {
      waits = unanswered a.waits.items;
      room = vec_capacity a.waits - vec_len a.waits;
      next = a.next;
    } };

    ghost invariant = { λ a. record {
      rises : Rises a.waits.items;
      below : All (λ w. w.place < a.next) a.waits.items;
      counted : a.answered + length (unanswered a.waits.items) ≡ length a.waits.items;
    } };
}

/// The index of the wait of this place, if there is one.
fn index_of(waits: &[Wait], place: u64) -> Option<usize>
    requires { Rises waits.now }
    ensures within { IfSome result (λ index. index < length waits.now) }
    ensures found { IfSome result (HoldsAt (λ w. w.place ≡ place) waits.now) }
    ensures none { IfNone result (All (λ w. w.place ≢ place) waits.now) }
{
    let index = waits.partition_point(|wait| wait.place < place);
    if index == waits.len() {
        return None;
    }
    if waits[index].place != place {
        return None;
    }
    Some(index)
}

impl OpenWaits {
    /// Nobody waits. It takes no memory.
    pub fn new(alloc: Global) -> OpenWaits
        ensures waits { result.waits ≡ [] }
        ensures next { result.next ≡ 0 }
    {
        OpenWaits {
            waits: Vec::new(alloc),
            answered: 0,
            next: 0,
        }
    }

    /// Makes room for so many waits more.
    pub fn reserve(&mut self, more: usize) -> Result<(), NoMemory>
        ensures room { IfOk result (λ _. more ≤ self.new.room) }
        ensures kept { self.old.room ≤ self.new.room }
        ensures roomy { more ≤ self.old.room → IsOk result }
        ensures waits { self.new.waits ≡ self.old.waits }
        ensures next { self.new.next ≡ self.old.next }
    {
        self.waits.reserve(more)?;
        Ok(())
    }

    /// How many waits fit without memory.
    pub fn room(&self) -> u64
        ensures { result ≡ self.now.room }
    {
        (self.waits.capacity() - self.waits.len()) as u64
    }

    /// How many there are.
    pub fn len(&self) -> u64
        ensures len { result ≡ length self.now.waits }
        ensures few { result < 2 ^ 63 }
    {
        (self.waits.len() - self.answered) as u64
    }

    /// Whether nobody waits.
    pub fn is_empty(&self) -> bool
        ensures { result ≡ true → self.now.waits ≡ [] }
    {
        self.waits.is_empty()
    }

    /// One wait more, where there is something to wait for. Its place is above all places so far.
    pub fn put(&mut self, place: u64, wait: Option<Wait>) -> Result<(), NoMemory>
        requires above { self.old.next ≤ place }
        requires short { place < 2 ^ 64 - 1 }
        requires new { IsNewAt place wait }
        ensures ok { OnOk result (self.new.waits ≡ awaiting self.old.waits wait) }
        ensures err { OnErr result (self.new.waits ≡ self.old.waits) }
        ensures next { OnOk result (self.new.next ≤ place + 1) }
        ensures err_next { OnErr result (self.new.next ≡ self.old.next) }

        // Memory: one place of it is enough.
        ensures roomy { 1 ≤ self.old.room → IsOk result }
        ensures room { self.old.room ≤ self.new.room + 1 }
        ensures kept { OnErr result (self.old.room ≤ self.new.room) }
    {
        if let Some(wait) = wait {
            self.waits.push(wait)?;
            self.next = place + 1;
        }
        Ok(())
    }

    /// The wait of this place, if there is one: it may be answered.
    pub fn at(&self, place: u64) -> Option<Wait>
        ensures { (passes : Wait → Bool) → IsOfPlace place passes →
            list_any passes self.now.waits ≡ option_map_or passes result false }
    {
        let index = index_of(&self.waits, place)?;
        Some(self.waits[index])
    }

    /// Each place is below all later ones. It does nothing.
    pub fn in_order(&self)
        ensures { Rises self.now.waits }
    {
        let _len = self.waits.len();
    }

    /// Takes the wait of this place out, if there is one.
    pub fn take_out(&mut self, place: u64)
        ensures waits { self.new.waits ≡ filter (λ w. not (is_at place w)) self.old.waits }
        ensures room { self.old.room ≤ self.new.room }
        ensures next { self.new.next ≡ self.old.next }
    {
        let Some(index) = index_of(&self.waits, place) else {
            return;
        };
        let wait = self.waits[index];
        if wait.answered {
            return;
        }
        self.waits[index] = Wait {
            answered: true,
            ..wait
        };
        self.answered += 1;
        if self.waits.len() < 2 * self.answered {
            self.waits.retain(|wait| !wait.answered);
            self.answered = 0;
        }
    }
}
