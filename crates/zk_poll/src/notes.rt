ghost use Rattle.std.specs.Prelude.{◌≡◌, ◌↔◌, ◌+◌, ◌-◌, ◌<◌, ◌≤◌, ◌++◌, ◌∷◌, [], All, true, false, None, option_map, position, vec_len, vec_capacity, IsOk, IfOk, IfSome, IfNone, OnOk, OnErr};
ghost use Rattle.std.specs.List.{find};
ghost use Rattle.zk_base.specs.Lists.{without_first};
ghost use Rattle.zk_poll.specs.Notes.{is_at, is_registered, told, sooner, first_to_note, noted_at};

use std::alloc::Global;
use std::marker::Model;
use zk_base::{NoMemory, Who};

/// Who is registered for a note.
#[derive(Clone, Copy, PartialEq, Eq)]
pub struct Member {
    /// The place of the entry that registered it.
    pub place: u64,
    /// Who is registered.
    pub who: Who,
    /// Whether it is noted.
    pub noted: bool,
}

/// Who is registered to be noted when something happens, in the order of registration: by priority, and then by
/// registration, one at a time. The list of pollers of Zephyr's objects.
///
/// Only `reserve` and `arm` take memory.
#[derive(Drop)]
pub struct Notes {
    members: Vec<Member>,
}

impl Model for Notes {
    ghost use Rattle.std.specs.Prelude.{◌-◌, vec_len, vec_capacity};
    ghost use Rattle.zk_poll.specs.Notes.{NotesView};

    ghost Value = { NotesView };

    ghost view = { λ n. record {
      members = n.members.items;
      room = vec_capacity n.members - vec_len n.members;
    } };
}

impl Notes {
    /// Nobody is registered. It takes no memory.
    pub fn new(alloc: Global) -> Notes
        ensures { result.members ≡ [] }
    {
        Notes {
            members: Vec::new(alloc),
        }
    }

    /// Makes room for one more.
    pub fn reserve(&mut self) -> Result<(), NoMemory>
        ensures room { IfOk result (λ _. 1 ≤ self.new.room) }
        ensures more { self.old.room ≤ self.new.room }
        ensures same { self.new.members ≡ self.old.members }
    {
        self.members.reserve(1)?;
        Ok(())
    }

    /// How many more it takes without memory.
    pub fn room(&self) -> u64
        ensures { result ≡ self.now.room }
    {
        (self.members.capacity() - self.members.len()) as u64
    }

    /// Registers one more, which isn't noted. The place is that of its entry, at which nobody is registered.
    pub fn arm(&mut self, place: u64, who: Who) -> Result<(), NoMemory>
        requires { is_registered place self.old.members ≡ false }
        ensures ok { OnOk result (self.new.members ≡
            self.old.members ++ record { place = place; who = who; noted = false } ∷ []) }
        ensures err { OnErr result (self.new.members ≡ self.old.members) }

        // Memory: one place of it is enough.
        ensures roomy { 1 ≤ self.old.room → IsOk result }
        ensures room { self.old.room ≤ self.new.room + 1 }
        ensures kept { OnErr result (self.old.room ≤ self.new.room) }
    {
        self.members.push(Member {
            place,
            who,
            noted: false,
        })?;
        Ok(())
    }

    /// Who is registered at this place, and whether it is noted. Nothing comes where nobody is.
    pub fn find(&self, place: u64) -> Option<(Who, bool)>
        ensures { result ≡ option_map told (find (is_at place) self.now.members) }
    {
        match found(&self.members, place) {
            Some(member) => Some((member.who, member.noted)),
            None => None,
        }
    }

    /// Notes the first that isn't noted, by priority and then by registration, and gives its place. Nothing comes where all are
    /// noted, or nobody is registered.
    pub fn note(&mut self) -> Option<u64>
        ensures first { result ≡ option_map (λ m. m.place) (first_to_note None self.old.members) }
        ensures none { result ≡ None ↔ All (λ m. m.noted ≡ true) self.old.members }
        ensures noted { IfSome result (λ place. self.new.members ≡ noted_at place self.old.members) }
        ensures same { IfNone result (self.new.members ≡ self.old.members) }
        ensures room { self.old.room ≤ self.new.room }
    {
        match first_to_note(&self.members) {
            Some(first) => {
                note_at(&mut self.members, first.place);
                Some(first.place)
            }
            None => None,
        }
    }

    /// Takes out who is registered at this place, and says whether it was noted. Nothing comes where nobody is, and then nothing
    /// changes.
    pub fn end(&mut self, place: u64) -> Option<bool>
        ensures noted { result ≡ option_map (λ m. m.noted) (find (is_at place) self.old.members) }
        ensures rest { self.new.members ≡ without_first (is_at place) self.old.members }
        ensures same { IfNone result (self.new.members ≡ self.old.members) }
        ensures room { self.old.room ≤ self.new.room }
    {
        match take_out(&mut self.members, place) {
            Some(member) => Some(member.noted),
            None => None,
        }
    }
}

fn is_at(member: &Member, place: u64) -> bool
    ensures { result ≡ is_at place member.now }
{
    member.place == place
}

/// The index of who is registered at this place.
fn place_of(members: &[Member], place: u64) -> Option<usize>
    ensures { result ≡ position (is_at place) members.now }
{
    members.iter().position(|member| is_at(member, place))
}

/// Who is registered at this place.
fn found(members: &[Member], place: u64) -> Option<Member>
    ensures { result ≡ find (is_at place) members.now }
{
    match place_of(members, place) {
        Some(at) => Some(members[at]),
        None => None,
    }
}

/// Takes out who is registered at this place.
fn take_out(members: &mut Vec<Member>, place: u64) -> Option<Member>
    ensures found { result ≡ find (is_at place) members.old.items }
    ensures rest { members.new.items ≡ without_first (is_at place) members.old.items }
    ensures none { IfNone result (members.new.items ≡ members.old.items) }
    ensures len { vec_len members.new ≤ vec_len members.old }
    ensures capacity { vec_capacity members.new ≡ vec_capacity members.old }
{
    match place_of(members, place) {
        Some(at) => Some(members.remove(at)),
        None => None,
    }
}

/// Whoever of two is noted first: the one so far, if there is one, or a later one.
fn sooner(best: Option<Member>, member: Member) -> Option<Member>
    ensures { result ≡ sooner best member }
{
    if member.noted {
        return best;
    }
    match best {
        None => Some(member),
        Some(first) if member.who.prio < first.who.prio => Some(member),
        Some(first) => Some(first),
    }
}

/// The first to be noted.
fn first_to_note(members: &[Member]) -> Option<Member>
    ensures { result ≡ first_to_note None members.now }
{
    let mut best = None;
    for member in members {
        best = sooner(best, *member);
    }
    best
}

/// Notes who is registered at this place.
fn note_at(members: &mut Vec<Member>, place: u64)
    ensures items { members.new.items ≡ noted_at place members.old.items }
    ensures len { vec_len members.new ≡ vec_len members.old }
    ensures capacity { vec_capacity members.new ≡ vec_capacity members.old }
{
    if let Some(at) = place_of(members, place) {
        members[at].noted = true;
    }
}
