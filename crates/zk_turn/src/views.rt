use std::collections::LinkedList;
use zk_base::{Entry, Who};

/// Where a seat stands: without a ticket, with one that waits, or with the turn.
pub enum Stage {
    Idle,
    Waiting(u64),
    Holding(u64),
}

/// What a pass knew when it was joined into another.
pub struct Part<O, R> {
    pub players: LinkedList<Who>,
    pub seen: LinkedList<Entry<O, R>>,
}

/// The word of an index as a seat has loaded it.
pub struct Note {
    pub index: u64,
    pub word: u64,
}

/// The entry that a turn is about to publish, none or one, and the indices whose words are ready for it.
pub struct Flight<O, R> {
    pub pending: LinkedList<Entry<O, R>>,
    pub stamped: LinkedList<u32>,
}

/// What a seat at the table of a cell knows. It stands in contracts alone: no value of it is made.
///
/// `players` are those that it stands for, `seen` is the history as it has seen it, `start` the first state of the
/// service, `made` how many entries it has added, `holds` how many turns it had, and `parts` are the passes that were
/// joined, until the next turn. `words` is how many words are published, `flight` what the turn is about to publish, and
/// `note` the word that a look has loaded.
pub struct View<O, R, T> {
    pub players: LinkedList<Who>,
    pub seen: LinkedList<Entry<O, R>>,
    pub start: Option<T>,
    pub made: u64,
    pub holds: u64,
    pub stage: Stage,
    pub parts: LinkedList<Part<O, R>>,
    pub words: u64,
    pub flight: Flight<O, R>,
    pub note: Option<Note>,
}
