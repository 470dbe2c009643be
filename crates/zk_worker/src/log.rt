use crate::{Answers, Spots};

/// How a player stands.
#[derive(Clone, Copy, PartialEq, Eq)]
pub enum PlayerState {
    /// It has made all the steps that a player may make.
    Spent,
    /// A user thread that a check has ended.
    Oops,
    /// A thread that is through its script, or a worker between two runs.
    Done,
    /// Any other: a call has no answer yet, or the next one isn't begun.
    Standing,
}

/// What a player has done.
#[derive(Drop)]
pub struct Log {
    /// How it stands.
    pub state: PlayerState,
    /// Where each of its steps stands, first to last.
    pub steps: Spots,
    /// The calls that have their answers.
    pub answers: Answers,
}
