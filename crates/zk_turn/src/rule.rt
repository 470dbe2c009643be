//! The rule of the turn, what each atomic step tells, and how a seat is dealt and joined.
use crate::views::View;
use atomic_table::{Join, Play, Split, TableRule};
use std::marker::PhantomData;
use std::snapshot::Snapshot;
use zk_base::{Service, Who};

/// What a cell is told once: the service as it was given, and the players.
#[derive(Drop)]
pub struct Beginning<S> {
    pub service: Snapshot<S>,
    pub players: Vec<Who>,
}

/// The rule that holds of a cell at every moment.
pub struct TurnRule<S> {
    marker: PhantomData<S>,
}

impl<S: Service> TableRule<Option<S>, View<S::Op, S::Reply, S::State>, Beginning<S>>
    for TurnRule<S> {
    ghost use Rattle.std.specs.Prelude.{length};
    ghost use Rattle.zk_base.specs.Legal.{IsLegal};
    ghost use Rattle.zk_turn.specs.Steps.{Fits};
    ghost use Rattle.zk_turn.specs.Turn.{Turn};
    ghost use Rattle.zk_turn.specs.Views.{opened};
    ghost use Rattle.zk_turn.specs.Words.{word_after};

    ghost holds = { λ beginning.
        Turn (IsLegal S.machine) (Fits S.start S.history) (word_after S.machine S.word) S.WORDS
        (S.start beginning.service.value) (length beginning.players.items) };

    ghost first = { λ beginning. opened (S.start beginning.service.value) S.WORDS beginning.players.items };
}

/// A ticket is drawn.
pub struct Draw<S> {
    marker: PhantomData<S>,
}

impl<S: Service> Play<Option<S>, View<S::Op, S::Reply, S::State>> for Draw<S> {
    ghost use Rattle.zk_turn.specs.Steps.{Draws};

    ghost then = { Draws };
}

/// The turn has come, or hasn't yet.
pub struct Await<S> {
    marker: PhantomData<S>,
}

impl<S: Service> Play<Option<S>, View<S::Op, S::Reply, S::State>> for Await<S> {
    ghost use Rattle.zk_base.specs.Legal.{IsLegal};
    ghost use Rattle.zk_turn.specs.Steps.{Awaits, Fits};

    ghost then = { Awaits (IsLegal S.machine) (Fits S.start S.history) };
}

/// An entry is announced: it is in flight from here until it is published.
pub struct Announce<S> {
    marker: PhantomData<S>,
}

impl<S: Service> Play<Option<S>, View<S::Op, S::Reply, S::State>> for Announce<S> {
    ghost use Rattle.zk_turn.specs.Steps.{Announces};

    ghost then = { Announces S.WORDS S.history };
}

/// A word that may change is weighed against the entry in flight.
pub struct Weigh<S> {
    marker: PhantomData<S>,
}

impl<S: Service> Play<Option<S>, View<S::Op, S::Reply, S::State>> for Weigh<S> {
    ghost use Rattle.zk_turn.specs.Steps.{Weighs};
    ghost use Rattle.zk_turn.specs.Words.{word_after};

    ghost then = { Weighs (word_after S.machine S.word) };
}

/// A word is stored for the entry in flight.
pub struct Stamp<S> {
    marker: PhantomData<S>,
}

impl<S: Service> Play<Option<S>, View<S::Op, S::Reply, S::State>> for Stamp<S> {
    ghost use Rattle.zk_turn.specs.Steps.{Stamps};

    ghost then = { Stamps };
}

/// An entry is published.
pub struct Publish<S> {
    marker: PhantomData<S>,
}

impl<S: Service> Play<Option<S>, View<S::Op, S::Reply, S::State>> for Publish<S> {
    ghost use Rattle.zk_turn.specs.Steps.{Publishes};

    ghost then = { Publishes };
}

/// The turn is passed on.
pub struct PassOn<S> {
    marker: PhantomData<S>,
}

impl<S: Service> Play<Option<S>, View<S::Op, S::Reply, S::State>> for PassOn<S> {
    ghost use Rattle.zk_turn.specs.Steps.{PassesOn};

    ghost then = { PassesOn };
}

/// A joined seat is told what its parts had seen.
pub struct Recall<S> {
    marker: PhantomData<S>,
}

impl<S: Service> Play<Option<S>, View<S::Op, S::Reply, S::State>> for Recall<S> {
    ghost use Rattle.zk_turn.specs.Steps.{Recalls};

    ghost then = { Recalls };
}

/// How many words are published.
pub struct Measure<S> {
    marker: PhantomData<S>,
}

impl<S: Service> Play<Option<S>, View<S::Op, S::Reply, S::State>> for Measure<S> {
    ghost use Rattle.zk_turn.specs.Steps.{Measures};

    ghost then = { Measures S.WORDS };
}

/// A look loads a word.
pub struct LoadWord<S> {
    marker: PhantomData<S>,
}

impl<S: Service> Play<Option<S>, View<S::Op, S::Reply, S::State>> for LoadWord<S> {
    ghost use Rattle.zk_turn.specs.Steps.{LoadsWord};

    ghost then = { LoadsWord };
}

/// A look loads the length of the history, and has seen what its word is of.
pub struct LoadCount<S> {
    marker: PhantomData<S>,
}

impl<S: Service> Play<Option<S>, View<S::Op, S::Reply, S::State>> for LoadCount<S> {
    ghost use Rattle.zk_base.specs.Legal.{IsLegal};
    ghost use Rattle.zk_turn.specs.Steps.{LoadsCount};
    ghost use Rattle.zk_turn.specs.Words.{word_after};

    ghost then = { LoadsCount (IsLegal S.machine) (word_after S.machine S.word) };
}

/// The first player gets a seat of its own.
pub struct Deal;

impl<O, R, T> Split<View<O, R, T>> for Deal {
    ghost use Rattle.zk_turn.specs.Views.{dealt_from, dealt};

    ghost left = { dealt_from };

    ghost right = { dealt };
}

/// Two seats become one.
pub struct Merge;

impl<O, R, T> Join<View<O, R, T>> for Merge {
    ghost use Rattle.zk_turn.specs.Views.{joined, spent};

    ghost both = { joined };

    ghost spent = { spent };
}
