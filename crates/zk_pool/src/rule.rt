//! The rule of a pool, what each step of its queue tells, and how a pass is dealt and joined.
use crate::numbered::Numbered;
use crate::views::View;
use crossbeam_queue::protocol::{Join, Lesson, Outcome, Protocol, Split};
use std::marker::PhantomData;

/// The rule that holds of a pool at every moment.
pub struct PoolRule<T> {
    marker: PhantomData<T>,
}

impl<T: Numbered> Protocol<T, View<T::Home>> for PoolRule<T> {
    ghost use Rattle.zk_pool.specs.Rule.{PoolStands};
    ghost use Rattle.zk_pool.specs.Views.{opened};

    ghost holds = { PoolStands T.number T.home T.kept };

    ghost first = { opened };
}

/// An item of `Pool::new` goes into the queue.
pub struct Fill<T> {
    marker: PhantomData<T>,
}

impl<T: Numbered> Outcome<T, View<T::Home>> for Fill<T> {
    ghost use Rattle.zk_pool.specs.Steps.{Fills};

    ghost then = { Fills T.number T.home };
}

/// An item is taken out.
pub struct Take<T> {
    marker: PhantomData<T>,
}

impl<T: Numbered> Outcome<T, View<T::Home>> for Take<T> {
    ghost use Rattle.zk_pool.specs.Steps.{Takes};

    ghost then = { Takes T.number T.home T.kept };
}

impl<T: Numbered> Lesson<T, View<T::Home>> for Take<T> {
    ghost use Rattle.zk_pool.specs.Steps.{AllHasRest};

    ghost fact = { AllHasRest T.number };
}

/// An item is given back.
pub struct Give<T> {
    marker: PhantomData<T>,
}

impl<T: Numbered> Outcome<T, View<T::Home>> for Give<T> {
    ghost use Rattle.zk_pool.specs.Steps.{Gives};

    ghost then = { Gives T.number };
}

impl<T: Numbered> Lesson<T, View<T::Home>> for Give<T> {
    ghost use Rattle.zk_pool.specs.Steps.{HasRoom};

    ghost fact = { HasRoom };
}

/// One hand more is there.
pub struct Grow;

impl<H> Split<View<H>> for Grow {
    ghost use Rattle.zk_pool.specs.Views.{grown, spent};

    ghost left = { grown };

    ghost right = { λ v. spent };
}

/// One hand gets a pass of its own.
pub struct Deal;

impl<H> Split<View<H>> for Deal {
    ghost use Rattle.zk_pool.specs.Views.{dealt_from, dealt};

    ghost left = { dealt_from };

    ghost right = { dealt };
}

/// A take that found the queue empty is counted.
pub struct FindNothing;

impl<H> Split<View<H>> for FindNothing {
    ghost use Rattle.zk_pool.specs.Views.{found_nothing, spent};

    ghost left = { found_nothing };

    ghost right = { λ v. spent };
}

/// Two passes become one.
pub struct Merge;

impl<H> Join<View<H>> for Merge {
    ghost use Rattle.zk_pool.specs.Views.{joined, spent};

    ghost both = { joined };

    ghost spent = { spent };
}
