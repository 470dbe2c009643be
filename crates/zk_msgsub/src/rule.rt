//! The rule of a subscriber's queue, what each step of it tells, and how passes are made and joined.
use crate::note::Note;
use crate::views::View;
use crossbeam_queue::protocol::{Join, Lesson, Outcome, Protocol, Split};

/// The rule that holds of a subscriber's queue at every moment.
pub struct SubRule;

impl Protocol<Note, View> for SubRule {
    ghost use Rattle.zk_msgsub.specs.Rule.{SubStands};
    ghost use Rattle.zk_msgsub.specs.Views.{opened};

    ghost holds = { SubStands };

    ghost first = { opened };
}

/// A publisher's copy goes in.
pub struct Push;

impl Outcome<Note, View> for Push {
    ghost use Rattle.zk_msgsub.specs.Steps.{Pushes};

    ghost then = { Pushes };
}

impl Lesson<Note, View> for Push {
    ghost use Rattle.zk_msgsub.specs.Steps.{HasFew};

    ghost fact = { HasFew };
}

/// The oldest note is taken.
pub struct Take;

impl Outcome<Note, View> for Take {
    ghost use Rattle.zk_msgsub.specs.Steps.{Takes};

    ghost then = { Takes };
}

impl Lesson<Note, View> for Take {
    ghost use Rattle.zk_msgsub.specs.Steps.{HasParts};

    ghost fact = { HasParts };
}

/// One publisher more.
pub struct AddPublisher;

impl Split<View> for AddPublisher {
    ghost use Rattle.zk_msgsub.specs.Views.{one_publisher_more, spent};

    ghost left = { one_publisher_more };

    ghost right = { λ v. spent };
}

/// Twice as many messages for each.
pub struct DoubleSends;

impl Split<View> for DoubleSends {
    ghost use Rattle.zk_msgsub.specs.Views.{doubled, spent};

    ghost left = { doubled };

    ghost right = { λ v. spent };
}

/// One message more for each.
pub struct AddSend;

impl Split<View> for AddSend {
    ghost use Rattle.zk_msgsub.specs.Views.{one_send_more, spent};

    ghost left = { one_send_more };

    ghost right = { λ v. spent };
}

/// The next publisher gets its seat.
pub struct Deal;

impl Split<View> for Deal {
    ghost use Rattle.zk_msgsub.specs.Views.{dealt_from, dealt};

    ghost left = { dealt_from };

    ghost right = { dealt };
}

/// A push that found the queue full is counted.
pub struct FindFull;

impl Split<View> for FindFull {
    ghost use Rattle.zk_msgsub.specs.Views.{found_full, spent};

    ghost left = { found_full };

    ghost right = { λ v. spent };
}

/// A take that found the queue empty is counted.
pub struct FindNothing;

impl Split<View> for FindNothing {
    ghost use Rattle.zk_msgsub.specs.Views.{found_nothing, spent};

    ghost left = { found_nothing };

    ghost right = { λ v. spent };
}

/// The taker's pass takes in a publisher's.
pub struct Merge;

impl Join<View> for Merge {
    ghost use Rattle.zk_msgsub.specs.Views.{joined, spent};

    ghost both = { joined };

    ghost spent = { spent };
}
