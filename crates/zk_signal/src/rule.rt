//! The rule of a shared signal, what each atomic step tells, and how a seat is dealt and joined.
use crate::views::View;
use atomic_table::{Join, Play, Split, TableRule};

/// What a signal is told once: the players.
#[derive(Drop)]
pub struct Beginning {
    pub players: Vec<u32>,
}

/// The rule that holds of a shared signal at every moment.
pub struct SignalRule;

impl TableRule<u64, View, Beginning> for SignalRule {
    ghost use Rattle.std.specs.Prelude.{length};
    ghost use Rattle.zk_signal.specs.Rule.{SignalStands};
    ghost use Rattle.zk_signal.specs.Views.{opened};

    ghost holds = { λ beginning. SignalStands (length beginning.players.items) };

    ghost first = { λ beginning. opened beginning.players.items };
}

/// A stamp is drawn.
pub struct Draw;

impl Play<u64, View> for Draw {
    ghost use Rattle.zk_signal.specs.Steps.{Draws};

    ghost then = { Draws };
}

/// The write of the drawn stamp settles. This is the event of a write.
pub struct Settle;

impl Play<u64, View> for Settle {
    ghost use Rattle.zk_signal.specs.Steps.{Settles};

    ghost then = { Settles };
}

/// A look.
pub struct Look;

impl Play<u64, View> for Look {
    ghost use Rattle.zk_signal.specs.Steps.{Looks};

    ghost then = { Looks };
}

/// The first player gets a seat of its own.
pub struct Deal;

impl Split<View> for Deal {
    ghost use Rattle.zk_signal.specs.Views.{dealt_from, dealt};

    ghost left = { dealt_from };

    ghost right = { dealt };
}

/// Two seats become one.
pub struct Merge;

impl Join<View> for Merge {
    ghost use Rattle.zk_signal.specs.Views.{joined, spent};

    ghost both = { joined };

    ghost spent = { spent };
}
