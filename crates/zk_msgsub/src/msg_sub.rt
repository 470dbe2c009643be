use crate::note::Note;
use crate::rule::SubRule;
use crate::views::View;
use crossbeam_queue::RuledArrayQueue;

/// The queue had no room for the copy.
#[derive(Clone, Copy, PartialEq, Eq)]
pub struct Full;

/// A subscriber's queue: its publishers push copies of their messages, each with a seat of its own, and the subscriber takes
/// them. Zephyr's message subscriber of a channel, `ZBUS_MSG_SUBSCRIBER_DEFINE`.
///
/// Every call of a `MsgSub` takes seats of that one alone. It is shared by reference; `close` takes it apart.
#[derive(Drop)]
pub struct MsgSub {
    pub(crate) queue: RuledArrayQueue<Note, View, SubRule>,
    pub(crate) publishers: u32,
    pub(crate) each: u32,
}
