use zk_base::Msg;

/// A copy of a message in a subscriber's queue.
#[derive(Clone, Copy, PartialEq, Eq)]
pub struct Note {
    /// Whose message it is.
    pub publisher: u32,
    /// Its number among that publisher's copies in this queue, from 0. A push that found the queue full has none.
    pub number: u32,
    /// The message.
    pub message: Msg,
}
