/// The most publishers of a feed.
pub const MOST_PUBLISHERS: u32 = 8;

/// The most subscribers of a feed.
pub const MOST_SUBSCRIBERS: u32 = 8;

/// The most messages that each publisher of a feed sends.
pub const MOST_MESSAGES: u32 = 1_000;

/// How large a feed is: how many publishers it has, from 1 to 8, how many subscribers, from 1 to 8, and how many messages each
/// publisher sends, from 1 to 1,000.
#[derive(Clone, Copy, PartialEq, Eq)]
pub struct FeedSize {
    pub publishers: u32,
    pub subscribers: u32,
    pub messages: u32,
}
