use crate::size::FeedSize;
use zk_msgsub::{Fan, MsgSub};
use zk_turn::Cell;

/// What the publishers of a feed share: the fan, and the subscribers by number.
#[derive(Drop)]
pub struct Shared {
    pub size: FeedSize,
    pub fan: Cell<Fan>,
    pub subs: Vec<MsgSub>,
}
