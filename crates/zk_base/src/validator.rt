ghost use Rattle.std.specs.Prelude.{◌≡◌};
ghost use Rattle.zk_base.specs.Validators.{is_valid};

use crate::message::Msg;

/// What messages a channel takes: the function of Zephyr's `ZBUS_CHAN_DEFINE`.
#[derive(Clone, Copy, Debug, PartialEq, Eq)]
pub enum Valid {
    /// All of them.
    Any,
    /// Those whose first byte isn't above this.
    Max(u8),
}

impl Valid {
    /// The validator takes the message.
    pub fn takes(self, message: &Msg) -> bool
        ensures { result ≡ is_valid self message.now }
    {
        match (self, message.bytes().first()) {
            (Valid::Max(bound), Some(first)) => *first <= bound,
            _ => true,
        }
    }
}
