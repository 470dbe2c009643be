ghost use Rattle.std.specs.Prelude.{◌≡◌, true};
ghost use Rattle.zk_msgsub.specs.Fan.{are_subscribers};

use crate::fan_state::FanState;
use zk_base::Recorded;

/// The subscribers that are listed, with its history. What zbus keeps as the runtime observers of a channel.
#[derive(Drop)]
pub struct Fan {
    pub(crate) inner: Recorded<FanState>,
    ghost first: { are_subscribers inner.start.listed ≡ true },
}
