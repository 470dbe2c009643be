ghost use Rattle.std.specs.Prelude.{◌<◌, All, IfOk, vec_len};
ghost use Rattle.zk_feed.specs.Lasts.{HasTaken};

use std::alloc::Global;
use zk_base::{NoMemory, push_within};
use zk_msgsub::PubSeat;

/// Takes the last seat of each line, in the order of the lines.
pub fn last_of_each(alloc: Global, lines: &mut Vec<Vec<PubSeat>>) -> Result<Vec<PubSeat>, NoMemory>
    requires some { All (λ line. 0 < vec_len line) lines.old.items }
    ensures taken { IfOk result (λ lasts. HasTaken lines.old.items lines.new.items lasts.items) }
{
    let mut lasts = Vec::with_capacity(alloc, lines.len())?;
    for line in lines.iter_mut() {
        let Some(last) = line.pop() else {
            unreachable!()
        };
        push_within(&mut lasts, last);
    }
    Ok(lasts)
}
