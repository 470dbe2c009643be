ghost use Rattle.std.specs.Prelude.{◌≡◌, ◌<◌, true, length, IfOk};
ghost use Rattle.zk_base.specs.History.{IsAbove};
ghost use Rattle.zk_base.specs.Limits.{most_entries};
ghost use Rattle.zk_alike.specs.Answers.{Answers};

use crate::alike::Alike;
use zk_base::{Entry, NoMemory, Service};

/// Makes an entry anew, and says whether it is answered as it was.
pub fn answers<S: Service>(
    service: &mut S,
    entry: &Entry<S::Op, S::Reply>,
) -> Result<bool, NoMemory>
where
    S::Op: Copy,
    S::Reply: Alike,
    requires later { IsAbove (S.history service.old) entry.now.who.number entry.now.step }
    requires range { S.machine.in_range (S.start service.old) entry.now.op ≡ true }
    requires short { length (S.history service.old) < most_entries }
    ensures answers { IfOk result (λ answers.
        Answers S.machine (S.start service.old) (S.history service.old) entry.now (S.history service.new) answers) }
    ensures start { S.start service.new ≡ S.start service.old }
{
    match service.act(entry.who, entry.step, entry.op)? {
        Some(reply) => Ok(reply.is_like(&entry.reply)),
        None => Ok(false),
    }
}
