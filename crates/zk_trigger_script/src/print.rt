ghost use Rattle.std.specs.Prelude.{◌≡◌, ◌++◌, OnOk};
ghost use Rattle.zk_trigger_script.specs.Replies.{trigger_text, fire_text, cause_text};

use zk_base::NoMemory;
use zk_model_trigger::{Cause, TriggerReply};
use zk_paper::Paper;

/// Appends a reply of triggered work.
pub fn put_reply(out: &mut Paper, reply: &TriggerReply) -> Result<(), NoMemory>
    ensures text { OnOk result (out.new.put ≡ out.old.put ++ trigger_text reply.now) }
    ensures front { out.new.front ≡ out.old.front }
{
    match *reply {
        TriggerReply::Armed(number) => out.put_numbered(b"armed", b' ', number),
        TriggerReply::Busy => out.put(b"busy"),
        TriggerReply::Done => out.put(b"ok"),
        TriggerReply::Inval => out.put(b"inval"),
        TriggerReply::Now(ticks) => out.put_numbered(b"now", b' ', ticks),
        TriggerReply::Fire(number, item, queue, cause) => put_fire(out, number, item, queue, cause),
    }
}

fn put_fire(
    out: &mut Paper,
    number: u64,
    item: u32,
    queue: u32,
    cause: Cause,
) -> Result<(), NoMemory>
    ensures text { OnOk result (out.new.put ≡ out.old.put ++ fire_text number item queue cause) }
    ensures front { out.new.front ≡ out.old.front }
{
    out.put_numbered(b"fire", b' ', number)?;
    out.push(b' ')?;
    out.put_number(u64::from(item))?;
    out.push(b' ')?;
    out.put_number(u64::from(queue))?;
    put_cause(out, cause)
}

fn put_cause(out: &mut Paper, cause: Cause) -> Result<(), NoMemory>
    ensures text { OnOk result (out.new.put ≡ out.old.put ++ cause_text cause) }
    ensures front { out.new.front ≡ out.old.front }
{
    match cause {
        Cause::Event(event) => out.put_numbered(b" event", b' ', u64::from(event)),
        Cause::Time => out.put(b" time"),
    }
}
