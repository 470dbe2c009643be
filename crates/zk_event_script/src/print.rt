ghost use Rattle.std.specs.Prelude.{◌≡◌, ◌++◌, OnOk};
ghost use Rattle.zk_event_script.specs.Replies.{event_text};

use zk_base::NoMemory;
use zk_event::EventReply;
use zk_paper::Paper;

/// Appends a reply of an event object.
pub fn put_reply(out: &mut Paper, reply: &EventReply) -> Result<(), NoMemory>
    ensures text { OnOk result (out.new.put ≡ out.old.put ++ event_text reply.now) }
    ensures front { out.new.front ≡ out.old.front }
{
    match *reply {
        EventReply::Was(bits) => out.put_numbered(b"was", b' ', u64::from(bits)),
        EventReply::Bits(bits) => out.put_numbered(b"bits", b' ', u64::from(bits)),
        EventReply::Wait => out.put(b"wait"),
    }
}
