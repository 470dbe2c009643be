use crate::print::put_reply;
use crate::read::read_op;
use zk_base::NoMemory;
use zk_event::{Event, EventOp, EventReply};
use zk_paper::Paper;
use zk_side::Side;
use zk_words::Words;

/// How side scripts spell an event object.
pub struct EventSide;

impl Side for EventSide {
    type Target = Event;

    ghost use Rattle.zk_event_script.specs.Operations.{event_op};
    ghost use Rattle.zk_event_script.specs.Replies.{event_text};

    ghost op_of = { event_op };

    ghost reply_text = { event_text };

    fn read_op(words: Words<'_>) -> Option<EventOp> {
        read_op(words)
    }

    fn put_reply(out: &mut Paper, reply: &EventReply) -> Result<(), NoMemory> {
        put_reply(out, reply)
    }
}
