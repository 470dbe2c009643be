use crate::print::put_reply;
use crate::read::read_op;
use zk_base::NoMemory;
use zk_model_trigger::{TriggerOp, TriggerReply};
use zk_paper::Paper;
use zk_side::Side;
use zk_trigger::Trigger;
use zk_words::Words;

/// How side scripts spell triggered work.
pub struct TriggerSide;

impl Side for TriggerSide {
    type Target = Trigger;

    ghost use Rattle.zk_trigger_script.specs.Operations.{trigger_op};
    ghost use Rattle.zk_trigger_script.specs.Replies.{trigger_text};

    ghost op_of = { trigger_op };

    ghost reply_text = { trigger_text };

    fn read_op(words: Words<'_>) -> Option<TriggerOp> {
        read_op(words)
    }

    fn put_reply(out: &mut Paper, reply: &TriggerReply) -> Result<(), NoMemory> {
        put_reply(out, reply)
    }
}
