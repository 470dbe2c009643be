ghost use Rattle.std.specs.Prelude.{◌≡◌, true, IfSome};
ghost use Rattle.zk_model_trigger.specs.Machine.{Triggers, trigger_machine};
ghost use Rattle.zk_trigger_script.specs.Operations.{trigger_op, arm_of};

use crate::limits::{GREATEST_EVENT, GREATEST_ITEM, GREATEST_QUEUE, MOST_TICKS};
use zk_model_trigger::TriggerOp;
use zk_side::{are_none, few_in, number_or_none, only_number_in};
use zk_words::{Words, number_in};

/// Reads an operation of triggered work. What is read is in its range.
pub fn read_op(words: Words<'_>) -> Option<TriggerOp>
    ensures op { result ≡ trigger_op words.entry }
    ensures range { (s : Triggers) → IfSome result (λ op. trigger_machine.in_range s op ≡ true) }
{
    let mut words = words;
    let verb = words.next()?;
    if verb == b"arm".as_slice() {
        return read_arm(words);
    }
    if verb == b"post".as_slice() {
        return Some(TriggerOp::Post(only_number_in(0, GREATEST_EVENT, words)?));
    }
    if verb == b"unpost".as_slice() {
        return Some(TriggerOp::Unpost(only_number_in(0, GREATEST_EVENT, words)?));
    }
    if verb == b"tick".as_slice() {
        return Some(TriggerOp::Tick(only_number_in(1, MOST_TICKS, words)?));
    }
    if verb == b"cancel".as_slice() {
        return Some(TriggerOp::Cancel(only_number_in(0, GREATEST_ITEM, words)?));
    }
    if verb == b"next".as_slice() && are_none(words) {
        return Some(TriggerOp::Next);
    }
    None
}

/// Reads what stands behind `arm`: the item, the queue, the ticks, and the events.
fn read_arm(words: Words<'_>) -> Option<TriggerOp>
    ensures { result ≡ arm_of words.entry }
{
    let mut words = words;
    let item = number_in(0, GREATEST_ITEM, words.next()?)?;
    let queue = number_in(0, GREATEST_QUEUE, words.next()?)?;
    let ticks = number_or_none(1, MOST_TICKS, words.next()?)?;
    let events = few_in(0, GREATEST_EVENT, words)?;
    Some(TriggerOp::Arm(item, queue, events, ticks))
}
