ghost use Rattle.std.specs.Prelude.{◌≡◌, ◌≤◌, true, IfSome};
ghost use Rattle.zk_words.specs.Numbers.{number_in};
ghost use Rattle.zk_side.specs.Slots.{only};
ghost use Rattle.zk_event.specs.Event.{Event, event_machine};
ghost use Rattle.zk_event_script.specs.Operations.{event_op, wait_of};

use crate::limits::GREATEST_BITS;
use zk_event::EventOp;
use zk_side::{are_none, one_of, only_exact_number};
use zk_words::{Words, number_in};

/// Reads an operation of an event object. What is read is in its range.
pub fn read_op(words: Words<'_>) -> Option<EventOp>
    ensures op { result ≡ event_op words.entry }
    ensures range { (s : Event) → IfSome result (λ op. event_machine.in_range s op ≡ true) }
{
    let mut words = words;
    let verb = words.next()?;
    if verb == b"wait".as_slice() {
        return read_wait(words);
    }
    if verb == b"post".as_slice() {
        return Some(EventOp::Post(only_bits(words)?));
    }
    if verb == b"set".as_slice() {
        return Some(EventOp::Set(only_bits(words)?));
    }
    if verb == b"clear".as_slice() {
        return Some(EventOp::Clear(only_bits(words)?));
    }
    if verb == b"end".as_slice() {
        return Some(EventOp::WaitEnd(only_exact_number(words)?));
    }
    if verb == b"quit".as_slice() {
        return Some(EventOp::WaitQuit(only_exact_number(words)?));
    }
    None
}

/// Reads what stands behind `wait`: the mask, whether for all of it, whether with a reset, and whether to wait.
fn read_wait(words: Words<'_>) -> Option<EventOp>
    ensures { result ≡ wait_of words.entry }
{
    let mut words = words;
    let mask = bits_in(1, words.next()?)?;
    let all = one_of(b"all", b"any", words.next()?)?;
    let reset = one_of(b"reset", b"keep", words.next()?)?;
    let waits = one_of(b"wait", b"no", words.next()?)?;
    if are_none(words) {
        Some(EventOp::Wait(mask, all, reset, waits))
    } else {
        None
    }
}

/// The bits that a word spells, which is the only one.
fn only_bits(words: Words<'_>) -> Option<u16>
    ensures { result ≡ only (number_in 0 GREATEST_BITS) words.entry }
{
    let mut words = words;
    let word = words.next()?;
    if words.next().is_some() {
        return None;
    }
    bits_in(0, word)
}

/// The bits that a word spells, from the least on.
fn bits_in(least: u32, word: &[u8]) -> Option<u16>
    ensures { result ≡ number_in least GREATEST_BITS word.now }
{
    match number_in(least, GREATEST_BITS, word) {
        Some(bits) => Some(narrowed(bits)),
        None => None,
    }
}

/// The same bits, in sixteen.
fn narrowed(bits: u32) -> u16
    requires { bits ≤ GREATEST_BITS }
    ensures { result ≡ bits }
{
    bits as u16
}
