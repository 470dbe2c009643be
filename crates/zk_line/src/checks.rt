ghost use Rattle.std.specs.Prelude.{◌≡◌, is_some};
ghost use Rattle.std.specs.Option.{option_flatten};
ghost use Rattle.zk_words.specs.Numbers.{priority_of};
ghost use Rattle.zk_line.specs.Checks.{first_object, size_named, message_size, is_in_range, each_in_range, is_up_to, go_together, are_in_range, is_size, hex_in_range, is_event_slot, is_observer_slot, names_observer, name_once, has_many_observers, has_many_events};

use crate::events::MOST_EVENTS;
use crate::kinds::size_at;
use crate::objects::Objects;
use crate::types::{Arg, Ref};
use zk_base::{LONGEST_MESSAGE, MOST_FEW};
use zk_words::{Head, Kind, MOST_COUNT, Need, Parts, Slot, number_in, priority_of, wait_of};

/// The object that the first word behind a head names.
pub fn first_object(objects: &Objects, parts: &Parts<'_>) -> Option<u32>
    ensures { result ≡ first_object objects.now parts.now }
{
    let mut parts = parts.again();
    match parts.next() {
        Some(part) => objects.find(part.text),
        None => None,
    }
}

/// Whether no number of a line is out of its range, and no message of the wrong size.
pub fn are_in_range(objects: &Objects, head: Head, parts: &Parts<'_>) -> bool
    ensures { result ≡ are_in_range objects.now head parts.now }
{
    each_in_range(message_size(objects, parts), parts) && go_together(head, parts)
}

/// How many bytes each message of what an argument names has, if it names something that has messages.
pub fn size_named(objects: &Objects, arg: &Arg) -> Option<usize>
    ensures { result ≡ size_named objects.now arg.now }
{
    match arg {
        Arg::Object(Ref::Known(object)) => size_at(objects.decls(), *object),
        _ => None,
    }
}

fn message_size(objects: &Objects, parts: &Parts<'_>) -> Option<usize>
    ensures { result ≡ message_size objects.now parts.now }
{
    let mut parts = parts.again();
    let part = parts.next()?;
    match part.slot {
        Slot::Owner => size_at(objects.decls(), objects.find(part.text)?),
        Slot::Object(_) => size_at(objects.decls(), objects.find(part.text)?),
        Slot::Rawable => size_at(objects.decls(), objects.find(part.text)?),
        _ => None,
    }
}

fn each_in_range(size: Option<usize>, parts: &Parts<'_>) -> bool
    ensures { result ≡ each_in_range size parts.now }
{
    let mut parts = parts.again();
    while let Some(part) = parts.next() {
        if !is_in_range(size, part.slot, part.text) {
            return false;
        }
    }
    true
}

fn is_in_range(size: Option<usize>, slot: Slot, word: &[u8]) -> bool
    ensures { result ≡ is_in_range size slot word.now }
{
    match slot {
        Slot::Number(least, most) => number_in(least, most, word).is_some(),
        Slot::Priority => is_priority(word),
        Slot::Hex => hex_in_range(size, word),
        Slot::Wait => wait_of(word).is_some(),
        _ => true,
    }
}

fn is_priority(word: &[u8]) -> bool
    ensures { result ≡ is_some (option_flatten (priority_of word.now)) }
{
    match priority_of(word) {
        Some(prio) => prio.is_some(),
        None => false,
    }
}

/// Whether hexadecimal digits spell a message of the size that is asked for, if one is.
pub fn hex_in_range(size: Option<usize>, word: &[u8]) -> bool
    ensures { result ≡ hex_in_range size word.now }
{
    word.len() <= 2 * LONGEST_MESSAGE && is_size(size, word.len() / 2)
}

fn is_size(size: Option<usize>, bytes: usize) -> bool
    ensures { result ≡ is_size size bytes }
{
    match size {
        Some(size) => bytes == size,
        None => true,
    }
}

/// Whether the numbers of a line go together.
pub fn go_together(head: Head, parts: &Parts<'_>) -> bool
    ensures { result ≡ go_together head parts.now }
{
    match head {
        Head::Declare(Kind::Sem) => counts_go_together(parts),
        Head::Declare(Kind::Chan) => message_has_size(parts),
        _ => true,
    }
}

/// Whether the count that a semaphore begins with isn't above its limit.
fn counts_go_together(parts: &Parts<'_>) -> bool
    ensures { result ≡ go_together (Head.Declare Kind.Sem) parts.now }
{
    let mut parts = parts.again();
    match (parts.next(), parts.next(), parts.next()) {
        (Some(_), Some(initial), Some(limit)) => is_up_to(initial.text, limit.text),
        _ => true,
    }
}

/// Whether the first message of a channel has the size that stands before it.
fn message_has_size(parts: &Parts<'_>) -> bool
    ensures { result ≡ go_together (Head.Declare Kind.Chan) parts.now }
{
    let mut parts = parts.again();
    match (parts.next(), parts.next(), parts.next()) {
        (Some(_), Some(size), Some(message)) => is_size(
            number_in(1, LONGEST_MESSAGE as u32, size.text).map(|size| size as usize),
            message.text.len() / 2,
        ),
        _ => true,
    }
}

fn is_up_to(initial: &[u8], limit: &[u8]) -> bool
    ensures { result ≡ is_up_to initial.now limit.now }
{
    match number_in(1, MOST_COUNT, limit) {
        Some(most) => number_in(0, most, initial).is_some(),
        None => false,
    }
}

/// Whether no observer is named twice.
pub fn name_once(parts: &Parts<'_>) -> bool
    ensures { result ≡ name_once parts.now }
{
    let mut parts = parts.again();
    while let Some(part) = parts.next() {
        if is_observer_slot(part.slot) && names_observer(part.text, &parts) {
            return false;
        }
    }
    true
}

/// Whether one of the words names this observer.
fn names_observer(name: &[u8], parts: &Parts<'_>) -> bool
    ensures { result ≡ names_observer name.now parts.now }
{
    let mut parts = parts.again();
    while let Some(part) = parts.next() {
        if is_observer_slot(part.slot) && part.text == name {
            return true;
        }
    }
    false
}

fn is_observer_slot(slot: Slot) -> bool
    ensures { result ≡ is_observer_slot slot }
{
    match slot {
        Slot::Object(Need::Obs) => true,
        _ => false,
    }
}

/// Whether a line names more observers than a channel may have.
pub fn has_many_observers(parts: &Parts<'_>) -> bool
    ensures { result ≡ has_many_observers parts.now }
{
    let mut parts = parts.again();
    let mut observers = 0;
    while let Some(part) = parts.next() {
        if is_observer_slot(part.slot) {
            if MOST_FEW <= observers {
                return true;
            }
            observers += 1;
        }
    }
    false
}

/// Whether a line has more events than a poll may have.
pub fn has_many_events(parts: &Parts<'_>) -> bool
    ensures { result ≡ has_many_events parts.now }
{
    let mut parts = parts.again();
    let mut events = 0;
    while let Some(part) = parts.next() {
        if is_event_slot(part.slot) {
            if MOST_EVENTS <= events {
                return true;
            }
            events += 1;
        }
    }
    false
}

fn is_event_slot(slot: Slot) -> bool
    ensures { result ≡ is_event_slot slot }
{
    match slot {
        Slot::Event => true,
        _ => false,
    }
}
