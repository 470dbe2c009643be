ghost use Rattle.std.specs.Prelude.{◌≡◌, Bool, true, ◌||◌, List, [], ◌∷◌, ◌++◌, map, IfOk};
ghost use Rattle.std.specs.List.{list_any};
ghost use Rattle.zk_words.specs.declared.slot.Slot.TheVariants as slots;
ghost use Rattle.zk_words.specs.Events.{asks};
ghost use Rattle.zk_words.specs.Parts.{placed, rest_parts, parts_of, rest_fits, fits};
ghost use Rattle.zk_line.specs.declared.types.Decl.{Decl};
ghost use Rattle.zk_line.specs.Objects.{AreNames, is_at, is_met};
ghost use Rattle.zk_line.specs.Right.{AreRight, Says};

use crate::arg_list::Args;
use crate::events::{Event, event_at};
use crate::kinds::meets_at;
use crate::objects::Objects;
use crate::types::{Arg, Ref};
use crate::weights::{arg_in_slot, message, size_said};
use zk_base::NoMemory;
use zk_words::{
    Need, Rest, Row, Slot, Words, event_named, is_hex, is_ignore, is_spelled_in, need_of,
    number_in, wait_of,
};

/// Reads the words behind the first of a line, each cut and looked at once. Where all are right, the answer is true and
/// the arguments are what they say, behind those that stood there. Where one isn't, `judge_words` says what speaks
/// against it; a row with any number of names isn't read so.
pub fn say_words(
    args: &mut Args,
    objects: &Objects,
    free: bool,
    row: &Row,
    words: Words<'_>,
) -> Result<bool, NoMemory>
    requires { AreNames objects.now }
    ensures { IfOk result (λ right. right ≡ true → (fits row.now.slots row.now.rest words.entry ≡ true)
        × AreRight free objects.now args.old (parts_of row.now.slots row.now.rest words.entry) args.new) }
{
    let mut words = words;
    let mut slots = row.slots;
    while let [slot, more @ ..] = slots {
        let Some(word) = words.next() else {
            return Ok(false);
        };
        if !say_word(args, objects, free, *slot, word)? {
            return Ok(false);
        }
        slots = more;
    }
    let right = say_rest(args, objects, free, row.rest, words)?;
    Ok(right)
}

/// Reads those behind the slots.
#[tactic(auto, using(crate::proofs::SaidWords::nothing_left, crate::proofs::SaidWords::maybe_none, crate::proofs::SaidWords::maybe_last))]
fn say_rest(
    args: &mut Args,
    objects: &Objects,
    free: bool,
    rest: Rest,
    words: Words<'_>,
) -> Result<bool, NoMemory>
    requires { AreNames objects.now }
    ensures { IfOk result (λ right. right ≡ true → (rest_fits rest words.entry ≡ true)
        × AreRight free objects.now args.old (rest_parts rest words.entry) args.new) }
{
    let mut words = words;
    match rest {
        Rest::Nothing => match words.next() {
            Some(_) => Ok(false),
            None => Ok(true),
        },
        Rest::Maybe(slot) => {
            let Some(word) = words.next() else {
                return Ok(true);
            };
            if words.next().is_some() {
                return Ok(false);
            }
            let right = say_word(args, objects, free, slot, word)?;
            Ok(right)
        }
        Rest::Many(_) => Ok(false),
        Rest::Events => say_events(args, objects, free, words),
    }
}

/// Reads the events of a poll.
#[inline(never)]
fn say_events(
    args: &mut Args,
    objects: &Objects,
    free: bool,
    words: Words<'_>,
) -> Result<bool, NoMemory>
    requires { AreNames objects.now }
    ensures { IfOk result (λ right. right ≡ true → (list_any asks words.entry ≡ true)
        × AreRight free objects.now args.old (map (placed slots.Event) words.entry) args.new) }
{
    let mut words = words;
    let mut asks = false;
    while let Some(word) = words.next() {
        if !say_event(args, objects, free, word)? {
            return Ok(false);
        }
        asks = asks_then(asks, word);
    }
    Ok(asks)
}

/// Reads a word in its slot.
fn say_word(
    args: &mut Args,
    objects: &Objects,
    free: bool,
    slot: Slot,
    word: &[u8],
) -> Result<bool, NoMemory>
    requires { AreNames objects.now }
    ensures { IfOk result (λ right. right ≡ true → Says free objects.now args.old slot word.now args.new) }
{
    match slot {
        Slot::Object(need) => say_object(args, objects, free, need, word),
        Slot::Wait => say_wait(args, word),
        Slot::Number(least, most) => say_number(args, least, most, word),
        Slot::Hex => say_message(args, objects, word),
        _ => say_other(args, objects, free, slot, word),
    }
}

/// One that names an object.
#[tactic(auto, using(crate::proofs::RightWords::known_says))]
#[inline(never)]
fn say_object(
    args: &mut Args,
    objects: &Objects,
    free: bool,
    need: Need,
    word: &[u8],
) -> Result<bool, NoMemory>
    requires { AreNames objects.now }
    ensures { IfOk result (λ right. right ≡ true → Says free objects.now args.old (slots.Object need) word.now args.new) }
{
    let Some(object) = objects.find(word) else {
        return say_other(args, objects, free, Slot::Object(need), word);
    };
    if !may_stand(objects, free, need, object) {
        return Ok(false);
    }
    args.push(Arg::Object(Ref::Known(object)))?;
    Ok(true)
}

/// An event of a poll.
#[tactic(auto, using(crate::proofs::RightWords::ignore_says))]
#[inline(never)]
fn say_event(args: &mut Args, objects: &Objects, free: bool, word: &[u8]) -> Result<bool, NoMemory>
    requires { AreNames objects.now }
    ensures { IfOk result (λ right. right ≡ true → Says free objects.now args.old slots.Event word.now args.new) }
{
    if is_ignore(word) {
        args.push(Arg::Event(Event::Ignore))?;
        return Ok(true);
    }
    let Some(asked) = event_named(word) else {
        return Ok(false);
    };
    let Some(object) = objects.find(asked.name) else {
        return say_other(args, objects, free, Slot::Event, word);
    };
    if !may_stand(objects, free, need_of(asked.source), object) {
        return Ok(false);
    }
    args.push(Arg::Event(event_at(asked.source, Ref::Known(object))))?;
    Ok(true)
}

/// Whether a declared object may stand where a need is asked: in a free line any may.
fn may_stand(objects: &Objects, free: bool, need: Need, object: u32) -> bool
    ensures { result ≡ (free || is_at (is_met need) objects.now object) }
{
    free || meets_at(need, objects.decls(), object)
}

/// Whether a word of events asks for something, or one before it does.
fn asks_then(before: bool, word: &[u8]) -> bool
    ensures { result ≡ (before || asks word.now) }
{
    before || !is_ignore(word)
}

/// How long is waited.
#[tactic(auto, using(crate::proofs::RightWords::wait_says))]
fn say_wait(args: &mut Args, word: &[u8]) -> Result<bool, NoMemory>
    ensures { (free : Bool) → (decls : List Decl) → IfOk result (λ right. right ≡ true →
        Says free decls args.old slots.Wait word.now args.new) }
{
    match wait_of(word) {
        Some(wait) => {
            args.push(Arg::Wait(wait))?;
            Ok(true)
        }
        None => Ok(false),
    }
}

/// A number.
#[tactic(auto, using(crate::proofs::RightWords::number_says))]
fn say_number(args: &mut Args, least: u32, most: u32, word: &[u8]) -> Result<bool, NoMemory>
    ensures { (free : Bool) → (decls : List Decl) → IfOk result (λ right. right ≡ true →
        Says free decls args.old (slots.Number least most) word.now args.new) }
{
    match number_in(least, most, word) {
        Some(number) => {
            args.push(Arg::Number(number))?;
            Ok(true)
        }
        None => Ok(false),
    }
}

/// A message.
#[tactic(auto, using(crate::proofs::RightWords::message_says))]
#[inline(never)]
fn say_message(args: &mut Args, objects: &Objects, word: &[u8]) -> Result<bool, NoMemory>
    ensures { (free : Bool) → IfOk result (λ right. right ≡ true → Says free objects.now args.old slots.Hex word.now args.new) }
{
    if !is_hex(word) {
        return Ok(false);
    }
    match message(size_said(objects, args.items()), word) {
        Ok(message) => {
            args.push(message)?;
            Ok(true)
        }
        Err(_) => Ok(false),
    }
}

/// A word of any slot.
#[tactic(auto, using(crate::proofs::RightWords::word_says))]
#[inline(never)]
fn say_other(
    args: &mut Args,
    objects: &Objects,
    free: bool,
    slot: Slot,
    word: &[u8],
) -> Result<bool, NoMemory>
    ensures { IfOk result (λ right. right ≡ true → Says free objects.now args.old slot word.now args.new) }
{
    if !is_spelled_in(slot, word) {
        return Ok(false);
    }
    match arg_in_slot(objects, free, args.items(), slot, word) {
        Ok(arg) => {
            args.push(arg)?;
            Ok(true)
        }
        Err(_) => Ok(false),
    }
}
