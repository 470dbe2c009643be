ghost use Rattle.std.specs.Prelude.{◌≡◌, true, false, is_some, [], None, Some, option_map, if◌then◌else◌, IfOk, MatchOption};
ghost use Rattle.std.specs.List.{list_all};
ghost use Rattle.std.specs.Option.{option_flatten};
ghost use Rattle.zk_words.specs.Hex.{is_hex, msg_of};
ghost use Rattle.zk_words.specs.Numbers.{number_in, priority_of};
ghost use Rattle.zk_words.specs.Spelled.{is_spelled_in, part_is_spelled};
ghost use Rattle.zk_line.specs.Args.{truth_of, ref_of, arg_of, args_of};
ghost use Rattle.zk_words.specs.Timeouts.{wait_of};
ghost use Rattle.zk_words.specs.Validators.{validator_of};
ghost use Rattle.zk_line.specs.Checks.{size_said, is_in_range, hex_in_range, are_in_range, is_right_object, is_well_named, are_well_named};
ghost use Rattle.zk_line.specs.Weights.{Weighs, or_wrong};

use crate::arg_list::Args;
use crate::checks::{are_in_range, go_together, hex_in_range, name_once, size_named};
use crate::events::{Event, event_at};
use crate::kinds::{can_be_raw_at, meets_at, plays_at};
use crate::objects::Objects;
use crate::types::{Arg, Ref};
use zk_base::{Name, NoMemory};
use zk_words::{
    Choice, Head, Need, Parts, Slot, choice_text, event_named, is_ignore, msg_of, need_of,
    number_in, priority_of, validator_of, wait_of,
};

/// What speaks against a word in its slot, or against a line's words in theirs.
#[derive(Clone, Copy)]
pub enum Wrong {
    /// A number is out of its range.
    OutOfRange,
    /// No number is, and a name may not stand where it does.
    Misnamed,
}

/// What speaks against the words of a line; where nothing does, the arguments are what they say. Each
/// name is looked up once. In a free line any name may stand for an object.
#[tactic(auto, using(crate::proofs::ReadTo::in_range_next))]
pub fn judge_words(
    args: &mut Args,
    objects: &Objects,
    free: bool,
    head: Head,
    parts: &Parts<'_>,
) -> Result<Option<Wrong>, NoMemory>
    requires empty { args.old ≡ [] }
    requires spelled { list_all part_is_spelled parts.now ≡ true }
    ensures { IfOk result (λ wrong. Weighs
        (are_in_range objects.now head parts.now) (are_well_named free objects.now parts.now) (args_of objects.now parts.now)
        (or_wrong wrong args.new)) }
{
    if !go_together(head, parts) {
        return Ok(Some(Wrong::OutOfRange));
    }
    let mut left = parts.again();
    while let Some(part) = left.next() {
        match arg_in_slot(objects, free, args.items(), part.slot, part.text) {
            Ok(arg) => args.push(arg)?,
            Err(Wrong::OutOfRange) => return Ok(Some(Wrong::OutOfRange)),
            Err(Wrong::Misnamed) => return Ok(Some(misnamed(are_in_range(objects, head, parts)))),
        }
    }
    if name_once(parts) {
        Ok(None)
    } else {
        Ok(Some(Wrong::Misnamed))
    }
}

/// What speaks against a line in which a name is wrong, and the numbers are in range or not.
fn misnamed(in_range: bool) -> Wrong
    ensures { result ≡ (if in_range then Wrong.Misnamed else Wrong.OutOfRange) }
{
    if in_range {
        Wrong::Misnamed
    } else {
        Wrong::OutOfRange
    }
}

/// What a word is worth in its slot, behind those that say these.
pub fn arg_in_slot(
    objects: &Objects,
    free: bool,
    said: &[Arg],
    slot: Slot,
    word: &[u8],
) -> Result<Arg, Wrong>
    requires { is_spelled_in slot word.now ≡ true }
    ensures { Weighs (is_in_range (size_said objects.now said.now) slot word.now)
        (is_well_named free objects.now slot word.now) (arg_of objects.now slot word.now) result }
{
    match slot {
        Slot::New => new_name(objects, word),
        Slot::Owner => owner(objects, word),
        Slot::Object(need) => object(objects, free, need, word),
        Slot::Rawable => rawable(objects, word),
        Slot::Number(least, most) => number(least, most, word),
        Slot::Priority => priority(word),
        Slot::Either(choice) => Ok(Arg::Truth(choice, truth(choice, word))),
        Slot::Hex => message(size_said(objects, said), word),
        Slot::Wait => wait(word),
        Slot::Event => event(objects, free, word),
        Slot::Valid => validator(word),
        Slot::Raw => raw(word),
    }
}

fn new_name(objects: &Objects, word: &[u8]) -> Result<Arg, Wrong>
    ensures { Weighs true
        (is_well_named false objects.now Slot.New word.now) (arg_of objects.now Slot.New word.now) result }
{
    let Some(name) = Name::new(word) else {
        return Err(Wrong::Misnamed);
    };
    if objects.find(word).is_some() {
        Err(Wrong::Misnamed)
    } else {
        Ok(Arg::Name(name))
    }
}

fn owner(objects: &Objects, word: &[u8]) -> Result<Arg, Wrong>
    ensures { Weighs true
        (is_well_named false objects.now Slot.Owner word.now) (arg_of objects.now Slot.Owner word.now) result }
{
    let Some(object) = objects.find(word) else {
        return Err(Wrong::Misnamed);
    };
    if plays_at(objects.decls(), object) {
        Ok(Arg::Object(Ref::Known(object)))
    } else {
        Err(Wrong::Misnamed)
    }
}

fn object(objects: &Objects, free: bool, need: Need, word: &[u8]) -> Result<Arg, Wrong>
    ensures { Weighs true
        (is_right_object free objects.now need word.now) (option_map Arg.Object (ref_of objects.now word.now)) result }
{
    match right_object(objects, free, need, word) {
        Some(object) => Ok(Arg::Object(object)),
        None => Err(Wrong::Misnamed),
    }
}

/// The object of a name that may stand where a need is asked.
fn right_object(objects: &Objects, free: bool, need: Need, word: &[u8]) -> Option<Ref>
    ensures { MatchOption result (is_right_object free objects.now need word.now ≡ false)
        (λ object. (is_right_object free objects.now need word.now ≡ true) × (ref_of objects.now word.now ≡ Some object)) }
{
    match objects.find(word) {
        Some(object) => {
            if free || meets_at(need, objects.decls(), object) {
                Some(Ref::Known(object))
            } else {
                None
            }
        }
        None => {
            if free {
                Name::new(word).map(Ref::Unknown)
            } else {
                None
            }
        }
    }
}

fn rawable(objects: &Objects, word: &[u8]) -> Result<Arg, Wrong>
    ensures { Weighs true
        (is_well_named false objects.now Slot.Rawable word.now) (arg_of objects.now Slot.Rawable word.now) result }
{
    let Some(object) = objects.find(word) else {
        return Err(Wrong::Misnamed);
    };
    if can_be_raw_at(objects.decls(), object) {
        Ok(Arg::Object(Ref::Known(object)))
    } else {
        Err(Wrong::Misnamed)
    }
}

fn event(objects: &Objects, free: bool, word: &[u8]) -> Result<Arg, Wrong>
    ensures { Weighs true
        (is_well_named free objects.now Slot.Event word.now) (arg_of objects.now Slot.Event word.now) result }
{
    if is_ignore(word) {
        return Ok(Arg::Event(Event::Ignore));
    }
    let Some(asked) = event_named(word) else {
        return Err(Wrong::Misnamed);
    };
    match right_object(objects, free, need_of(asked.source), asked.name) {
        Some(object) => Ok(Arg::Event(event_at(asked.source, object))),
        None => Err(Wrong::Misnamed),
    }
}

fn number(least: u32, most: u32, word: &[u8]) -> Result<Arg, Wrong>
    ensures { Weighs (is_in_range None (Slot.Number least most) word.now) true
        (option_map Arg.Number (number_in least most word.now)) result }
{
    match number_in(least, most, word) {
        Some(number) => Ok(Arg::Number(number)),
        None => Err(Wrong::OutOfRange),
    }
}

fn priority(word: &[u8]) -> Result<Arg, Wrong>
    ensures { Weighs (is_in_range None Slot.Priority word.now) true
        (option_map Arg.Priority (option_flatten (priority_of word.now))) result }
{
    match priority_of(word) {
        Some(Some(prio)) => Ok(Arg::Priority(prio)),
        _ => Err(Wrong::OutOfRange),
    }
}

/// How many bytes a message has behind words that say these.
pub fn size_said(objects: &Objects, said: &[Arg]) -> Option<usize>
    ensures { result ≡ size_said objects.now said.now }
{
    match said {
        [first, ..] => size_named(objects, first),
        [] => None,
    }
}

/// The message that hexadecimal digits spell, where it isn't too long, and of the size that is asked for, if one is.
pub fn message(size: Option<usize>, word: &[u8]) -> Result<Arg, Wrong>
    requires { is_hex word.now ≡ true }
    ensures { Weighs (hex_in_range size word.now) true (option_map Arg.Bytes (msg_of word.now)) result }
{
    if !hex_in_range(size, word) {
        return Err(Wrong::OutOfRange);
    }
    match msg_of(word) {
        Some(message) => Ok(Arg::Bytes(message)),
        None => Err(Wrong::OutOfRange),
    }
}

fn wait(word: &[u8]) -> Result<Arg, Wrong>
    ensures { Weighs (is_some (wait_of word.now)) true (option_map Arg.Wait (wait_of word.now)) result }
{
    match wait_of(word) {
        Some(wait) => Ok(Arg::Wait(wait)),
        None => Err(Wrong::OutOfRange),
    }
}

fn validator(word: &[u8]) -> Result<Arg, Wrong>
    requires { is_some (validator_of word.now) ≡ true }
    ensures { Weighs true true (option_map Arg.Valid (validator_of word.now)) result }
{
    match validator_of(word) {
        Some(valid) => Ok(Arg::Valid(valid)),
        None => Err(Wrong::Misnamed),
    }
}

fn raw(word: &[u8]) -> Result<Arg, Wrong>
    requires { is_spelled_in Slot.Raw word.now ≡ true }
    ensures { Weighs true true (arg_of [] Slot.Raw word.now) result }
{
    if word == b"raw".as_slice() {
        Ok(Arg::Raw)
    } else {
        Err(Wrong::Misnamed)
    }
}

/// Which of the two words of a choice it is.
#[tactic(auto, using(crate::proofs::Choices::truth_of_spelled))]
fn truth(choice: Choice, word: &[u8]) -> bool
    requires { is_spelled_in (Slot.Either choice) word.now ≡ true }
    ensures { truth_of choice word.now ≡ Some result }
{
    word == choice_text(choice, true)
}
