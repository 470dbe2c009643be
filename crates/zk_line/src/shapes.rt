ghost use Rattle.std.specs.Prelude.{◌≡◌};
ghost use Rattle.zk_line.specs.Shapes.{as_name, as_object, as_number, as_result, as_priority, as_truth, as_bytes, as_wait, as_event, as_known, events_of, wait_events, objects_of, channel_parts, raw_of, one, two, three, one_raw, three_raw, one_or_two};

use crate::events::{Event, Events, MOST_EVENTS};
use crate::types::{Arg, Ref};
use zk_base::{Few, MOST_FEW, Msg, Name};
use zk_words::{Choice, GREATEST_RESULT, Timeout, Valid, same_choice};

/// One object.
pub fn one_object(args: &[Arg]) -> Option<Ref>
    ensures { result ≡ one as_object args.now }
{
    match args {
        [Arg::Object(object)] => Some(*object),
        _ => None,
    }
}

/// One number.
pub fn one_number(args: &[Arg]) -> Option<u32>
    ensures { result ≡ one as_number args.now }
{
    match args {
        [Arg::Number(number)] => Some(*number),
        _ => None,
    }
}

/// Two objects.
pub fn two_objects(args: &[Arg]) -> Option<(Ref, Ref)>
    ensures { result ≡ two as_object as_object args.now }
{
    match args {
        [Arg::Object(first), Arg::Object(second)] => Some((*first, *second)),
        _ => None,
    }
}

/// An object, and perhaps another.
pub fn object_maybe(args: &[Arg]) -> Option<(Ref, Option<Ref>)>
    ensures { result ≡ one_or_two as_object as_object args.now }
{
    match args {
        [Arg::Object(object)] => Some((*object, None)),
        [Arg::Object(object), Arg::Object(other)] => Some((*object, Some(*other))),
        _ => None,
    }
}

/// Two objects and a number.
pub fn two_objects_number(args: &[Arg]) -> Option<(Ref, Ref, u32)>
    ensures { result ≡ three as_object as_object as_number args.now }
{
    match args {
        [Arg::Object(first), Arg::Object(second), Arg::Number(number)] => Some((
            *first, *second, *number,
        )),
        _ => None,
    }
}

/// Two objects and one of the two words of a choice.
pub fn two_objects_truth(choice: Choice, args: &[Arg]) -> Option<(Ref, Ref, bool)>
    ensures { result ≡ three as_object as_object (as_truth choice) args.now }
{
    match args {
        [
            Arg::Object(first),
            Arg::Object(second),
            Arg::Truth(other, truth),
        ] => {
            if same_choice(choice, *other) {
                Some((*first, *second, *truth))
            } else {
                None
            }
        }
        _ => None,
    }
}

/// An object and one of the two words of a choice.
pub fn object_truth(choice: Choice, args: &[Arg]) -> Option<(Ref, bool)>
    ensures { result ≡ two as_object (as_truth choice) args.now }
{
    match args {
        [Arg::Object(object), Arg::Truth(other, truth)] => {
            if same_choice(choice, *other) {
                Some((*object, *truth))
            } else {
                None
            }
        }
        _ => None,
    }
}

/// An object and a number.
pub fn object_number(args: &[Arg]) -> Option<(Ref, u32)>
    ensures { result ≡ two as_object as_number args.now }
{
    match args {
        [Arg::Object(object), Arg::Number(number)] => Some((*object, *number)),
        _ => None,
    }
}

/// An object, and the result that a signal is raised with.
pub fn object_result(args: &[Arg]) -> Option<(Ref, u16)>
    ensures { result ≡ two as_object as_result args.now }
{
    match args {
        [Arg::Object(object), Arg::Number(number)] => {
            if *number <= GREATEST_RESULT {
                Some((*object, *number as u16))
            } else {
                None
            }
        }
        _ => None,
    }
}

/// An object and how long is waited for it.
pub fn object_wait(args: &[Arg]) -> Option<(Ref, Timeout)>
    ensures { result ≡ two as_object as_wait args.now }
{
    match args {
        [Arg::Object(object), Arg::Wait(wait)] => Some((*object, *wait)),
        _ => None,
    }
}

/// An object and a message for it.
pub fn object_bytes(args: &[Arg]) -> Option<(Ref, Msg)>
    ensures { result ≡ two as_object as_bytes args.now }
{
    match args {
        [Arg::Object(object), Arg::Bytes(message)] => Some((*object, *message)),
        _ => None,
    }
}

/// An object, a message for it, and how long is waited for it.
pub fn object_bytes_wait(args: &[Arg]) -> Option<(Ref, Msg, Timeout)>
    ensures { result ≡ three as_object as_bytes as_wait args.now }
{
    match args {
        [Arg::Object(object), Arg::Bytes(message), Arg::Wait(wait)] => Some((
            *object, *message, *wait,
        )),
        _ => None,
    }
}

/// How long is waited, and for which events, if they are few.
pub fn wait_events(args: &[Arg]) -> Option<(Timeout, Events)>
    ensures { result ≡ wait_events args.now }
{
    match args {
        [Arg::Wait(wait), events @ ..] => match events_of(events) {
            Some(events) => Some((*wait, events)),
            None => None,
        },
        _ => None,
    }
}

fn events_of(args: &[Arg]) -> Option<Events>
    ensures { result ≡ events_of args.now }
{
    if MOST_EVENTS < args.len() {
        return None;
    }
    let mut events = [Event::Ignore; MOST_EVENTS];
    let mut len = 0;
    let mut left = args;
    while let [first, more @ ..] = left {
        let Some(event) = as_event(first) else {
            return None;
        };
        events[len] = event;
        len += 1;
        left = more;
    }
    Events::new(&events[..len])
}

fn as_event(arg: &Arg) -> Option<Event>
    ensures { result ≡ as_event arg.now }
{
    match arg {
        Arg::Event(event) => Some(*event),
        _ => None,
    }
}

/// One name.
pub fn one_name(args: &[Arg]) -> Option<Name>
    ensures { result ≡ one as_name args.now }
{
    match args {
        [Arg::Name(name)] => Some(*name),
        _ => None,
    }
}

/// A name, a priority and one of the two words of a choice.
pub fn name_priority_truth(choice: Choice, args: &[Arg]) -> Option<(Name, i8, bool)>
    ensures { result ≡ three as_name as_priority (as_truth choice) args.now }
{
    match args {
        [
            Arg::Name(name),
            Arg::Priority(prio),
            Arg::Truth(other, truth),
        ] => {
            if same_choice(choice, *other) {
                Some((*name, *prio, *truth))
            } else {
                None
            }
        }
        _ => None,
    }
}

/// A name, and perhaps `raw`.
pub fn name_raw(args: &[Arg]) -> Option<(Name, bool)>
    ensures { result ≡ one_raw as_name args.now }
{
    match args {
        [Arg::Name(name), behind @ ..] => match raw_of(behind) {
            Some(raw) => Some((*name, raw)),
            None => None,
        },
        _ => None,
    }
}

/// A name, two numbers, and perhaps `raw`.
pub fn name_two_numbers_raw(args: &[Arg]) -> Option<(Name, u32, u32, bool)>
    ensures { result ≡ three_raw as_name as_number as_number args.now }
{
    match args {
        [
            Arg::Name(name),
            Arg::Number(first),
            Arg::Number(second),
            behind @ ..,
        ] => match raw_of(behind) {
            Some(raw) => Some((*name, *first, *second, raw)),
            None => None,
        },
        _ => None,
    }
}

/// Whether `raw` is what stands there; nothing may stand there too.
fn raw_of(args: &[Arg]) -> Option<bool>
    ensures { result ≡ raw_of args.now }
{
    match args {
        [] => Some(false),
        [Arg::Raw] => Some(true),
        _ => None,
    }
}

/// A name and a number.
pub fn name_number(args: &[Arg]) -> Option<(Name, u32)>
    ensures { result ≡ two as_name as_number args.now }
{
    match args {
        [Arg::Name(name), Arg::Number(number)] => Some((*name, *number)),
        _ => None,
    }
}

/// A channel's name, its first message, behind the length of that, what messages it takes, and its observers.
pub fn channel_parts(args: &[Arg]) -> Option<(Name, Msg, Valid, Few)>
    ensures { result ≡ channel_parts args.now }
{
    match args {
        [
            Arg::Name(name),
            Arg::Number(size),
            Arg::Bytes(message),
            Arg::Valid(valid),
            observers @ ..,
        ] => {
            if *size as usize == message.bytes().len() {
                objects_of(observers).map(|observers| (*name, *message, *valid, observers))
            } else {
                None
            }
        }
        _ => None,
    }
}

/// The objects that all arguments are, if they are few.
fn objects_of(args: &[Arg]) -> Option<Few>
    ensures { result ≡ objects_of args.now }
{
    if MOST_FEW < args.len() {
        return None;
    }
    let mut objects = [0; MOST_FEW];
    let mut len = 0;
    let mut left = args;
    while let [first, more @ ..] = left {
        let Some(object) = as_known(first) else {
            return None;
        };
        objects[len] = object;
        len += 1;
        left = more;
    }
    Few::new(&objects[..len])
}

fn as_known(arg: &Arg) -> Option<u32>
    ensures { result ≡ as_known arg.now }
{
    match arg {
        Arg::Object(Ref::Known(object)) => Some(*object),
        _ => None,
    }
}

/// Two declared objects, by their numbers.
pub fn two_known(args: &[Arg]) -> Option<(u32, u32)>
    ensures { result ≡ two as_known as_known args.now }
{
    match args {
        [
            Arg::Object(Ref::Known(first)),
            Arg::Object(Ref::Known(second)),
        ] => Some((*first, *second)),
        _ => None,
    }
}
