ghost use Rattle.std.specs.Prelude.{◌≡◌, Some, None, [], ◌∷◌, if◌then◌else◌};
ghost use Rattle.zk_line.specs.Calls.{call_of};

use crate::shapes::{
    object_bytes, object_bytes_wait, object_maybe, object_number, object_result, object_truth,
    object_wait, one_number, one_object, two_objects, two_objects_number, two_objects_truth,
    wait_events,
};
use crate::types::{Arg, Call, Ref};
use zk_base::Msg;
use zk_words::{Choice, GREATEST_RESULT, Timeout, Word};

/// Writes a call where it is kept: of a large type that is less than to hand it out.
macro_rules! put {
    ($place:expr, $($call:tt)*) => {{
        *$place = Call::$($call)*;
        true
    }};
}

/// Puts the call of what stands behind its word, if that has the call's shape.
macro_rules! put_if {
    ($said:expr, $parts:ident => $put:expr) => {
        match $said {
            Some($parts) => $put,
            None => false,
        }
    };
}

/// Puts the call of a word and what stands behind it in a place. The answer is whether there is one.
pub fn put_call_of(place: &mut Call, word: Word, args: &[Arg]) -> bool
    ensures { call_of word args.now ≡ (if result then Some place.new else None) }
{
    match args {
        [Arg::Object(object)] => put_on_one(place, word, object),
        [Arg::Object(object), Arg::Wait(wait)] => put_on_wait(place, word, object, *wait),
        [Arg::Object(object), Arg::Object(other)] => put_on_two(place, word, object, other),
        [Arg::Object(object), Arg::Number(number)] => {
            put_with_number(place, word, object, *number)
        }
        [Arg::Object(object), Arg::Bytes(message), Arg::Wait(wait)] => put_with_message(
            place, word, object, message, *wait,
        ),
        _ => put_other(place, word, args),
    }
}

/// The call that names one object and nothing else.
#[inline(never)]
fn put_on_one(place: &mut Call, word: Word, object: &Ref) -> bool
    ensures { call_of word (Arg.Object object.now ∷ []) ≡ (if result then Some place.new else None) }
{
    match word {
        Word::Submit => put!(place, Submit(*object, None)),
        Word::Cancel => put!(place, Cancel(*object)),
        Word::CancelSync => put!(place, CancelSync(*object)),
        Word::Flush => put!(place, Flush(*object)),
        Word::Remaining => put!(place, Remaining(*object)),
        Word::Busy => put!(place, Busy(*object)),
        Word::Start => put!(place, Start(*object)),
        Word::Unplug => put!(place, Unplug(*object)),
        Word::Stop => put!(place, Stop(*object)),
        Word::Give => put!(place, Give(*object)),
        Word::Reset => put!(place, Reset(*object)),
        Word::Count => put!(place, Count(*object)),
        Word::Peek => put!(place, Peek(*object)),
        Word::Purge => put!(place, Purge(*object)),
        Word::Used => put!(place, Used(*object)),
        Word::Free => put!(place, Free(*object)),
        Word::Clear => put!(place, Clear(*object)),
        Word::Check => put!(place, Check(*object)),
        Word::Finish => put!(place, Finish(*object)),
        Word::Release => put!(place, Release(*object)),
        Word::Public => put!(place, Public(*object)),
        Word::Init => put!(place, Init(*object)),
        _ => false,
    }
}

/// The call that names an object, and how long is waited for it.
#[inline(never)]
fn put_on_wait(place: &mut Call, word: Word, object: &Ref, wait: Timeout) -> bool
    ensures { call_of word (Arg.Object object.now ∷ Arg.Wait wait ∷ [])
        ≡ (if result then Some place.new else None) }
{
    match word {
        Word::Take => put!(place, Take(*object, wait)),
        Word::Get => put!(place, Get(*object, wait)),
        Word::Claim => put!(place, Claim(*object, wait)),
        Word::Notify => put!(place, Notify(*object, wait)),
        Word::Read => put!(place, Read(*object, wait)),
        Word::SubWait => put!(place, SubWait(*object, wait)),
        _ => false,
    }
}

/// The call that names two objects and nothing else.
#[inline(never)]
fn put_on_two(place: &mut Call, word: Word, object: &Ref, other: &Ref) -> bool
    ensures { call_of word (Arg.Object object.now ∷ Arg.Object other.now ∷ [])
        ≡ (if result then Some place.new else None) }
{
    match word {
        Word::Submit => put!(place, Submit(*object, Some(*other))),
        Word::Grant => put!(place, Grant(*object, *other)),
        Word::Revoke => put!(place, Revoke(*object, *other)),
        _ => false,
    }
}

/// The call that names an object and a number.
#[inline(never)]
fn put_with_number(place: &mut Call, word: Word, object: &Ref, number: u32) -> bool
    ensures { call_of word (Arg.Object object.now ∷ Arg.Number number ∷ [])
        ≡ (if result then Some place.new else None) }
{
    match word {
        Word::PeekAt => put!(place, PeekAt(*object, number)),
        Word::Raise => {
            if number <= GREATEST_RESULT {
                put!(place, Raise(*object, number as u16))
            } else {
                false
            }
        }
        _ => false,
    }
}

/// The call that sends a message to an object.
#[inline(never)]
fn put_with_message(
    place: &mut Call,
    word: Word,
    object: &Ref,
    message: &Msg,
    wait: Timeout,
) -> bool
    ensures { call_of word (Arg.Object object.now ∷ Arg.Bytes message.now ∷ Arg.Wait wait ∷ [])
        ≡ (if result then Some place.new else None) }
{
    match word {
        Word::Put => put!(place, Put(*object, *message, wait)),
        Word::Publish => put!(place, Publish(*object, *message, wait)),
        _ => false,
    }
}

/// A poll, or a call of a shape that few have.
#[inline(never)]
fn put_other(place: &mut Call, word: Word, args: &[Arg]) -> bool
    ensures { call_of word args.now ≡ (if result then Some place.new else None) }
{
    match word {
        Word::Submit => put_if!(object_maybe(args), said => put!(place, Submit(said.0, said.1))),
        Word::Schedule | Word::Reschedule => {
            put_if!(two_objects_number(args), said => put_delayed(place, word, said.0, said.1, said.2))
        }
        Word::Drain =>
            put_if!(object_truth(Choice::Drain, args), said => put!(place, Drain(said.0, said.1))),
        Word::Tick => put_if!(one_number(args), ticks => put!(place, Tick(ticks))),
        Word::Take | Word::Get | Word::Claim | Word::Notify | Word::Read | Word::SubWait => {
            put_if!(object_wait(args), said => put_on_wait(place, word, &said.0, said.1))
        }
        Word::Put | Word::Publish => {
            put_if!(object_bytes_wait(args), said => put_with_message(place, word, &said.0, &said.1, said.2))
        }
        Word::PutFront =>
            put_if!(object_bytes(args), said => put!(place, PutFront(said.0, said.1))),
        Word::PeekAt => put_if!(object_number(args), said => put!(place, PeekAt(said.0, said.1))),
        Word::Raise => put_if!(object_result(args), said => put!(place, Raise(said.0, said.1))),
        Word::Poll => put_if!(wait_events(args), said => put!(place, Poll(said.0, said.1))),
        Word::Mask => {
            put_if!(two_objects_truth(Choice::State, args), said => put!(place, Mask(said.0, said.1, said.2)))
        }
        Word::Enable =>
            put_if!(object_truth(Choice::State, args), said => put!(place, Enable(said.0, said.1))),
        Word::Grant | Word::Revoke => {
            put_if!(two_objects(args), said => put_on_two(place, word, &said.0, &said.1))
        }
        Word::User => match args {
            [] => put!(place, User),
            _ => false,
        },
        _ => put_if!(one_object(args), object => put_on_one(place, word, &object)),
    }
}

/// The call that names two objects and a delay.
fn put_delayed(place: &mut Call, word: Word, item: Ref, queue: Ref, delay: u32) -> bool
    ensures { call_of word (Arg.Object item ∷ Arg.Object queue ∷ Arg.Number delay ∷ [])
        ≡ (if result then Some place.new else None) }
{
    match word {
        Word::Schedule => put!(place, Schedule(item, queue, delay)),
        Word::Reschedule => put!(place, Reschedule(item, queue, delay)),
        _ => false,
    }
}
