ghost use Rattle.std.specs.Prelude.{◌≡◌, [], ◌∷◌, map};
ghost use Rattle.zk_line.specs.Calls.{saying, said_of, word_of, is_user_call};

use crate::events::Events;
use crate::types::{Arg, Call, Ref};
use std::marker::Model;
use zk_base::Msg;
use zk_words::{Choice, Timeout, Word};

/// A call as it is written: its word, and what stands behind that.
#[derive(Drop)]
pub struct Said {
    pub word: Word,
    // From the left as many as there are.
    pub args: [Option<Arg>; 3],
    // Behind those.
    pub events: Option<Events>,
}

impl Model for Said {
    ghost use Rattle.zk_line.specs.Calls.{Saying, saying, standing, events_said};
    ghost use Rattle.std.specs.Prelude.{◌++◌};

    ghost Value = { Saying };

    ghost view = { λ s. saying s.word (standing s.args ++ events_said s.events) };
}

/// How a call is written.
pub fn said_of(call: &Call) -> Said
    ensures { result ≡ said_of call.now }
{
    match call {
        Call::Submit(item, None) => of_one(Word::Submit, object(item)),
        Call::Submit(item, Some(queue)) => of_two(Word::Submit, object(item), object(queue)),
        Call::Cancel(item) => of_one(Word::Cancel, object(item)),
        Call::CancelSync(item) => of_one(Word::CancelSync, object(item)),
        Call::Flush(item) => of_one(Word::Flush, object(item)),
        Call::Schedule(item, queue, delay) => delayed(Word::Schedule, item, queue, *delay),
        Call::Reschedule(item, queue, delay) => delayed(Word::Reschedule, item, queue, *delay),
        Call::Remaining(item) => of_one(Word::Remaining, object(item)),
        Call::Busy(item) => of_one(Word::Busy, object(item)),
        Call::Start(queue) => of_one(Word::Start, object(queue)),
        Call::Drain(queue, plug) => {
            of_two(Word::Drain, object(queue), Arg::Truth(Choice::Drain, *plug))
        }
        Call::Unplug(queue) => of_one(Word::Unplug, object(queue)),
        Call::Stop(queue) => of_one(Word::Stop, object(queue)),
        Call::Tick(ticks) => of_one(Word::Tick, Arg::Number(*ticks)),
        Call::Take(sem, wait) => of_two(Word::Take, object(sem), Arg::Wait(*wait)),
        Call::Give(sem) => of_one(Word::Give, object(sem)),
        Call::Reset(sem) => of_one(Word::Reset, object(sem)),
        Call::Count(sem) => of_one(Word::Count, object(sem)),
        Call::Put(msgq, message, wait) => sent(Word::Put, msgq, message, *wait),
        Call::PutFront(msgq, message) => {
            of_two(Word::PutFront, object(msgq), Arg::Bytes(*message))
        }
        Call::Get(msgq, wait) => of_two(Word::Get, object(msgq), Arg::Wait(*wait)),
        Call::Peek(msgq) => of_one(Word::Peek, object(msgq)),
        Call::PeekAt(msgq, index) => of_two(Word::PeekAt, object(msgq), Arg::Number(*index)),
        Call::Purge(msgq) => of_one(Word::Purge, object(msgq)),
        Call::Used(msgq) => of_one(Word::Used, object(msgq)),
        Call::Free(msgq) => of_one(Word::Free, object(msgq)),
        Call::Raise(signal, result) => {
            of_two(Word::Raise, object(signal), Arg::Number(u32::from(*result)))
        }
        Call::Clear(signal) => of_one(Word::Clear, object(signal)),
        Call::Check(signal) => of_one(Word::Check, object(signal)),
        Call::Poll(wait, events) => polled(*wait, events),
        Call::Claim(channel, wait) => of_two(Word::Claim, object(channel), Arg::Wait(*wait)),
        Call::Finish(channel) => of_one(Word::Finish, object(channel)),
        Call::Publish(channel, message, wait) => sent(Word::Publish, channel, message, *wait),
        Call::Notify(channel, wait) => of_two(Word::Notify, object(channel), Arg::Wait(*wait)),
        Call::Read(channel, wait) => of_two(Word::Read, object(channel), Arg::Wait(*wait)),
        Call::Mask(channel, observer, on) => masked(channel, observer, *on),
        Call::Enable(observer, on) => of_two(
            Word::Enable,
            object(observer),
            Arg::Truth(Choice::State, *on),
        ),
        Call::SubWait(sub, wait) => of_two(Word::SubWait, object(sub), Arg::Wait(*wait)),
        Call::Grant(thread, other) => of_two(Word::Grant, object(thread), object(other)),
        Call::Release(other) => of_one(Word::Release, object(other)),
        Call::Revoke(thread, other) => of_two(Word::Revoke, object(thread), object(other)),
        Call::Public(other) => of_one(Word::Public, object(other)),
        Call::Init(other) => of_one(Word::Init, object(other)),
        Call::User => of_none(Word::User),
    }
}

/// The word of a call.
pub fn word_of(call: &Call) -> Word
    ensures { result ≡ word_of call.now }
{
    said_of(call).word
}

/// Whether a call makes its caller a user.
pub fn is_user_call(call: &Call) -> bool
    ensures { result ≡ is_user_call call.now }
{
    match call {
        Call::User => true,
        _ => false,
    }
}

fn object(object: &Ref) -> Arg
    ensures { result ≡ Arg.Object object.now }
{
    Arg::Object(*object)
}

fn of_none(word: Word) -> Said
    ensures { result ≡ saying word [] }
{
    Said {
        word,
        args: [None, None, None],
        events: None,
    }
}

fn of_one(word: Word, arg: Arg) -> Said
    ensures { result ≡ saying word (arg ∷ []) }
{
    Said {
        word,
        args: [Some(arg), None, None],
        events: None,
    }
}

fn of_two(word: Word, first: Arg, second: Arg) -> Said
    ensures { result ≡ saying word (first ∷ second ∷ []) }
{
    Said {
        word,
        args: [Some(first), Some(second), None],
        events: None,
    }
}

fn delayed(word: Word, item: &Ref, queue: &Ref, delay: u32) -> Said
    ensures { result ≡ saying word (Arg.Object item.now ∷ Arg.Object queue.now ∷ Arg.Number delay ∷ []) }
{
    Said {
        word,
        args: [
            Some(object(item)),
            Some(object(queue)),
            Some(Arg::Number(delay)),
        ],
        events: None,
    }
}

fn sent(word: Word, to: &Ref, message: &Msg, wait: Timeout) -> Said
    ensures { result ≡ saying word (Arg.Object to.now ∷ Arg.Bytes message.now ∷ Arg.Wait wait ∷ []) }
{
    Said {
        word,
        args: [
            Some(object(to)),
            Some(Arg::Bytes(*message)),
            Some(Arg::Wait(wait)),
        ],
        events: None,
    }
}

fn masked(channel: &Ref, observer: &Ref, on: bool) -> Said
    ensures { result ≡ saying Word.Mask
        (Arg.Object channel.now ∷ Arg.Object observer.now ∷ Arg.Truth Choice.State on ∷ []) }
{
    Said {
        word: Word::Mask,
        args: [
            Some(object(channel)),
            Some(object(observer)),
            Some(Arg::Truth(Choice::State, on)),
        ],
        events: None,
    }
}

fn polled(wait: Timeout, events: &Events) -> Said
    ensures { result ≡ saying Word.Poll (Arg.Wait wait ∷ map Arg.Event events.now) }
{
    Said {
        word: Word::Poll,
        args: [Some(Arg::Wait(wait)), None, None],
        events: Some(*events),
    }
}
