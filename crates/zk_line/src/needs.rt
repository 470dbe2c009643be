ghost use Rattle.std.specs.Prelude.{◌≡◌, [], ◌∷◌, slice_get, option_map, option_to_list};
ghost use Rattle.std.specs.List.{filter_map};
ghost use Rattle.zk_line.specs.Needs.{needed, event_need, needs_of};

use crate::events::Event;
use crate::types::{Call, Ref};
use zk_words::Need;

/// An object that a call names, and what it has to be.
#[derive(Clone, Copy)]
pub struct Needed {
    /// The object as the call names it.
    pub object: Ref,
    /// What it has to be.
    pub need: Need,
}

fn need_for(object: Ref, need: Need) -> Needed
    ensures { result ≡ needed object need }
{
    Needed { object, need }
}

/// The only need.
fn one(object: Ref, need: Need, index: u32) -> Option<Needed>
    ensures { result ≡ slice_get (needed object need ∷ []) index }
{
    match index {
        0 => Some(need_for(object, need)),
        _ => None,
    }
}

/// The two needs of a call that names two objects.
fn two(first: Ref, first_need: Need, second: Ref, second_need: Need, index: u32) -> Option<Needed>
    ensures { result ≡ slice_get (needed first first_need ∷ needed second second_need ∷ []) index }
{
    match index {
        0 => Some(need_for(first, first_need)),
        1 => Some(need_for(second, second_need)),
        _ => None,
    }
}

/// An item, and the queue where one is named.
fn item_maybe_queue(item: Ref, queue: Option<Ref>, index: u32) -> Option<Needed>
    ensures { result ≡ slice_get
        (needed item Need.Item ∷ option_to_list (option_map (λ q. needed q Need.Queue) queue)) index }
{
    match queue {
        Some(queue) => two(item, Need::Item, queue, Need::Queue, index),
        None => one(item, Need::Item, index),
    }
}

fn event_need(event: Event) -> Option<Needed>
    ensures { result ≡ event_need event }
{
    match event {
        Event::Ignore => None,
        Event::Sem(sem) => Some(need_for(sem, Need::Sem)),
        Event::Msgq(queue) => Some(need_for(queue, Need::Msgq)),
        Event::Sig(signal) => Some(need_for(signal, Need::Signal)),
    }
}

/// That of the events of a poll.
fn of_events(events: &[Event], index: u32) -> Option<Needed>
    ensures { result ≡ slice_get (filter_map event_need events.now) index }
{
    let [event, more @ ..] = events else {
        return None;
    };
    match event_need(*event) {
        None => of_events(more, index),
        Some(needed) if index == 0 => Some(needed),
        Some(_) => of_events(more, index - 1),
    }
}

/// The need of this index, from 0, among those of a call, in the order in which a user's objects are checked.
pub fn need_at(call: &Call, index: u32) -> Option<Needed>
    ensures { result ≡ slice_get (needs_of call.now) index }
{
    match call {
        Call::Submit(item, queue) => item_maybe_queue(*item, *queue, index),
        Call::Cancel(item) => one(*item, Need::Item, index),
        Call::CancelSync(item) => one(*item, Need::Item, index),
        Call::Flush(item) => one(*item, Need::Item, index),
        Call::Schedule(item, queue, _) => item_maybe_queue(*item, Some(*queue), index),
        Call::Reschedule(item, queue, _) => item_maybe_queue(*item, Some(*queue), index),
        Call::Remaining(item) => one(*item, Need::Item, index),
        Call::Busy(item) => one(*item, Need::Item, index),
        Call::Start(queue) => one(*queue, Need::Queue, index),
        Call::Drain(queue, _) => one(*queue, Need::Queue, index),
        Call::Unplug(queue) => one(*queue, Need::Queue, index),
        Call::Stop(queue) => one(*queue, Need::Queue, index),
        Call::Tick(_) => None,
        Call::Take(sem, _) => one(*sem, Need::Sem, index),
        Call::Give(sem) => one(*sem, Need::Sem, index),
        Call::Reset(sem) => one(*sem, Need::Sem, index),
        Call::Count(sem) => one(*sem, Need::Sem, index),
        Call::Put(queue, _, _) => one(*queue, Need::Msgq, index),
        Call::PutFront(queue, _) => one(*queue, Need::Msgq, index),
        Call::Get(queue, _) => one(*queue, Need::Msgq, index),
        Call::Peek(queue) => one(*queue, Need::Msgq, index),
        Call::PeekAt(queue, _) => one(*queue, Need::Msgq, index),
        Call::Purge(queue) => one(*queue, Need::Msgq, index),
        Call::Used(queue) => one(*queue, Need::Msgq, index),
        Call::Free(queue) => one(*queue, Need::Msgq, index),
        Call::Raise(signal, _) => one(*signal, Need::Signal, index),
        Call::Clear(signal) => one(*signal, Need::Signal, index),
        Call::Check(signal) => one(*signal, Need::Signal, index),
        Call::Poll(_, events) => of_events(events.items(), index),
        Call::Claim(chan, _) => one(*chan, Need::Chan, index),
        Call::Finish(chan) => one(*chan, Need::Chan, index),
        Call::Publish(chan, _, _) => one(*chan, Need::Chan, index),
        Call::Notify(chan, _) => one(*chan, Need::Chan, index),
        Call::Read(chan, _) => one(*chan, Need::Chan, index),
        Call::Mask(chan, observer, _) => two(*chan, Need::Chan, *observer, Need::Obs, index),
        Call::Enable(observer, _) => one(*observer, Need::Obs, index),
        Call::SubWait(sub, _) => one(*sub, Need::Sub, index),
        Call::Grant(thread, object) => two(*object, Need::Any, *thread, Need::Thread, index),
        Call::Release(object) => one(*object, Need::Any, index),
        Call::Revoke(thread, object) => two(*thread, Need::Thread, *object, Need::Any, index),
        Call::Public(object) => one(*object, Need::Any, index),
        Call::Init(object) => one(*object, Need::Any, index),
        Call::User => None,
    }
}
