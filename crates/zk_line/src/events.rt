ghost use Rattle.std.specs.Prelude.{◌≡◌, true, Some, None, if◌then◌else◌};
ghost use Rattle.zk_line.specs.Few.{is_few, event_at};

use crate::types::Ref;
use std::marker::Model;
use zk_words::Source;

/// How many events a poll has at most.
pub const MOST_EVENTS: usize = 8;

/// What a poll waits for at one of its places. Zephyr's `k_poll_event`.
#[derive(Clone, Copy)]
pub enum Event {
    /// Nothing: it is never ready. Zephyr's `K_POLL_TYPE_IGNORE`.
    Ignore,
    /// That a semaphore can be taken. Zephyr's `K_POLL_TYPE_SEM_AVAILABLE`.
    Sem(Ref),
    /// That a message queue has a message. Zephyr's `K_POLL_TYPE_MSGQ_DATA_AVAILABLE`.
    Msgq(Ref),
    /// That a signal is raised. Zephyr's `K_POLL_TYPE_SIGNAL`.
    Sig(Ref),
}

/// The events of a poll: 1 to `MOST_EVENTS`, kept in place, so that they are copied without memory.
#[derive(Clone, Copy)]
pub struct Events {
    // The events, then `Ignore`.
    events: [Event; MOST_EVENTS],
    // How many of them are those of the poll.
    len: u8,
}

impl Model for Events {
    ghost use Rattle.std.specs.Prelude.{List, take, length};
    ghost use Rattle.zk_line.specs.declared.events.Event.{Event};
    ghost use Rattle.zk_line.specs.Few.{filled, IsFilled};
    ghost use Rattle.zk_line.specs.Filling.{filled-take, length-filled};

    ghost Value = { List Event };

    ghost view = { λ e. take e.len e.events };

    ghost invariant = { λ e. IsFilled e.events e.len };

    ghost inverse = { λ v. record { events = filled v; len = length v } };

    ghost inverse_ok = { λ e held. λ i. record {
      events = filled-take e.events e.len held i;
      len = length-filled e.events e.len held i;
    } };
}

impl Events {
    /// The events of a poll. There are none where they are fewer than 1 or more than `MOST_EVENTS`.
    pub fn new(events: &[Event]) -> Option<Events>
        ensures { result ≡ (if is_few events.now then Some events.now else None) }
    {
        if !is_few(events) {
            return None;
        }
        let mut kept = [Event::Ignore; MOST_EVENTS];
        kept[..events.len()].copy_from_slice(events);
        Some(Events {
            events: kept,
            len: events.len() as u8,
        })
    }

    /// The events in the written order.
    pub fn items(&self) -> &[Event]
        ensures all { result.now ≡ self.now }
        ensures few { is_few self.now ≡ true }
    {
        &self.events[..self.len as usize]
    }
}

/// Whether so many events are those of a poll.
fn is_few(events: &[Event]) -> bool
    ensures { result ≡ is_few events.now }
{
    1 <= events.len() && events.len() <= MOST_EVENTS
}

/// The event of an object that is a source.
pub fn event_at(source: Source, object: Ref) -> Event
    ensures { result ≡ event_at source object }
{
    match source {
        Source::Sem => Event::Sem(object),
        Source::Msgq => Event::Msgq(object),
        Source::Signal => Event::Sig(object),
    }
}
