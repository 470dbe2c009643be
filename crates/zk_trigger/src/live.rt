ghost use Rattle.std.specs.Prelude.{◌≡◌, ◌<◌, All, nat_lt, position, length};
ghost use Rattle.zk_model_trigger.specs.Arms.{told_fire};
ghost use Rattle.zk_trigger.specs.Live.{meets_sought, word_of, deadline_time, told_live};

use zk_model_trigger::{Cause, TriggerReply};

/// An arm that waits, or that has fired and isn't taken.
#[derive(Clone, Copy)]
pub struct LiveArm {
    /// How many arms were made before it.
    pub number: u64,
    /// The item that is armed.
    pub item: u32,
    /// The queue that the item is to be submitted to.
    pub queue: u32,
    /// The events that it waits for: event e is the bit e.
    pub events: u64,
    /// The time from which on it fires, in ticks, if it has one.
    pub deadline: Option<u64>,
}

/// An arm that has fired and isn't taken, and why it has fired.
#[derive(Clone, Copy)]
pub struct LiveFire {
    /// The arm.
    pub arm: LiveArm,
    /// Why it has fired.
    pub cause: Cause,
}

/// What arms are searched for.
#[derive(Clone, Copy)]
pub enum Sought {
    /// Those that wait for one of these events, in the order of their numbers: event e is the bit e.
    Events(u64),
    /// Those whose deadline isn't above this time, by deadline and then by number.
    Until(u64),
}

impl LiveArm {
    /// Whether it is sought.
    pub fn meets(&self, sought: Sought) -> bool
        ensures { result ≡ meets_sought sought self.now }
    {
        match sought {
            Sought::Events(mask) => self.events & mask != 0,
            Sought::Until(time) => match self.deadline {
                None => false,
                Some(deadline) => deadline <= time,
            },
        }
    }

    /// The time of its deadline; 0 where it has none.
    pub fn deadline_time(&self) -> u64
        ensures { result ≡ deadline_time self.now }
    {
        self.deadline.unwrap_or(0)
    }
}

impl LiveFire {
    /// What its taking is answered.
    pub fn told(&self) -> TriggerReply
        ensures { result ≡ told_live self.now }
    {
        TriggerReply::Fire(self.arm.number, self.arm.item, self.arm.queue, self.cause)
    }
}

/// These events as a word: event e is the bit e.
pub fn word_of(events: &[u32]) -> u64
    requires { All (λ e. e < 64) events.now }
    ensures { result ≡ word_of events.now }
{
    let mut word = 0;
    for event in events {
        word |= 1 << *event;
    }
    word
}
