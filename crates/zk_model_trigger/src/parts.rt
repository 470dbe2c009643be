ghost use Rattle.std.specs.Prelude.{◌≡◌};
ghost use Rattle.zk_model_trigger.specs.Arms.{is_waiting, is_fired, is_live, cause_by};

use crate::Cause;
use zk_base::Few;

/// An arm, as it was asked for.
#[derive(Clone, Copy)]
pub struct Arm {
    /// How many arms were made before it.
    pub number: u64,
    /// The item that is armed.
    pub item: u32,
    /// The queue that the item is to be submitted to.
    pub queue: u32,
    /// The events that it waits for.
    pub events: Few,
    /// The time from which on it fires, in ticks, if it has one.
    pub deadline: Option<u64>,
}

/// What has become of an arm so far.
#[derive(Clone, Copy)]
pub enum Life {
    /// None of its events was ready, and its time isn't out.
    Waiting,
    /// It has fired, and isn't taken.
    Fired(Cause),
    /// It has fired, and was taken.
    Taken,
    /// It was given up while it waited.
    Cancelled,
}

impl Life {
    /// Whether it waits.
    pub fn is_waiting(self) -> bool
        ensures { result ≡ is_waiting self }
    {
        matches!(self, Life::Waiting)
    }

    /// Whether it has fired and isn't taken.
    pub fn is_fired(self) -> bool
        ensures { result ≡ is_fired self }
    {
        matches!(self, Life::Fired(_))
    }

    /// Whether its item can't be armed again.
    pub fn is_live(self) -> bool
        ensures { result ≡ is_live self }
    {
        matches!(self, Life::Waiting | Life::Fired(_))
    }
}

/// An arm with what has become of it.
#[derive(Clone, Copy)]
pub struct Armed {
    /// The arm.
    pub arm: Arm,
    /// What has become of it so far.
    pub life: Life,
}

/// An arm that has fired, and why.
#[derive(Clone, Copy)]
pub struct Fire {
    /// The arm.
    pub arm: Arm,
    /// Why it has fired.
    pub cause: Cause,
}

/// What may fire arms that wait.
#[derive(Clone, Copy)]
pub enum Occasion {
    /// This event was made ready.
    Posted(u32),
    /// This time has come, in ticks.
    Reached(u64),
}

impl Occasion {
    /// The cause of what it fires.
    pub fn cause(self) -> Cause
        ensures { result ≡ cause_by self }
    {
        match self {
            Occasion::Posted(event) => Cause::Event(event),
            Occasion::Reached(_) => Cause::Time,
        }
    }
}

/// What changes the lives of arms.
#[derive(Clone, Copy)]
pub enum Change {
    /// Those fire that wait for it.
    Fire(Occasion),
    /// The one of this item that waits is given up.
    Cancel(u32),
    /// The one of this item that has fired is taken.
    Take(u32),
}
