ghost use Rattle.std.specs.Prelude.{◌≡◌};
ghost use Rattle.zk_model_work.specs.Questions.{is_waiting, is_running, is_open, is_ended, is_live};

/// What has become of an admission so far.
#[derive(Clone, Copy)]
pub enum Life {
    /// It stands in its queue's line.
    Waiting,
    /// The queue's worker has taken it up.
    Running,
    /// Its run is over.
    Ended,
    /// A cancel took it out of the line.
    Dropped,
}

impl Life {
    /// Whether it stands in a line.
    pub fn is_waiting(self) -> bool
        ensures { result ≡ is_waiting self }
    {
        matches!(self, Life::Waiting)
    }

    /// Whether a worker is at it.
    pub fn is_running(self) -> bool
        ensures { result ≡ is_running self }
    {
        matches!(self, Life::Running)
    }

    /// Whether its run is over.
    pub fn is_ended(self) -> bool
        ensures { result ≡ is_ended self }
    {
        matches!(self, Life::Ended)
    }

    /// Whether it is still to run, or runs.
    pub fn is_open(self) -> bool
        ensures { result ≡ is_open self }
    {
        matches!(self, Life::Waiting | Life::Running)
    }
}

/// One acceptance of an item to a queue. Its number is its place among all admissions.
#[derive(Clone, Copy)]
pub struct Admission {
    /// The item that was accepted.
    pub item: u32,
    /// The queue that it was accepted to.
    pub queue: u32,
    /// What has become of it so far.
    pub life: Life,
}

/// What has become of an arming so far.
#[derive(Clone, Copy)]
pub enum Fate {
    /// Its deadline is ahead.
    Live,
    /// Its deadline came, and the item was submitted.
    Expired,
    /// It was taken back before.
    Disarmed,
}

impl Fate {
    /// Whether it is still to expire.
    pub fn is_live(self) -> bool
        ensures { result ≡ is_live self }
    {
        matches!(self, Fate::Live)
    }
}

/// One arming of an item with a delay. Its place among all armings is their order.
#[derive(Clone, Copy)]
pub struct Arm {
    /// The item that was armed.
    pub item: u32,
    /// The queue that the item is submitted to.
    pub queue: u32,
    /// The tick at which it expires.
    pub deadline: u64,
    /// What has become of it so far.
    pub fate: Fate,
}

/// What a player waits for.
#[derive(Clone, Copy)]
pub enum Awaited {
    /// The end of this run, which a cancel found.
    Cancel(u64),
    /// That this admission has ended or was dropped.
    Flush(u64),
    /// That more drainings of this queue have ended than so many.
    Drain(u32, u64),
}

/// A wait that an entry began.
#[derive(Clone, Copy)]
pub struct Wait {
    /// The place of the entry that began it.
    pub place: u64,
    /// The player who waits.
    pub player: u32,
    /// What the player waits for.
    pub awaited: Awaited,
    /// Whether the wait is over for its player.
    pub answered: bool,
}

/// A work queue.
#[derive(Clone, Copy)]
pub struct Queue {
    /// The player who runs its items.
    pub worker: u32,
    /// A queue that isn't started takes no submission.
    pub started: bool,
    /// While it drains, it takes submissions of its own worker alone.
    pub draining: bool,
    /// While it is plugged and doesn't drain, it takes no submission.
    pub plugged: bool,
    /// How many drainings of it have ended.
    pub drained: u64,
}

/// What the answers of the work machine ask of an item.
#[derive(Clone, Copy)]
pub struct Item {
    /// Its run is being cancelled.
    pub cancelling: bool,
    /// It waits for a queue.
    pub queued: bool,
    /// A queue runs it.
    pub running: bool,
    /// The queue that runs it.
    pub home: Option<u32>,
    /// The queue of its last admission.
    pub last: Option<u32>,
    /// The number that the next admission gets, of whichever item.
    pub next: u64,
}

/// What an operation changes of a queue.
#[derive(Clone, Copy)]
pub enum Change {
    /// It takes items from now on.
    Start,
    /// It takes no items but while it drains.
    Plug,
    /// It isn't plugged any more.
    Unplug,
    /// It takes no items until it is started again.
    Stop,
    /// It drains until nothing of it waits or runs.
    Drain,
}

/// Which kind of wait an operation ends.
#[derive(Clone, Copy)]
pub enum Closing {
    /// That of a sync cancel.
    Cancel,
    /// That of a flush.
    Flush,
    /// That of a drain.
    Drain,
}
