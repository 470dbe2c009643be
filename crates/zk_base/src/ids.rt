/// A player as a service knows it: a thread of the scenario, or the worker of a work queue.
#[derive(Clone, Copy, PartialEq, Eq)]
pub struct Who {
    /// The threads come first, in declared order, then the workers in the order of their queues.
    pub number: u32,
    /// A lower number is the higher priority, as in Zephyr; -16 to 15.
    pub prio: i8,
}

/// One line of a service's history: who did what, and what was answered.
#[derive(Drop, PartialEq)]
pub struct Entry<O, R> {
    /// The player whose step this was.
    pub who: Who,
    /// The number of this step among all steps of the player, from 0, at whatever service.
    pub step: u32,
    /// What the player asked of the service.
    pub op: O,
    /// What the service answered.
    pub reply: R,
}
