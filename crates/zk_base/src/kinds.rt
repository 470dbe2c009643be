ghost use Rattle.std.specs.Prelude.{◌≡◌};
ghost use Rattle.zk_base.specs.Kinds.{same_kind, meets, is_any};

/// What an object is.
#[derive(Clone, Copy, Debug, PartialEq, Eq)]
pub enum Kind {
    Thread,
    /// A semaphore.
    Sem,
    /// A message queue.
    Msgq,
    Signal,
    /// A work queue.
    Queue,
    /// A work item.
    Item,
    /// A channel.
    Chan,
    /// A subscriber.
    Sub,
    Listener,
}

/// What a call needs of an object.
#[derive(Clone, Copy, Debug, PartialEq, Eq)]
pub enum Need {
    Thread,
    /// A semaphore.
    Sem,
    /// A message queue.
    Msgq,
    Signal,
    /// A work queue.
    Queue,
    /// A work item.
    Item,
    /// A channel.
    Chan,
    /// A subscriber.
    Sub,
    /// An observer: a subscriber or a listener.
    Obs,
    /// Any object, initialised or not. Zephyr's `K_OBJ_ANY`.
    Any,
}

/// Whether two kinds are one.
pub fn same_kind(kind: Kind, other: Kind) -> bool
    ensures { result ≡ same_kind kind other }
{
    match (kind, other) {
        (Kind::Thread, Kind::Thread) => true,
        (Kind::Sem, Kind::Sem) => true,
        (Kind::Msgq, Kind::Msgq) => true,
        (Kind::Signal, Kind::Signal) => true,
        (Kind::Queue, Kind::Queue) => true,
        (Kind::Item, Kind::Item) => true,
        (Kind::Chan, Kind::Chan) => true,
        (Kind::Sub, Kind::Sub) => true,
        (Kind::Listener, Kind::Listener) => true,
        _ => false,
    }
}

impl Need {
    /// An object of this kind meets the need.
    pub fn is_met_by(self, kind: Kind) -> bool
        ensures { result ≡ meets self kind }
    {
        match self {
            Need::Thread => same_kind(kind, Kind::Thread),
            Need::Sem => same_kind(kind, Kind::Sem),
            Need::Msgq => same_kind(kind, Kind::Msgq),
            Need::Signal => same_kind(kind, Kind::Signal),
            Need::Queue => same_kind(kind, Kind::Queue),
            Need::Item => same_kind(kind, Kind::Item),
            Need::Chan => same_kind(kind, Kind::Chan),
            Need::Sub => same_kind(kind, Kind::Sub),
            Need::Obs => same_kind(kind, Kind::Sub) || same_kind(kind, Kind::Listener),
            Need::Any => true,
        }
    }

    /// It asks nothing of the object's kind, and not that it is initialised.
    pub fn is_any(self) -> bool
        ensures { result ≡ is_any self }
    {
        match self {
            Need::Any => true,
            _ => false,
        }
    }
}
