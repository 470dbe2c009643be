use zk_bus::Channel;
use zk_msgq::Msgq;
use zk_objects::Objects;
use zk_sem::Sem;
use zk_signal::SharedSignal;
use zk_subq::Observer;
use zk_time::Clock;
use zk_turn::Cell;
use zk_work::Work;

/// The services of a scenario, each in its cell but for the signals, which take no turn.
#[derive(Drop)]
pub struct Cells {
    pub(crate) work: Cell<Work>,
    // The number of each item at the work service, by object number; an object of another kind has none.
    pub(crate) items: Vec<Option<u32>>,
    // How many steps a player may make.
    pub(crate) most: u32,
    pub(crate) clock: Cell<Clock>,
    pub(crate) table: Cell<Objects>,
    // Each semaphore, by object number; an object of another kind has none. The others likewise.
    pub(crate) sems: Vec<Option<Cell<Sem>>>,
    pub(crate) msgqs: Vec<Option<Cell<Msgq>>>,
    pub(crate) signals: Vec<Option<SharedSignal>>,
    pub(crate) chans: Vec<Option<Cell<Channel>>>,
    pub(crate) observers: Vec<Option<Cell<Observer>>>,
}
