use crate::cells::Cells;
use crate::passes::Passes;
use zk_base::Service;
use zk_services::ServiceId;
use zk_signal::SharedSignal;
use zk_turn::{Cell, Pass};

/// Whether a service has more entries than a caller has seen of it.
fn has_grown<S: Service>(cell: &Cell<S>, pass: &Option<Pass<S>>) -> bool {
    match pass {
        Some(pass) => cell.has_grown(pass),
        None => false,
    }
}

/// Whether the object of this number has more entries than a caller has seen of it.
fn has_grown_at<S: Service>(
    cells: &[Option<Cell<S>>],
    passes: &[Option<Pass<S>>],
    object: u32,
) -> bool {
    match (cells.get(object as usize), passes.get(object as usize)) {
        (Some(Some(cell)), Some(pass)) => has_grown(cell, pass),
        _ => false,
    }
}

/// Whether the signal of this number is raised: then a look that has to find it raised is worth trying just now.
fn is_raised_at(signals: &[Option<SharedSignal>], object: u32) -> bool {
    match signals.get(object as usize) {
        Some(Some(signal)) => signal.is_raised(),
        _ => false,
    }
}

/// Whether this service has more entries than a caller has seen of it, or is a signal that is raised.
pub fn has_news_of(cells: &Cells, passes: &Passes, service: ServiceId) -> bool {
    match service {
        ServiceId::Work => has_grown(&cells.work, &passes.work),
        ServiceId::Clock => has_grown(&cells.clock, &passes.clock),
        ServiceId::Table => has_grown(&cells.table, &passes.table),
        ServiceId::Sem(object) => has_grown_at(&cells.sems, &passes.sems, object),
        ServiceId::Msgq(object) => has_grown_at(&cells.msgqs, &passes.msgqs, object),
        ServiceId::Signal(object) => is_raised_at(&cells.signals, object),
        ServiceId::Chan(object) => has_grown_at(&cells.chans, &passes.chans, object),
        ServiceId::Obs(object) => has_grown_at(&cells.observers, &passes.observers, object),
    }
}
