use crate::before::Before;
use crate::placed::{PlacedParts, PlacedWord, PlacedWords};
use crate::words::Cause;
use crate::{Accepted, Finding};
use zk_base::MOST_FEW;
use zk_line::MOST_EVENTS;
use zk_scenario::MOST_QUEUES;
use zk_words::{Head, Kind, Need, Slot};

/// Which limit a line passes.
pub fn limit_finding(before: &Before, line: &[u8], parts: &PlacedParts<'_>) -> Finding {
    let head = parts.head;
    if let Some(word) = behind_most(parts) {
        let cause = match head {
            Head::Declare(_) => Cause::ManyObservers,
            _ => Cause::ManyEvents,
        };
        return Finding::on(cause, word, Accepted::Without);
    }
    let cause = match head {
        Head::Declare(kind) => kind_limit(before, kind),
        _ => Cause::ManyCalls,
    };
    match PlacedWords::of(line).next() {
        Some(first) => Finding::on(cause, first, Accepted::Without),
        None => Finding::unmarked(cause, Accepted::Without),
    }
}

// The first word that is one too many, of those of which a line has only so many: observers, or events.
fn behind_most<'a>(parts: &PlacedParts<'a>) -> Option<PlacedWord<'a>> {
    let head = parts.head;
    let most = match head {
        Head::Declare(_) => MOST_FEW,
        _ => MOST_EVENTS,
    };
    let mut left = parts.again();
    let mut count: usize = 0;
    while let Some(part) = left.next() {
        let is_counted = match (head, part.slot) {
            (Head::Declare(_), Slot::Object(Need::Obs)) => true,
            (Head::Call(_), Slot::Event) => true,
            _ => false,
        };
        if is_counted {
            if most <= count {
                return Some(part.word);
            }
            count = count.saturating_add(1);
        }
    }
    None
}

fn kind_limit(before: &Before, kind: Kind) -> Cause {
    match kind {
        Kind::Thread => Cause::ManyPlayers,
        Kind::Queue => {
            if MOST_QUEUES <= before.scenario.queues().len() {
                Cause::ManyQueues
            } else {
                Cause::ManyPlayers
            }
        }
        Kind::Item => Cause::ManyItems,
        Kind::Sem => Cause::ManySems,
        Kind::Msgq => Cause::ManyMsgqs,
        Kind::Signal => Cause::ManySignals,
        Kind::Listener => Cause::ManyListening,
        Kind::Sub => Cause::ManyListening,
        Kind::Chan => Cause::ManyChans,
    }
}
