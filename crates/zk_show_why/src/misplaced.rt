use crate::before::Before;
use crate::placed::PlacedWords;
use crate::words::Cause;
use crate::{Accepted, Finding};
use zk_scenario::Decl;
use zk_words::{Head, Word, head_of};

/// Why a line can't stand where it does.
pub fn order_finding(before: &Before, line: &[u8]) -> Finding {
    let other = Finding::unmarked(Cause::OtherOrder, Accepted::WithoutLine);
    let mut words = PlacedWords::of(line);
    let Some(first) = words.next() else {
        return other;
    };
    let (cause, accepted) = match head_of(first.text) {
        Some(Head::Declare(_)) => (Cause::LateDeclaration, Accepted::InFront),
        Some(Head::Allow) => (Cause::LateDeclaration, Accepted::InFront),
        Some(Head::Script) if before.is_open => (Cause::ScriptInside, Accepted::EndFirst),
        Some(Head::Script) => {
            return match words.next() {
                Some(owner) => Finding::on(Cause::SecondScript, owner, Accepted::FirstScript),
                None => Finding::unmarked(Cause::SecondScript, Accepted::FirstScript),
            };
        }
        Some(Head::End) => (Cause::EndOutside, Accepted::WithoutLine),
        Some(Head::Call(word)) => call_order(before, word),
        None if line.is_empty() => {
            return Finding::unmarked(Cause::EndMissing, Accepted::EndHere);
        }
        None => return other,
    };
    Finding::on(cause, first, accepted)
}

fn call_order(before: &Before, word: Word) -> (Cause, Accepted) {
    match (before.owner(), word) {
        (None, _) => (Cause::CallOutside, Accepted::ScriptBefore),
        (Some(Decl::Item(_)), Word::User) => (Cause::NotInHandler, Accepted::UserInThread),
        (Some(Decl::Listener(_)), _) => (Cause::NotInListener, Accepted::InThreadOrItem),
        _ => (Cause::ForSupervisors, Accepted::InThread),
    }
}
