ghost use Rattle.std.specs.Prelude.{◌≡◌, None, Some, true, false, length, drop, MatchOption};
ghost use Rattle.zk_words.specs.Events.{begins, event_named, is_event, is_ignore, need_of, source_text};

use crate::matching::is_same;
use zk_base::{Need, is_spelled};

/// What a poll can wait for.
#[derive(Clone, Copy)]
pub enum Source {
    /// That a semaphore can be taken.
    Sem,
    /// That a message queue has a message.
    Msgq,
    /// That a signal is raised.
    Signal,
}

/// What an event asks for: a source of its kind, by its name.
#[derive(Clone, Copy)]
pub struct Asked<'a> {
    pub source: Source,
    pub name: &'a [u8],
}

/// What stands before the name of an event's source.
pub fn source_text(source: Source) -> &'static [u8]
    ensures { result.now ≡ source_text source }
{
    match source {
        Source::Sem => b"sem:",
        Source::Msgq => b"msgq:",
        Source::Signal => b"sig:",
    }
}

/// The need that the source of an event meets.
pub fn need_of(source: Source) -> Need
    ensures { result ≡ need_of source }
{
    match source {
        Source::Sem => Need::Sem,
        Source::Msgq => Need::Msgq,
        Source::Signal => Need::Signal,
    }
}

/// Whether a word is the event that asks for nothing.
pub fn is_ignore(word: &[u8]) -> bool
    ensures { result ≡ is_ignore word.now }
{
    is_same(word, b"ignore")
}

/// What a word asks for as an event, be the name spelled as a name or not.
pub fn event_named(word: &[u8]) -> Option<Asked<'_>>
    ensures { MatchOption result (event_named word.now ≡ None)
        (λ event. event_named word.now ≡ Some (record { source = event.source; name = event.name.now })) }
{
    if let Some(name) = behind(source_text(Source::Sem), word) {
        return Some(Asked {
            source: Source::Sem,
            name,
        });
    }
    if let Some(name) = behind(source_text(Source::Msgq), word) {
        return Some(Asked {
            source: Source::Msgq,
            name,
        });
    }
    let name = behind(source_text(Source::Signal), word)?;
    Some(Asked {
        source: Source::Signal,
        name,
    })
}

/// What stands behind a front, if the word begins with it.
#[inline(always)]
#[tactic(auto, using(crate::proofs::Begins::begins_short))]
pub fn behind<'a>(front: &[u8], word: &'a [u8]) -> Option<&'a [u8]>
    ensures { MatchOption result (begins front.now word.now ≡ false)
        (λ rest. (begins front.now word.now ≡ true) × (rest.now ≡ drop (length front.now) word.now)) }
{
    let (first, rest) = word.split_at_checked(front.len())?;
    if is_same(first, front) {
        Some(rest)
    } else {
        None
    }
}

/// Whether a word is spelled as an event.
pub fn is_event(word: &[u8]) -> bool
    ensures { result ≡ is_event word.now }
{
    if is_ignore(word) {
        return true;
    }
    match event_named(word) {
        Some(event) => is_spelled(event.name),
        None => false,
    }
}
