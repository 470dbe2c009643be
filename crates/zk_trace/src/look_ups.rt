ghost use Rattle.std.specs.Prelude.{◌≡◌};
ghost use Rattle.zk_line.specs.Objects.{is_at, is_met, object_of};
ghost use Rattle.zk_trace.specs.Fields.{object_named, item_of, queue_of, target_of, thread_of, chan_of, observer_of, checked_of};

use crate::names::{checked_name, target_name};
use zk_line::kind_of;
use zk_model_bus::Need;
use zk_scenario::{Decl, Scenario};
use zk_words::is_same;

/// An object of any kind.
pub fn object_of(scenario: &Scenario, word: &[u8]) -> Option<u32>
    ensures { result ≡ object_of scenario.now.decls word.now }
{
    scenario.find(word)
}

/// An item, by its number among the items.
pub fn item_of(scenario: &Scenario, word: &[u8]) -> Option<u32>
    ensures { result ≡ item_of scenario.now.decls word.now }
{
    Some(scenario.number(object_named(scenario, Need::Item, word)?))
}

/// A queue, by its number among the queues.
pub fn queue_of(scenario: &Scenario, word: &[u8]) -> Option<u32>
    ensures { result ≡ queue_of scenario.now.decls word.now }
{
    Some(scenario.number(object_named(scenario, Need::Queue, word)?))
}

/// The queue that a submission names, or none.
pub fn target_of(scenario: &Scenario, word: &[u8]) -> Option<Option<u32>>
    ensures { result ≡ target_of scenario.now.decls word.now }
{
    if is_same(word, target_name(scenario, None)) {
        return Some(None);
    }
    Some(Some(queue_of(scenario, word)?))
}

/// A thread.
pub fn thread_of(scenario: &Scenario, word: &[u8]) -> Option<u32>
    ensures { result ≡ thread_of scenario.now.decls word.now }
{
    object_named(scenario, Need::Thread, word)
}

/// A channel.
pub fn chan_of(scenario: &Scenario, word: &[u8]) -> Option<u32>
    ensures { result ≡ chan_of scenario.now.decls word.now }
{
    object_named(scenario, Need::Chan, word)
}

/// A subscriber or a listener.
pub fn observer_of(scenario: &Scenario, word: &[u8]) -> Option<u32>
    ensures { result ≡ observer_of scenario.now.decls word.now }
{
    object_named(scenario, Need::Obs, word)
}

/// The object that a check asks of, or none.
pub fn checked_of(scenario: &Scenario, word: &[u8]) -> Option<Option<u32>>
    ensures { result ≡ checked_of scenario.now.decls word.now }
{
    if is_same(word, checked_name(scenario, None)) {
        return Some(None);
    }
    Some(Some(scenario.find(word)?))
}

/// The object of a name, where it meets the need.
pub fn object_named(scenario: &Scenario, need: Need, word: &[u8]) -> Option<u32>
    ensures { result ≡ object_named (is_met need) scenario.now.decls word.now }
{
    let object = scenario.find(word)?;
    if meets_at(scenario.decls(), object, need) {
        Some(object)
    } else {
        None
    }
}

fn meets_at(decls: &[Decl], object: u32, need: Need) -> bool
    ensures { result ≡ is_at (is_met need) decls.now object }
{
    match decls.get(object as usize) {
        Some(decl) => need.is_met_by(kind_of(decl)),
        None => false,
    }
}
