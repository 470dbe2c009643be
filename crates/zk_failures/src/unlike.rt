ghost use Rattle.std.specs.Prelude.{◌≡◌, ◌^◌, ◌<◌, [], None, length, option_map, IfOk, All};
ghost use Rattle.std.specs.List.{AllZip};
ghost use Rattle.zk_base.specs.Limits.{most_entries};
ghost use Rattle.zk_services.specs.Objects.{starts_of, history_of, histories_of};
ghost use Rattle.zk_trace.specs.Text.{looks_at};
ghost use Rattle.zk_failures.specs.Answering.{FirstUnlike, FirstUnlikeAt, FirstAmong, line_count};
ghost use Rattle.zk_failures.specs.Playable.{IsPlayable, IsPlayableAt};

use zk_alike::{Alike, answers};
use zk_base::{Entry, Listed, NoMemory, Service};
use zk_trace::{History, SignalLook};

/// The place of the first of these entries that a service, at which nothing was done, doesn't answer so.
pub fn first_unlike<S: Service>(
    service: &mut S,
    entries: &[Entry<S::Op, S::Reply>],
) -> Result<Option<u64>, NoMemory>
where
    S::Op: Copy,
    S::Reply: Alike,
    requires none { S.history service.old ≡ [] }
    requires playable { IsPlayable S.machine (S.start service.old) entries.now }
    ensures found { IfOk result (λ place. FirstUnlike S.machine (S.start service.old) entries.now place) }
    ensures history { IfOk result (λ place. place ≡ None → S.history service.new ≡ entries.now) }
    ensures start { S.start service.new ≡ S.start service.old }
{
    for (place, entry) in entries.iter().enumerate() {
        if !answers(service, entry)? {
            return Ok(Some(place as u64));
        }
    }
    Ok(None)
}

/// The same of an object, if it is of the kind. One of another kind has no entries.
fn first_unlike_at<S: Service>(
    object: &mut Option<S>,
    entries: &[Entry<S::Op, S::Reply>],
) -> Result<Option<u64>, NoMemory>
where
    S::Op: Copy,
    S::Reply: Alike,
    requires none { history_of S.history object.old ≡ [] }
    requires playable { IsPlayableAt S.machine (option_map S.start object.old) entries.now }
    ensures found { IfOk result (λ place. FirstUnlikeAt S.machine (option_map S.start object.old) entries.now place) }
    ensures history { IfOk result (λ place. place ≡ None → history_of S.history object.new ≡ entries.now) }
    ensures start { option_map S.start object.new ≡ option_map S.start object.old }
{
    match object {
        Some(service) => first_unlike(service, entries),
        None => Ok(None),
    }
}

/// How many looks there are at the object of a number.
fn look_count(looks: &[Listed<SignalLook>], object: usize) -> u64
    ensures { result ≡ length (looks_at looks.now object) }
{
    match looks.get(object) {
        Some(looks) => looks.items().len() as u64,
        None => 0,
    }
}

/// How many lines the objects of a kind have, the looks at them included.
pub fn line_count<O, R>(histories: &[History<O, R>], looks: &[Listed<SignalLook>]) -> u64
    requires { line_count looks.now 0 histories.now < most_entries }
    ensures { result ≡ line_count looks.now 0 histories.now }
{
    let mut lines = 0;
    for (object, history) in histories.iter().enumerate() {
        lines += history.items().len() as u64 + look_count(looks, object);
    }
    lines
}

/// The place, among the lines of the objects of a kind, of the first entry that its object, at which nothing was done,
/// doesn't answer so.
pub fn first_among<S: Service>(
    objects: &mut Vec<Option<S>>,
    histories: &[History<S::Op, S::Reply>],
    looks: &[Listed<SignalLook>],
) -> Result<Option<u64>, NoMemory>
where
    S::Op: Copy,
    S::Reply: Alike,
    requires none { All (λ h. h ≡ []) (histories_of S.history objects.old.items) }
    requires playable { AllZip (IsPlayableAt S.machine) (starts_of S.start objects.old.items) histories.now }
    requires few { line_count looks.now 0 histories.now < most_entries }
    ensures found { IfOk result (λ row.
        FirstAmong S.machine looks.now 0 (starts_of S.start objects.old.items) histories.now row) }
    ensures histories { IfOk result (λ row. row ≡ None → histories_of S.history objects.new.items ≡ histories.now) }
    ensures starts { starts_of S.start objects.new.items ≡ starts_of S.start objects.old.items }
{
    let mut lines = 0;
    for (object, history) in histories.iter().enumerate() {
        if let Some(place) = first_unlike_at(&mut objects[object], history.items())? {
            return Ok(Some(lines + place));
        }
        lines += history.items().len() as u64 + look_count(looks, object);
    }
    Ok(None)
}
