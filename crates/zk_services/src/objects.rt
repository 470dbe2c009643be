ghost use Rattle.std.specs.Prelude.{◌≡◌, ℕ, ◌<◌, true, false, Some, List, [], set, length, slice_get, option_map, IfOk, OnErr};
ghost use Rattle.zk_base.specs.Limits.{most_entries};
ghost use Rattle.zk_base.specs.declared.ids.Entry.{Entry};
ghost use Rattle.zk_base.specs.History.{extended, IsAbove};
ghost use Rattle.zk_worker.specs.declared.steps.StepReply.{StepReply};
ghost use Rattle.zk_worker.specs.Families.{answer_at, closes_at, takes_at};
ghost use Rattle.zk_services.specs.Objects.{starts_of, history_of, histories_of, is_taken, made_of, histories_after, closes_in};

use std::alloc::Global;
use zk_base::{Entry, Listed, NoMemory, Service, Who};

/// One attempt at an object: the reply, and the place of its entry.
fn act_one<S: Service>(
    slot: &mut Option<S>,
    who: Who,
    step: u32,
    op: S::Op,
) -> Result<Option<(S::Reply, u64)>, NoMemory>
    requires taken { is_taken S.machine S.start slot.old op ≡ true }
    requires later { IsAbove (history_of S.history slot.old) who.number step }
    requires short { length (history_of S.history slot.old) < most_entries }
    ensures made { IfOk result (λ made.
        made ≡ made_of S.machine S.start S.history slot.old who op) }
    ensures entry { IfOk result (λ made. history_of S.history slot.new
        ≡ extended (history_of S.history slot.old) who step op (option_map (λ made. made.0) made)) }
    ensures err { OnErr result (history_of S.history slot.new ≡ history_of S.history slot.old) }
    ensures memory { OnErr result (closes_in S.closes S.machine S.start S.history slot.old who op ≡ false) }
    ensures start { option_map S.start slot.new ≡ option_map S.start slot.old }
{
    let Some(service) = slot else { unreachable!() };
    let place = service.history().len() as u64;
    let reply = service.act(who, step, op)?;
    Ok(reply.map(|reply| (reply, place)))
}

/// One attempt at one of the objects of a kind, which stand by object number: the reply, and the place of its entry.
///
/// All other objects stay as they are.
pub fn act_at<S: Service>(
    objects: &mut Vec<Option<S>>,
    object: u32,
    who: Who,
    step: u32,
    op: S::Op,
) -> Result<Option<(S::Reply, u64)>, NoMemory>
    // It is an object of the kind, whose history has room and no entry of this step or a later one.
    requires taken { takes_at (record { machine = S.machine; starts = starts_of S.start objects.old.items }) object op ≡ true }
    requires later { (h : List (Entry S.Op S.Reply)) →
        slice_get (histories_of S.history objects.old.items) object ≡ Some h → IsAbove h who.number step }
    requires short { (h : List (Entry S.Op S.Reply)) →
        slice_get (histories_of S.history objects.old.items) object ≡ Some h → length h < most_entries }

    // The machine's answer, whatever step's reply it is told as, and one entry just where there is one.
    ensures made { IfOk result (λ made. (step_reply : ℕ → S.Reply → ℕ → StepReply) →
        option_map (λ made. step_reply object made.0 made.1) made
        ≡ answer_at (record { machine = S.machine; starts = starts_of S.start objects.old.items })
        (histories_of S.history objects.old.items) step_reply who object op) }
    ensures entry { IfOk result (λ made. histories_of S.history objects.new.items
        ≡ histories_after (histories_of S.history objects.old.items) object who step op made) }
    ensures err { OnErr result (histories_of S.history objects.new.items ≡ histories_of S.history objects.old.items) }
    ensures memory { OnErr result (closes_at S.closes
        (record { machine = S.machine; starts = starts_of S.start objects.old.items })
        (histories_of S.history objects.old.items) who object op ≡ false) }
    ensures others { set (histories_of S.history objects.new.items) object []
        ≡ set (histories_of S.history objects.old.items) object [] }
    ensures start { starts_of S.start objects.new.items ≡ starts_of S.start objects.old.items }
{
    act_one(&mut objects[object as usize], who, step, op)
}

/// All entries of an object, oldest first; one of another kind has none.
fn history_of<S: Service>(alloc: Global, object: Option<S>) -> Listed<Entry<S::Op, S::Reply>>
    ensures { result ≡ history_of S.history object }
{
    match object {
        Some(service) => Listed::from_vec(service.into_history()),
        None => Listed::new(alloc),
    }
}

/// All entries of each object, by object number.
pub fn histories_of<S: Service>(
    alloc: Global,
    objects: Vec<Option<S>>,
) -> Result<Listed<Listed<Entry<S::Op, S::Reply>>>, NoMemory>
where
    S::Op: Drop,
    S::Reply: Drop,
    ensures { IfOk result (λ all. all ≡ histories_of S.history objects.items) }
{
    let all: Vec<Listed<Entry<S::Op, S::Reply>>> = objects
        .into_iter()
        .map(|object| history_of(alloc, object))
        .collect(alloc)?;
    Ok(Listed::from_vec(all))
}
