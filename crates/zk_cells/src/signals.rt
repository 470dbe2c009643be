ghost use Rattle.std.specs.Prelude.{◌≡◌, ◌<◌, ◌≤◌, ℕ, true, length, List, Some, is_some, vec_len, vec_capacity};
ghost use Rattle.zk_base.specs.declared.ids.Who.{Who};
ghost use Rattle.zk_scenario.specs.declared.scenario.TheConstants.{MOST_STEPS};
ghost use Rattle.zk_signal.specs.declared.pass.SigPass.{SigPass};
ghost use Rattle.zk_signal.specs.declared.signal.SharedSignal.{SharedSignal};
ghost use Rattle.zk_worker.specs.Families.{start_of, takes_at};
ghost use Rattle.zk_cells.specs.Notes.{Write, writes_at};
ghost use Rattle.zk_cells.specs.Signals.{signal_family, HasOwnIn, HaveOwn, HasWritten, HasFound, NowIs, WroteAmong, FoundAmong};

use crate::notes::Note;
use zk_base::{Entry, Seen, Who, push_within};
use zk_model_wait::{SignalOp, SignalReply};
use zk_signal::{SharedSignal, SigPass};

/// A write at the signal of an object that has one: its stamp.
fn write_one(signal: &Option<SharedSignal>, pass: &mut Option<SigPass>, op: SignalOp) -> u32
    requires own { (who : Who) × (own : List Write) × HasOwnIn who own signal.now pass.old × (length own < MOST_STEPS) }
    requires some { is_some signal.now ≡ true }
    ensures wrote { (s : SharedSignal) (p : SigPass) → signal.now ≡ Some s → pass.old ≡ Some p →
        NowIs (HasWritten s p op result) pass.new }
{
    let Some(signal) = signal else { unreachable!() };
    let Some(pass) = pass else { unreachable!() };
    match op {
        SignalOp::Raise(value) => signal.raise(pass, value),
        SignalOp::Clear => signal.clear(pass),
    }
}

/// A look at the signal of an object that has one.
fn look_one(signal: &Option<SharedSignal>, pass: &mut Option<SigPass>) -> Seen
    requires own { (who : Who) × (own : List Write) × HasOwnIn who own signal.now pass.old }
    requires some { is_some signal.now ≡ true }
    ensures found { (s : SharedSignal) (p : SigPass) → signal.now ≡ Some s → pass.old ≡ Some p →
        NowIs (HasFound s p result) pass.new }
{
    let Some(signal) = signal else { unreachable!() };
    let Some(pass) = pass else { unreachable!() };
    signal.look(pass)
}

/// A write at the signal of an object number, which is noted: its stamp. It takes no turn and no memory.
pub fn write_at(
    signals: &[Option<SharedSignal>],
    passes: &mut Vec<Option<SigPass>>,
    notes: &mut Vec<Note>,
    object: u32,
    who: Who,
    step: u32,
    op: SignalOp,
) -> u32
    requires own { HaveOwn who (writes_at notes.old.items) signals.now passes.old.items }
    requires taken { takes_at (signal_family signals.now) object op ≡ true }
    requires few { length notes.old.items < MOST_STEPS }
    requires room { length notes.old.items < vec_capacity notes.old }
    ensures wrote { WroteAmong signals.now object who step op result passes.old.items passes.new.items
        notes.old.items notes.new.items }
    ensures capacity { vec_capacity notes.old ≤ vec_capacity notes.new }
{
    let index = object as usize;
    let stamp = write_one(&signals[index], &mut passes[index], op);
    let entry = Entry {
        who,
        step,
        op,
        reply: SignalReply::Stamp(stamp),
    };
    push_within(
        notes,
        Note {
            signal: object,
            entry,
        },
    );
    stamp
}

/// A look at the signal of an object number. It takes no turn.
pub fn look_at(
    signals: &[Option<SharedSignal>],
    passes: &mut Vec<Option<SigPass>>,
    object: u32,
) -> Seen
    requires own { (who : Who) × (own : ℕ → List Write) × HaveOwn who own signals.now passes.old.items }
    requires taken { is_some (start_of (signal_family signals.now) object) ≡ true }
    ensures found { FoundAmong signals.now object result passes.old.items passes.new.items }
{
    let index = object as usize;
    look_one(&signals[index], &mut passes[index])
}
