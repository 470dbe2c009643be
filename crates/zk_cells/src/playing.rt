ghost use Rattle.std.specs.Prelude.{◌≡◌, ◌<◌, ◌≤◌, ℕ, length, map, List, All, IfOk};
ghost use Rattle.zk_base.specs.History.{Rises};
ghost use Rattle.zk_base.specs.Legal.{IsLegal};
ghost use Rattle.zk_base.specs.Limits.{most_entries};
ghost use Rattle.zk_base.specs.declared.seen.Seen.{Seen};
ghost use Rattle.zk_model_wait.specs.Signal.{new_signal, signal_machine};
ghost use Rattle.zk_poll.specs.Seen.{signal_start, signal_history};
ghost use Rattle.zk_signal.specs.Counts.{CountsFrom};
ghost use Rattle.zk_cells.specs.Closed.{AreInStep, IsPlayedIn, ArePlayed};
ghost use Rattle.zk_cells.specs.Joined.{HasSharedIn, HaveShared, left_at};
ghost use Rattle.zk_cells.specs.Kernels.{IsSharedBy};
ghost use Rattle.zk_cells.specs.Notes.{stamp_noted, notes_at, writes_at};

use crate::notes::Note;
use std::alloc::Global;
use zk_base::{Entry, NoMemory, Service};
use zk_model_wait::SignalReply;
use zk_poll::Signal;
use zk_signal::{HasStamp, SharedSignal, SigPass, in_stamp_order};

impl HasStamp for Note {
    ghost use Rattle.zk_cells.specs.Notes.{stamp_noted};

    ghost stamp_of = { stamp_noted };

    fn stamp(&self) -> u32 {
        let SignalReply::Stamp(stamp) = self.entry.reply;
        stamp
    }
}

impl Note {
    /// A copy of it.
    fn copy(&self) -> Note
        ensures { result ≡ self.now }
    {
        Note {
            signal: self.signal,
            entry: Entry {
                who: self.entry.who,
                step: self.entry.step,
                op: self.entry.op,
                reply: self.entry.reply,
            },
        }
    }
}

/// The notes of one signal among these, in their order.
fn notes_at(alloc: Global, notes: &[Note], object: usize) -> Result<Vec<Note>, NoMemory>
    ensures { IfOk result (λ made. made.items ≡ notes_at notes.now object) }
{
    let mut made = Vec::new(alloc);
    for note in notes {
        if note.signal as usize == object {
            made.push(note.copy())?;
        }
    }
    Ok(made)
}

/// A signal with the history of these writes, whose stamps are 1, 2 and so on.
fn play(alloc: Global, notes: &[Note]) -> Result<Signal, NoMemory>
    requires order { CountsFrom 0 (map stamp_noted notes.now) }
    requires steps { Rises (map (λ n. n.entry) notes.now) }
    requires few { length notes.now < most_entries }
    ensures start { IfOk result (λ made. signal_start made ≡ new_signal) }
    ensures history { IfOk result (λ made. signal_history made ≡ map (λ n. n.entry) notes.now) }
    ensures legal { IfOk result (λ made. IsLegal signal_machine new_signal (map (λ n. n.entry) notes.now)) }
{
    let mut signal = Signal::new(alloc);
    for note in notes {
        let entry = &note.entry;
        signal.act(entry.who, entry.step, entry.op)?;
    }
    let _history = signal.history();
    Ok(signal)
}

/// Closes the signal of an object, where it has one, and plays its writes, which stand among these notes.
fn empty_signal(
    alloc: Global,
    signal: Option<SharedSignal>,
    pass: Option<SigPass>,
    notes: &[Note],
    object: usize,
) -> Result<Option<Signal>, NoMemory>
    requires all { (numbers : List ℕ) × (looks : List Seen) × HasSharedIn numbers (left_at notes.now object) looks signal pass
        × IsSharedBy (length numbers) signal × (length numbers ≤ 256) }
    requires steps { AreInStep notes.now }
    ensures { IfOk result (λ made. (numbers : List ℕ) (looks : List Seen) →
        HasSharedIn numbers (left_at notes.now object) looks signal pass →
        IsPlayedIn (writes_at notes.now object) looks signal made) }
{
    let Some(signal) = signal else {
        return Ok(None);
    };
    let Some(pass) = pass else { unreachable!() };
    let _count = signal.close(pass);
    let mut own = notes_at(alloc, notes, object)?;
    in_stamp_order(&mut own);
    Ok(Some(play(alloc, &own)?))
}

/// Closes the signals, and plays their writes, all of which stand among these notes.
pub fn empty_signals(
    alloc: Global,
    mut signals: Vec<Option<SharedSignal>>,
    mut passes: Vec<Option<SigPass>>,
    notes: &[Note],
) -> Result<Vec<Option<Signal>>, NoMemory>
    requires all { (numbers : List ℕ) × (looks : ℕ → List Seen) ×
        HaveShared numbers (left_at notes.now) looks signals.items passes.items
        × All (IsSharedBy (length numbers)) signals.items × (length numbers ≤ 256) }
    requires steps { AreInStep notes.now }
    ensures { IfOk result (λ made. (numbers : List ℕ) (looks : ℕ → List Seen) →
        HaveShared numbers (left_at notes.now) looks signals.items passes.items →
        ArePlayed (writes_at notes.now) looks signals.items made.items) }
{
    let mut services = Vec::new(alloc);
    for index in 0..signals.len() {
        let signal = signals[index].take();
        let pass = passes[index].take();
        services.push(empty_signal(alloc, signal, pass, notes, index)?)?;
    }
    Ok(services)
}
