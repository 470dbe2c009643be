ghost use Rattle.std.specs.Prelude.{◌≡◌, ◌<◌, true, false, None, Ok};
ghost use Rattle.zk_base.specs.Causes.{Rose, counted};
ghost use Rattle.zk_scenario.specs.declared.scenario.TheConstants.{MOST_STEPS};
ghost use Rattle.zk_worker.specs.Attempt.{is_in_range, Attempted, KeepsElsewhere, NoneFell};
ghost use Rattle.zk_worker.specs.Looks.{look_reply};
ghost use Rattle.zk_worker.specs.Shown.{IsLater};
ghost use Rattle.zk_cells.specs.Desks.{cells_machines, IsServed, desk_shown, desk_counts};
ghost use Rattle.zk_cells.specs.Quick.{is_quick, FoundClear};

use crate::cells::Cells;
use crate::items::item_at;
use crate::passes::Passes;
use crate::signals::{look_at, write_at};
use zk_base::{Seen, Who};
use zk_model_wait::SignalReply;
use zk_visit::look;
use zk_worker::{Step, StepReply};

/// Whether a step takes no turn: a write or a look at a signal, or a look at an item.
pub fn is_quick(step: &Step) -> bool
    ensures { result ≡ is_quick step.now }
{
    match step {
        Step::Signal(_, _) | Step::LookSignal(_, _) | Step::LookItem(_) => true,
        _ => false,
    }
}

/// What a look that found this is answered: nothing where it has to find the signal raised and doesn't.
fn told(must: bool, seen: Seen) -> Option<StepReply>
    ensures { result ≡ look_reply must seen }
{
    if must && !seen.raised {
        return None;
    }
    Some(StepReply::Seen(seen))
}

/// One attempt without a turn, with a caller's passes. It takes no memory, and waits for nobody.
pub fn quick_attempt(
    cells: &Cells,
    passes: &mut Passes,
    who: Who,
    number: u32,
    step: &Step,
) -> Option<StepReply>
    requires quick { is_quick step.now ≡ true }
    requires served { IsServed cells.now passes.old who }
    requires range { is_in_range (cells_machines cells.now) step.now ≡ true }
    requires number { number < MOST_STEPS }
    requires room { number < cells.now.most }
    requires later { IsLater (desk_shown passes.old) who.number number }
    ensures attempted { Attempted false (cells_machines cells.now) who number step.now
        (desk_shown passes.old) (desk_shown passes.new) (Ok result) }
    ensures elsewhere { KeepsElsewhere step.now (desk_shown passes.old) (desk_shown passes.new) }
    ensures counts { NoneFell (desk_counts passes.old) (desk_counts passes.new) }
    ensures rose { result ≡ None → Rose (desk_counts passes.old step.now) (desk_counts passes.new step.now) }
    ensures once { result ≡ None → desk_counts passes.new step.now ≡ counted (desk_counts passes.old step.now) }
    ensures none { result ≡ None → FoundClear step.now (desk_shown passes.old) (desk_shown passes.new) }
    ensures served { IsServed cells.now passes.new who }
{
    match step {
        Step::Signal(object, op) => {
            let stamp = write_at(
                &cells.signals,
                &mut passes.signals,
                &mut passes.notes,
                *object,
                who,
                number,
                *op,
            );
            let place = (stamp - 1) as u64;
            Some(StepReply::Signal(*object, SignalReply::Stamp(stamp), place))
        }
        Step::LookSignal(object, must) => {
            let seen = look_at(&cells.signals, &mut passes.signals, *object);
            told(*must, seen)
        }
        Step::LookItem(object) => {
            let item = item_at(cells, *object);
            let found = look(&cells.work, &mut passes.work, who, number, item);
            passes.looked = number + 1;
            Some(StepReply::Flags(found.word as u8, found.at))
        }
        _ => unreachable!(),
    }
}
