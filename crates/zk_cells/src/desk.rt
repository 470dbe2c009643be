ghost use Rattle.std.specs.Prelude.{◌≡◌, ◌<◌, true, false, None, IfOk, OnErr};
ghost use Rattle.zk_base.specs.Causes.{Rose, counted};
ghost use Rattle.zk_scenario.specs.declared.scenario.TheConstants.{MOST_STEPS};
ghost use Rattle.zk_worker.specs.Attempt.{is_in_range, Attempted, KeepsElsewhere, NoneFell, SamePlayers};
ghost use Rattle.zk_worker.specs.Shown.{IsLater};
ghost use Rattle.zk_cells.specs.Desks.{cells_machines, IsServed, desk_shown, desk_counts};
ghost use Rattle.zk_cells.specs.Memory.{wants_none};

use crate::at_cells::visit_at;
use crate::cells::Cells;
use crate::passes::Passes;
use crate::quick::quick_attempt;
use std::sync::Wait;
use zk_base::{NoMemory, Who};
use zk_visit::visit;
use zk_worker::{Services, Step, StepReply};

/// A caller at the services that others use too: what its player plays on.
pub struct Desk<'a, R: Wait> {
    pub rt: &'a R,
    pub cells: &'a Cells,
    pub passes: Passes,
}

/// One attempt at a service of which there is one, by the names of its cell and its pass and of its kind of reply.
macro_rules! at_service {
    ($desk:expr, $cell:ident, $who:expr, $number:expr, $op:expr, $kind:ident) => {{
        let made = visit(
            $desk.rt,
            &$desk.cells.$cell,
            &mut $desk.passes.$cell,
            $who,
            $number,
            *$op,
        )?;
        Ok(made.map(|made| StepReply::$kind(made.0, made.1)))
    }};
}

/// One attempt at an object of a kind of which there are many.
macro_rules! at_object {
    ($desk:expr, $cells:ident, $object:expr, $who:expr, $number:expr, $op:expr, $kind:ident) => {{
        let made = visit_at(
            $desk.rt,
            &$desk.cells.$cells,
            &mut $desk.passes.$cells,
            *$object,
            $who,
            $number,
            *$op,
        )?;
        Ok(made.map(|made| StepReply::$kind(*$object, made.0, made.1)))
    }};
}

impl<'a, R: Wait> Services for Desk<'a, R> {
    type Home = Cells;

    ghost home = { λ d. d.cells.now };

    ghost machines = { λ d. cells_machines d.cells.now };

    ghost serves = { λ d who. IsServed d.cells.now d.passes who };

    ghost alone = { λ d. false };

    ghost shown = { λ d. desk_shown d.passes };

    ghost wants_none = { wants_none };

    ghost counts = { λ d. desk_counts d.passes };

    fn attempt(&mut self, who: Who, number: u32, step: &Step) -> Result<Option<StepReply>, NoMemory>
        requires served { IsServed self.old.cells.now self.old.passes who }
        requires range { is_in_range (cells_machines self.old.cells.now) step.now ≡ true }
        requires number { number < MOST_STEPS }
        requires room { number < (cells_machines self.old.cells.now).most }
        requires later { IsLater (desk_shown self.old.passes) who.number number }
        ensures attempted { Attempted false (cells_machines self.old.cells.now) who number step.now
            (desk_shown self.old.passes) (desk_shown self.new.passes) result }
        ensures elsewhere { KeepsElsewhere step.now (desk_shown self.old.passes) (desk_shown self.new.passes) }
        ensures memory { OnErr result (wants_none (cells_machines self.old.cells.now)
            (desk_shown self.new.passes) who step.now ≡ false) }
        ensures counts { NoneFell (desk_counts self.old.passes) (desk_counts self.new.passes) }
        ensures rose { IfOk result (λ reply. reply ≡ None →
            Rose (desk_counts self.old.passes step.now) (desk_counts self.new.passes step.now)) }
        ensures machines { cells_machines self.new.cells.now ≡ cells_machines self.old.cells.now }
        ensures serves { SamePlayers (IsServed self.old.cells.now self.old.passes) (IsServed self.new.cells.now self.new.passes) }
        ensures home { self.new.cells.now ≡ self.old.cells.now }
        // Beside what any services give: an attempt that wasn't possible is counted once.
        ensures once { IfOk result (λ reply. reply ≡ None →
            desk_counts self.new.passes step.now ≡ counted (desk_counts self.old.passes step.now)) }
    {
        match step {
            Step::Work(op) => at_service!(self, work, who, number, op, Work),
            Step::Clock(op) => at_service!(self, clock, who, number, op, Clock),
            Step::Table(op) => at_service!(self, table, who, number, op, Table),
            Step::Sem(object, op) => at_object!(self, sems, object, who, number, op, Sem),
            Step::Msgq(object, op) => at_object!(self, msgqs, object, who, number, op, Msgq),
            Step::Chan(object, op) => at_object!(self, chans, object, who, number, op, Chan),
            Step::Obs(object, op) => at_object!(self, observers, object, who, number, op, Obs),
            Step::Signal(_, _) | Step::LookSignal(_, _) | Step::LookItem(_) => Ok(quick_attempt(
                self.cells,
                &mut self.passes,
                who,
                number,
                step,
            )),
        }
    }
}
