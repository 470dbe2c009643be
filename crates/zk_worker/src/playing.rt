ghost use Rattle.std.specs.Prelude.{◌≡◌, ℕ, ◌<◌, Bool, true, false, None, length, IfOk, OnErr};
ghost use Rattle.zk_base.specs.declared.ids.Who.{Who};
ghost use Rattle.zk_scenario.specs.Steps.{steps_of};
ghost use Rattle.zk_scenario.specs.Valid.{IsValid};
ghost use Rattle.zk_worker.specs.Protocol.{attempts, IsAhead};
ghost use Rattle.zk_worker.specs.Follows.{IsFollowing};
ghost use Rattle.zk_worker.specs.Ranges.{IsFit};
ghost use Rattle.zk_worker.specs.Machines.{machines_of};
ghost use Rattle.zk_worker.specs.Shown.{ShowsLog, AreShort, OnlyOthersCame};
ghost use Rattle.zk_worker.specs.Right.{LooksRight};
ghost use Rattle.zk_worker.specs.Attempt.{is_in_range, SamePlayers};
ghost use Rattle.zk_worker.specs.Playing.{made_of, HasWanted, Tried, StepOutcome};

use crate::steps::MOST_ATTEMPTS;
use crate::{Player, Services, Step, StepReply};
use zk_base::NoMemory;
use zk_scenario::Scenario;

/// What came of the next step of a player.
#[derive(Clone, Copy, PartialEq, Eq)]
pub enum Stepped {
    /// The step was made.
    Did,
    /// Each attempt of the step was made, and none was possible.
    NotYet,
    /// A thread is through its script.
    Ended,
    /// The player has made all the steps that it may make.
    Spent,
}

/// Makes the attempts of a player in order, up to the first that is possible, puts that one and hands out its reply.
fn try_ahead<V: Services>(
    services: &mut V,
    scenario: &Scenario,
    player: &Player,
    ahead: &mut Option<Step>,
) -> Result<Option<StepReply>, NoMemory>
    requires served { V.serves services.old player.now.who }
    requires range { (step : Step) → IsAhead scenario.now player.now step →
        is_in_range (V.machines services.old) step ≡ true }
    requires room { (V.machines services.old).most ≡ steps_of scenario.now }
    requires log { ShowsLog (V.shown services.old) player.now.who.number player.now.spots }
    requires short { V.alone services.old ≡ true → AreShort (V.shown services.old) }
    ensures tried { IfOk result (λ told.
        Tried (V.alone services.old) (V.machines services.old)
        player.now.who (length player.now.spots) (attempts scenario.now player.now)
        (V.shown services.old) (V.shown services.new) (V.counts services.old) (V.counts services.new) (made_of told ahead.new)) }
    ensures err { OnErr result (OnlyOthersCame (V.alone services.old) player.now.who.number
        (V.shown services.old) (V.shown services.new)) }
    ensures memory { OnErr result (HasWanted V.wants_none (V.machines services.old) (V.shown services.new)
        scenario.now player.now) }
    ensures machines { V.machines services.new ≡ V.machines services.old }
    ensures serves { SamePlayers (V.serves services.old) (V.serves services.new) }
    ensures alone { V.alone services.new ≡ V.alone services.old }
    ensures home { V.home services.new ≡ V.home services.old }
{
    for index in 0..MOST_ATTEMPTS {
        player.put_ahead(scenario, index, ahead);
        let Some(step) = &*ahead else {
            return Ok(None);
        };
        if let Some(reply) = services.attempt(player.who(), player.steps(), step)? {
            return Ok(Some(reply));
        }
    }
    Ok(None)
}

impl Player {
    /// Makes the next step on these services: the first of its attempts that is possible.
    ///
    /// After want of memory it can be called again.
    pub fn step<V: Services>(
        &mut self,
        scenario: &Scenario,
        services: &mut V,
    ) -> Result<Stepped, NoMemory>
        // The services serve this player of this scenario, and show of it just its log, whose looks are right.
        requires valid { IsValid scenario.now }
        requires machines { V.machines services.old ≡ machines_of scenario.now }
        requires served { V.serves services.old self.old.who }
        requires fits { IsFit scenario.now self.old }
        requires log { ShowsLog (V.shown services.old) self.old.who.number self.old.spots }
        requires looks { LooksRight (V.machines services.old) (V.shown services.old) self.old.spots }
        requires short { V.alone services.old ≡ true → AreShort (V.shown services.old) }

        // What was done, by the answer.
        ensures does { IfOk result (λ stepped.
            StepOutcome (V.alone services.old) (V.machines services.old) scenario.now self.old self.new
            (V.shown services.old) (V.shown services.new) (V.counts services.old) (V.counts services.new) stepped) }
        ensures unchanged { OnErr result (self.new ≡ self.old) }
        ensures err { OnErr result (OnlyOthersCame (V.alone services.old) self.old.who.number
            (V.shown services.old) (V.shown services.new)) }
        ensures memory { OnErr result (HasWanted V.wants_none (V.machines services.old) (V.shown services.new)
            scenario.now self.old) }

        // After every answer it can be called again.
        ensures log { ShowsLog (V.shown services.new) self.new.who.number self.new.spots }
        ensures looks { LooksRight (V.machines services.new) (V.shown services.new) self.new.spots }
        ensures follows { (number : ℕ) → IsFollowing scenario.now number (V.shown services.old) self.old →
            IsFollowing scenario.now number (V.shown services.new) self.new }
        ensures fits { IsFit scenario.now self.new }
        ensures machines { V.machines services.new ≡ V.machines services.old }
        ensures serves { SamePlayers (V.serves services.old) (V.serves services.new) }
        ensures alone { V.alone services.new ≡ V.alone services.old }
        ensures home { V.home services.new ≡ V.home services.old }
    {
        if self.is_spent(scenario) {
            return Ok(Stepped::Spent);
        }
        if self.is_through() {
            return Ok(Stepped::Ended);
        }
        let mut ahead = None;
        let told = try_ahead(services, scenario, self, &mut ahead)?;
        let Some(reply) = &told else {
            return Ok(Stepped::NotYet);
        };
        let Some(step) = &ahead else {
            return Ok(Stepped::NotYet);
        };
        self.made(scenario, step, reply);
        Ok(Stepped::Did)
    }
}
