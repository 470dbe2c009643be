ghost use Rattle.std.specs.Prelude.{◌≡◌, IfOk};
ghost use Rattle.zk_show_why.specs.Players.{players_in, same_state};

use crate::awaited::{Keeper, keeper_of};
use crate::stand::{Stand, stand_of};
use std::alloc::Global;
use zk_base::NoMemory;
use zk_scenario::{Call, Scenario};
use zk_trace::Trace;
use zk_worker::{Log, PlayerState};

/// A run, and where each player stands in the scripts that its log doesn't lead through.
#[derive(Drop)]
pub struct Run<'a> {
    pub scenario: &'a Scenario,
    pub trace: &'a Trace,
    // By the player's number. There is nothing where it isn't asked, or the log doesn't follow the scripts.
    stands: Vec<Option<Stand>>,
}

impl<'a> Run<'a> {
    pub fn of(alloc: Global, scenario: &'a Scenario, trace: &'a Trace) -> Result<Run<'a>, NoMemory>
        ensures scenario { IfOk result (λ run. run.scenario.now ≡ scenario.now) }
        ensures trace { IfOk result (λ run. run.trace.now ≡ trace.now) }
    {
        let mut stands = Vec::new(alloc);
        for (player, log) in trace.logs.items().iter().enumerate() {
            let stand = match log.state {
                PlayerState::Standing => stand_of(alloc, scenario, trace, player, log)?,
                PlayerState::Oops => stand_of(alloc, scenario, trace, player, log)?,
                PlayerState::Done => None,
                PlayerState::Spent => None,
            };
            stands.push(stand)?;
        }
        Ok(Run {
            scenario,
            trace,
            stands,
        })
    }

    /// The players whose logs say this state, in order.
    pub fn players_in(&self, alloc: Global, state: PlayerState) -> Result<Vec<usize>, NoMemory>
        ensures { IfOk result (λ players. players.items ≡ players_in state self.now.trace.now) }
    {
        let mut players = Vec::new(alloc);
        for (player, log) in self.trace.logs.items().iter().enumerate() {
            if is_same_state(log.state, state) {
                players.push(player)?;
            }
        }
        Ok(players)
    }

    pub fn log(&self, player: usize) -> Option<&Log> {
        self.trace.logs.items().get(player)
    }

    /// How a player stands.
    pub fn state(&self, player: usize) -> Option<PlayerState> {
        Some(self.log(player)?.state)
    }

    /// Where a player stands whom its log doesn't lead through its scripts.
    pub fn stand(&self, player: usize) -> Option<&Stand> {
        self.stands.get(player)?.as_ref()
    }

    /// The call in which a player waits.
    pub fn waiting(&self, player: usize) -> Option<&Call> {
        let stand = self.stand(player)?;
        if !stand.waits {
            return None;
        }
        stand.top()?.call(self.scenario)
    }

    /// Who keeps a player waiting: the holder of a channel, or the worker of a run.
    pub fn keeper(&self, player: usize) -> Option<Keeper> {
        let call = self.waiting(player)?;
        keeper_of(self.scenario, self.trace, self.log(player)?, call)
    }

    /// How many steps a player has made.
    pub fn steps(&self, player: usize) -> usize {
        match self.log(player) {
            Some(log) => log.steps.items().len(),
            None => 0,
        }
    }

    /// The number of a player's last step.
    pub fn last_step(&self, player: usize) -> u64 {
        self.steps(player).saturating_sub(1) as u64
    }

    pub fn players(&self) -> usize {
        self.stands.len()
    }
}

/// Whether two states of players are one.
fn is_same_state(state: PlayerState, other: PlayerState) -> bool
    ensures { result ≡ same_state state other }
{
    match (state, other) {
        (PlayerState::Spent, PlayerState::Spent) => true,
        (PlayerState::Oops, PlayerState::Oops) => true,
        (PlayerState::Done, PlayerState::Done) => true,
        (PlayerState::Standing, PlayerState::Standing) => true,
        _ => false,
    }
}
