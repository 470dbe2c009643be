ghost use Rattle.std.specs.Prelude.{◌≡◌, ◌<◌, ◌≤◌, true, [], length, option_map, IfOk, IfSome};
ghost use Rattle.zk_base.specs.History.{extended};
ghost use Rattle.zk_base.specs.Legal.{state_after};
ghost use Rattle.zk_base.specs.Limits.{most_entries};
ghost use Rattle.zk_side.specs.Played.{who_of, step_of};

use crate::limits::GREATEST_PLAYER;
use std::marker::Model;
use zk_base::{NoMemory, Service, Who};

/// How many players there are.
const PLAYERS: usize = GREATEST_PLAYER as usize + 1;

/// The players of a side script, at one service.
#[derive(Drop)]
pub struct Players<S: Service> {
    service: S,
    // How many entries each player has, by its number.
    steps: [u32; PLAYERS],
}

impl<S: Service> Model for Players<S> {
    ghost use Rattle.zk_side.specs.Kept.{AreCounted, Standing};

    ghost Value = { Standing S.State S.Op S.Reply };

    ghost view = { λ p. record { start = S.start p.service; history = S.history p.service } };

    ghost invariant = { λ p. AreCounted (S.history p.service) p.steps };
}

impl<S: Service> Players<S> {
    /// The players at a service at which nothing was done.
    pub fn at(service: S) -> Players<S>
        requires { S.history service ≡ [] }
        ensures start { result.start ≡ S.start service }
        ensures history { result.history ≡ [] }
    {
        Players {
            service,
            steps: [0; PLAYERS],
        }
    }

    /// Asks for a player: the step of its entry and the reply, nothing where the operation isn't possible.
    pub fn ask(&mut self, player: u32, op: S::Op) -> Result<Option<(u32, S::Reply)>, NoMemory>
        requires player { player ≤ GREATEST_PLAYER }
        requires range { S.machine.in_range self.old.start op ≡ true }
        requires short { length self.old.history < most_entries }
        ensures reply { IfOk result (λ made. option_map (λ made. made.1) made
            ≡ S.machine.reply_of (state_after S.machine self.old.start self.old.history) (who_of player) op) }
        ensures step { IfOk result (λ made. IfSome made (λ made. made.0 ≡ step_of self.old.history player)) }
        ensures history { IfOk result (λ made. self.new.history
            ≡ extended self.old.history (who_of player) (step_of self.old.history player) op (option_map (λ made. made.1) made)) }
        ensures start { self.new.start ≡ self.old.start }
    {
        let step = self.steps[player as usize];
        let who = Who {
            number: player,
            prio: 0,
        };
        match self.service.act(who, step, op)? {
            None => Ok(None),
            Some(reply) => {
                self.steps[player as usize] = step + 1;
                Ok(Some((step, reply)))
            }
        }
    }
}
