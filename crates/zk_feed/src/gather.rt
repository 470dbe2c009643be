ghost use Rattle.std.specs.Prelude.{IfOk, IfSome};
ghost use Rattle.zk_base.specs.Legal.{IsLegal};
ghost use Rattle.zk_turn.specs.Passes.{IsPassOf};
ghost use Rattle.zk_msgsub.specs.Fan.{fan_machine};
ghost use Rattle.zk_msgsub.specs.FanSeen.{fan_start};
ghost use Rattle.zk_feed.specs.Feeding.{AreFed, IsGathered, IsOpen, IsJoined};

use crate::feeder::Feeder;
use crate::shared::Shared;
use std::alloc::Global;
use zk_base::{NoMemory, push_within};
use zk_msgsub::{Fan, PubSeat};
use zk_turn::Pass;

impl Shared {
    /// One pass of the fan for all publishers, and the seats of each, by number.
    pub fn gather(
        &self,
        alloc: Global,
        feeders: Vec<Feeder>,
    ) -> Result<(Pass<Fan>, Vec<Vec<PubSeat>>), NoMemory>
        requires open { IsOpen self.now }
        requires fed { AreFed self.now self.now.size.publishers feeders.items }
        ensures gathered { IfOk result (λ made. IsGathered self.now self.now.size.publishers made.0 made.1.items) }
    {
        let mut rows = Vec::with_capacity(alloc, feeders.len())?;
        let mut all = None;
        for feeder in feeders {
            let Feeder { publisher, refused } = feeder;
            if refused {
                return Err(NoMemory);
            }
            let (pass, seats) = publisher.finish();
            push_within(&mut rows, seats);
            all = Some(self.joined(all, pass));
        }
        let Some(pass) = all else { unreachable!() };
        Ok((pass, rows))
    }

    /// A pass with those that were put together before.
    fn joined(&self, before: Option<Pass<Fan>>, pass: Pass<Fan>) -> Pass<Fan>
        requires before { IfSome before (IsPassOf (IsLegal fan_machine) fan_start self.now.fan) }
        requires own { IsPassOf (IsLegal fan_machine) fan_start self.now.fan pass }
        ensures { IsJoined self.now before pass result }
    {
        let Some(mut all) = before else {
            return pass;
        };
        self.fan.join(&mut all, pass);
        all
    }
}
