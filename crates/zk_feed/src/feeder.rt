ghost use Rattle.std.specs.Prelude.{IfOk};
ghost use Rattle.zk_base.specs.Legal.{IsLegal};
ghost use Rattle.zk_turn.specs.Passes.{AreNewPasses};
ghost use Rattle.zk_msgsub.specs.Fan.{fan_machine};
ghost use Rattle.zk_msgsub.specs.FanSeen.{fan_start};
ghost use Rattle.zk_feed.specs.Feeding.{AreNewRows, AreReady, IsOpen, players_upto};

use crate::shared::Shared;
use std::alloc::Global;
use zk_base::{NoMemory, push_within};
use zk_msgsub::{Fan, PubSeat, Publisher};
use zk_turn::Pass;

/// One publisher of a feed.
#[derive(Drop)]
pub struct Feeder {
    pub publisher: Publisher,
    /// It found no memory for a message.
    pub refused: bool,
}

impl Shared {
    /// A publisher for each pass of the fan, with the last of these rows of seats, the next one with that before it, and so on.
    pub fn feeders(
        &self,
        alloc: Global,
        passes: Vec<Pass<Fan>>,
        mut rows: Vec<Vec<PubSeat>>,
    ) -> Result<Vec<Feeder>, NoMemory>
        requires open { IsOpen self.now }
        requires passes { AreNewPasses (IsLegal fan_machine) fan_start self.now.fan (players_upto self.now.size.publishers)
            passes.items }
        requires rows { AreNewRows self.now.size self.now.subs.items 0 rows.items }
        ensures ready { IfOk result (λ feeders. AreReady self.now self.now.size.publishers feeders.items) }
    {
        let mut feeders = Vec::with_capacity(alloc, passes.len())?;
        for pass in passes {
            let Some(seats) = rows.pop() else {
                unreachable!()
            };
            let feeder = Feeder {
                publisher: Publisher::new(pass, seats),
                refused: false,
            };
            push_within(&mut feeders, feeder);
        }
        Ok(feeders)
    }
}
