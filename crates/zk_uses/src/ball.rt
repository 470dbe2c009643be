ghost use Rattle.std.specs.Prelude.{◌≡◌, ◌≤◌, length, All, IfOk};
ghost use Rattle.zk_pool.specs.Hands.{HaveOneHome};
ghost use Rattle.zk_uses.specs.Juggling.{ball_color, ball_number, IsWhole};

use crate::juggling::Juggled;
use std::alloc::Global;
use zk_base::{NoMemory, push_within};
use zk_pool::Numbered;

/// What is juggled: balls of one color, each with a number, which count how often they were caught.
#[derive(Drop)]
pub struct Ball {
    pub number: u32,
    pub color: u32,
    pub caught: u32,
}

impl Numbered for Ball {
    type Home = u32;

    ghost use Rattle.zk_uses.specs.Juggling.{ball_color, ball_number, IsWhole};

    ghost number = { ball_number };

    ghost home = { ball_color };

    ghost kept = { IsWhole };

    fn number(&self) -> u32 {
        self.number
    }
}

impl Juggled for Ball {
    fn catch(&mut self) {
        self.caught = self.caught.wrapping_add(1);
    }
}

/// So many balls, with numbers from 0 on.
pub fn balls(alloc: Global, count: u32) -> Result<Vec<Ball>, NoMemory>
    ensures count { IfOk result (λ balls. length balls.items ≡ count) }
    ensures home { IfOk result (λ balls. HaveOneHome ball_color balls.items) }
    ensures kept { IfOk result (λ balls. All IsWhole balls.items) }
{
    let mut balls = Vec::with_capacity(alloc, count as usize)?;
    for number in 0..count {
        let ball = Ball {
            number,
            color: 7,
            caught: 0,
        };
        push_within(&mut balls, ball);
    }
    Ok(balls)
}
