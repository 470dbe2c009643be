ghost use Rattle.std.specs.Prelude.{◌≡◌, ℕ, ◌+◌, ◌^◌, ◌<◌, List, [], ◌∷◌, ◌++◌, OnOk};
ghost use Rattle.zk_trace.specs.declared.stood.Stood.{Stood};
ghost use Rattle.zk_failures.specs.Own.{IsOwn, has_gap};
ghost use Rattle.zk_failures.specs.Standing.{may_stand, rises};

use crate::part::same_part;
use std::alloc::Global;
use std::collections::HashSet;
use zk_base::NoMemory;
use zk_trace::Stood;

/// What the lines of a player are so far.
#[derive(Drop)]
pub struct Own {
    // The numbers of their steps, all different.
    steps: HashSet<u32>,
    // The last of them.
    last: Option<Stood>,
    // How many they are.
    rows: usize,
    // The number behind the highest step, or 0.
    above: usize,
}

impl Own {
    /// No line. It takes no memory.
    pub fn new(alloc: Global) -> Own
        ensures { (player : ℕ) → IsOwn player [] result }
    {
        Own {
            steps: HashSet::new(alloc),
            last: None,
            rows: 0,
            above: 0,
        }
    }

    /// Whether a line of the player may stand behind them.
    pub fn may_stand(&self, line: &Stood) -> bool
        ensures { (lines : List Stood) → IsOwn line.now.player lines self.now → result ≡ may_stand lines line.now }
    {
        !self.steps.contains(&line.step) && rises(&self.last, line)
    }

    /// A line more.
    pub fn put(&mut self, line: Stood) -> Result<(), NoMemory>
        requires { self.old.rows + 1 < 2 ^ 64 }
        ensures { OnOk result ((lines : List Stood) → IsOwn line.player lines self.old → IsOwn line.player (lines ++ line ∷ []) self.new) }
    {
        self.steps.insert(line.step)?;
        self.last = Some(line);
        self.rows += 1;
        self.above = self.above.max(line.step as usize + 1);
        Ok(())
    }

    /// Whether their steps aren't 0, 1, 2 and on, where they differ, or are more than these.
    pub fn has_gap(&self, most: usize) -> bool
        ensures { result ≡ has_gap most self.now }
    {
        self.rows < self.above || most < self.rows
    }
}

fn rises(last: &Option<Stood>, line: &Stood) -> bool
    ensures { result ≡ rises last.now line.now }
{
    match last {
        Some(last) => !same_part(last.spot, line.spot) || last.step < line.step,
        None => true,
    }
}
