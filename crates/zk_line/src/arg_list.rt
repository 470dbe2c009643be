ghost use Rattle.std.specs.Prelude.{◌≡◌, [], ◌∷◌, ◌++◌, OnOk, OnErr};

use crate::events::Event;
use crate::types::{Arg, Ref};
use std::alloc::Global;
use std::marker::Model;
use zk_base::{NoMemory, make_room_for_one, push_within};

/// What the words of a line say, in order.
#[derive(Drop)]
pub struct Args {
    args: Vec<Arg>,
}

impl Model for Args {
    ghost use Rattle.std.specs.Prelude.{List};
    ghost use Rattle.zk_line.specs.declared.types.Arg.{Arg};

    ghost Value = { List Arg };

    ghost view = { λ a. a.args.items };
}

impl Args {
    /// Nothing. It takes no memory.
    pub fn new(alloc: Global) -> Args
        ensures { result ≡ [] }
    {
        Args {
            args: Vec::new(alloc),
        }
    }

    /// Drops them all, and keeps what memory they took.
    pub fn clear(&mut self)
        ensures { self.new ≡ [] }
    {
        self.args.clear();
    }

    /// What they say, in order.
    pub fn items(&self) -> &[Arg]
        ensures { result.now ≡ self.now }
    {
        &self.args
    }

    /// One more at the end.
    pub fn push(&mut self, arg: Arg) -> Result<(), NoMemory>
        ensures ok { OnOk result (self.new ≡ self.old ++ arg ∷ []) }
        ensures unchanged { OnErr result (self.new ≡ self.old) }
    {
        let _known: Option<(Ref, Event)> = None;
        make_room_for_one(&mut self.args)?;
        push_within(&mut self.args, arg);
        Ok(())
    }
}
