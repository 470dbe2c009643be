ghost use Rattle.std.specs.Prelude.{◌≡◌, ℕ, ◌≤◌, ◌++◌, IfOk, length, slice_get};
ghost use Rattle.zk_scenario.specs.Grammar.{IsReadable};
ghost use Rattle.zk_scenario.specs.Content.{Content};
ghost use Rattle.zk_line.specs.Objects.{is_thread, is_queue, is_item, is_sem, is_msgq, is_signal, is_chan, is_observer, places, number_of, object_of};
ghost use Rattle.zk_scenario.specs.Players.{prio_of, players, who_of, calls_of};
ghost use Rattle.zk_scenario.specs.Steps.{steps_of};
ghost use Rattle.zk_scenario.specs.Valid.{IsValid};

use crate::Script;
use crate::scripts::Scripts;
use std::alloc::Global;
use std::marker::Model;
use zk_base::{NoMemory, Who};
use zk_line::{Call, Decl, Declared, Objects};

/// The most steps that a player of any scenario may make.
pub const MOST_STEPS: u32 = 20_000;

/// The most players of a scenario of which each may make so many.
pub const FEW_PLAYERS: u32 = 64;

/// The most steps that a player may make where there are more players.
pub const STEPS_OF_MANY: u32 = 5_000;

/// A scenario: declarations, and scripts over them. There is none but what has a text in the grammar.
///
/// Objects are numbered from 0 in declared order; players are the threads and then the workers of the queues.
#[derive(Drop)]
pub struct Scenario {
    objects: Objects,
    written: Vec<Declared>,
    scripts: Scripts,
}

impl Model for Scenario {
    ghost use Rattle.zk_scenario.specs.Grammar.{IsReadable};
    ghost use Rattle.zk_scenario.specs.Content.{Content};
    ghost use Rattle.zk_scenario.specs.Grammar.{IsReadable};

    ghost Value = { Content };

    ghost view = { λ a. record { decls = a.objects; written = a.written.items; scripts = a.scripts } };

    ghost invariant = { λ a.
        IsReadable (record { decls = a.objects; written = a.written.items; scripts = a.scripts }) };
}

impl Scenario {
    /// The scenario of what was read.
    pub fn of(objects: Objects, written: Vec<Declared>, scripts: Scripts) -> Scenario
        requires { IsReadable (record { decls = objects; written = written.items; scripts = scripts }) }
        ensures { result ≡ record { decls = objects; written = written.items; scripts = scripts } }
    {
        Scenario {
            objects,
            written,
            scripts,
        }
    }

    /// The declarations of objects, in the written order.
    pub fn decls(&self) -> &[Decl]
        ensures all { result.now ≡ self.now.decls }
        ensures valid { IsValid self.now }
        ensures readable { IsReadable self.now }
    {
        self.objects.decls()
    }

    /// The lines among the declarations, of objects and of permissions, in the written order.
    pub fn written(&self) -> &[Declared]
        ensures { result.now ≡ self.now.written }
    {
        &self.written
    }

    /// The scripts, in the written order.
    pub fn scripts(&self) -> &[Script]
        ensures { result.now ≡ self.now.scripts }
    {
        self.scripts.scripts()
    }

    /// The objects of the threads, in declared order.
    pub fn threads(&self) -> &[u32]
        ensures { result.now ≡ places is_thread self.now.decls }
    {
        self.objects.threads()
    }

    /// The objects of the queues, in declared order.
    pub fn queues(&self) -> &[u32]
        ensures { result.now ≡ places is_queue self.now.decls }
    {
        self.objects.queues()
    }

    /// The objects of the items, in declared order.
    pub fn items(&self) -> &[u32]
        ensures { result.now ≡ places is_item self.now.decls }
    {
        self.objects.items()
    }

    /// The objects of the semaphores, in declared order.
    pub fn sems(&self) -> &[u32]
        ensures { result.now ≡ places is_sem self.now.decls }
    {
        self.objects.sems()
    }

    /// The objects of the message queues, in declared order.
    pub fn msgqs(&self) -> &[u32]
        ensures { result.now ≡ places is_msgq self.now.decls }
    {
        self.objects.msgqs()
    }

    /// The objects of the signals, in declared order.
    pub fn signals(&self) -> &[u32]
        ensures { result.now ≡ places is_signal self.now.decls }
    {
        self.objects.signals()
    }

    /// The objects of the channels, in declared order.
    pub fn chans(&self) -> &[u32]
        ensures { result.now ≡ places is_chan self.now.decls }
    {
        self.objects.chans()
    }

    /// The objects of the observers, subscribers and listeners together, in declared order.
    pub fn observers(&self) -> &[u32]
        ensures { result.now ≡ places is_observer self.now.decls }
    {
        self.objects.observers()
    }

    /// The number of an object among those of its kind, from 0 in declared order; subscribers and listeners are
    /// counted together.
    pub fn number(&self, object: u32) -> u32
        ensures { result ≡ number_of self.now.decls object }
    {
        self.objects.number(object)
    }

    /// The object of a name. Names differ, so it is the only one of this name.
    pub fn find(&self, name: &[u8]) -> Option<u32>
        ensures { result ≡ object_of self.now.decls name.now }
    {
        self.objects.find(name)
    }

    /// The calls of an object's script; what has no script has an empty one.
    pub fn calls(&self, owner: u32) -> &[Call]
        ensures { result.now ≡ calls_of self.now.scripts owner }
    {
        self.scripts.calls(owner)
    }

    /// How many players there are.
    pub fn players(&self) -> u32
        ensures { result ≡ length (players self.now.decls) }
    {
        (self.objects.threads().len() + self.objects.queues().len()) as u32
    }

    /// How many steps each of its players may make. One that has made them makes no further one.
    pub fn steps(&self) -> u32
        ensures steps { result ≡ steps_of self.now }
        ensures most { result ≤ MOST_STEPS }
    {
        if self.players() <= FEW_PLAYERS {
            MOST_STEPS
        } else {
            STEPS_OF_MANY
        }
    }

    /// The player of a number.
    pub fn who(&self, player: u32) -> Option<Who>
        ensures { result ≡ who_of self.now.decls player }
    {
        let object = of_either(self.objects.threads(), self.objects.queues(), player)?;
        let decl = self.objects.decls().get(object as usize)?;
        Some(Who {
            number: player,
            prio: prio_of(decl),
        })
    }

    /// The same scenario, in memory of its own, so that it outlives this one.
    pub fn copy(&self, alloc: Global) -> Result<Scenario, NoMemory>
        ensures copy { IfOk result (λ scenario. scenario ≡ self.now) }
    {
        Ok(Scenario {
            objects: self.objects.copy(alloc)?,
            written: Vec::from_slice(alloc, &self.written)?,
            scripts: self.scripts.copy(alloc)?,
        })
    }
}

/// The number at a place in the one list or, past its end, in the other behind it.
fn of_either(first: &[u32], second: &[u32], place: u32) -> Option<u32>
    ensures { result ≡ slice_get (first.now ++ second.now) place }
{
    let place = place as usize;
    if place < first.len() {
        return first.get(place).copied();
    }
    second.get(place - first.len()).copied()
}

/// The priority of a player: of a thread, or of the worker of a queue.
fn prio_of(decl: &Decl) -> i8
    ensures { result ≡ prio_of decl.now }
{
    match decl {
        Decl::Thread(_, prio, _) => *prio,
        Decl::Queue(_, prio, _) => *prio,
        Decl::Item(_) => 0,
        Decl::Sem(..) => 0,
        Decl::Msgq(..) => 0,
        Decl::Signal(..) => 0,
        Decl::Listener(_) => 0,
        Decl::Sub(..) => 0,
        Decl::Chan(..) => 0,
    }
}
