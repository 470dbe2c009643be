use crate::lines::Place;
use crate::run::Run;
use crate::serving::{hears, serves};
use std::alloc::Global;
use zk_base::NoMemory;
use zk_scenario::{Call, Decl, Ref};

/// The scripts that lead to a call that would end a wait: it stands in them, or an item that they submit, or a listener that
/// they tell, has such a script.
#[derive(Drop)]
pub struct Leads<'a> {
    waiting: &'a Call,
    // Of each object, whether its script leads to it.
    owners: Vec<bool>,
}

impl<'a> Leads<'a> {
    pub fn of(alloc: Global, run: &Run<'_>, waiting: &'a Call) -> Result<Leads<'a>, NoMemory> {
        let mut owners = Vec::new(alloc);
        for _ in run.scenario.decls() {
            owners.push(false)?;
        }
        let mut leads = Leads { waiting, owners };
        for _ in run.scenario.decls() {
            if !leads.grow(run) {
                break;
            }
        }
        Ok(leads)
    }

    // Whether a script leads to it that wasn't known to. Then it is.
    fn grow(&mut self, run: &Run<'_>) -> bool {
        let mut more = false;
        for script in run.scenario.scripts() {
            if !self.has(script.owner) && self.any(run, script.calls.items()) {
                if let Some(owner) = self.owners.get_mut(script.owner as usize) {
                    *owner = true;
                    more = true;
                }
            }
        }
        more
    }

    fn any(&self, run: &Run<'_>, calls: &[Call]) -> bool {
        for call in calls {
            if self.is(run, call) {
                return true;
            }
        }
        false
    }

    /// Whether the script of an object leads to it.
    pub fn has(&self, owner: u32) -> bool {
        self.owners.get(owner as usize).copied().unwrap_or(false)
    }

    /// Whether a call would end the wait, or leads to one that would.
    pub fn is(&self, run: &Run<'_>, call: &Call) -> bool {
        serves(run.scenario, self.waiting, call) || self.leads_on(run, call)
    }

    // Whether a call submits an item, or tells a listener, whose script leads to it.
    fn leads_on(&self, run: &Run<'_>, call: &Call) -> bool {
        match call {
            Call::Submit(Ref::Known(item), _) => self.has(*item),
            Call::Schedule(Ref::Known(item), _, _) => self.has(*item),
            Call::Reschedule(Ref::Known(item), _, _) => self.has(*item),
            Call::Publish(Ref::Known(chan), _, _) => self.tells(run, *chan),
            Call::Notify(Ref::Known(chan), _) => self.tells(run, *chan),
            _ => false,
        }
    }

    fn tells(&self, run: &Run<'_>, chan: u32) -> bool {
        let Some(Decl::Chan(_, _, _, observers)) = run.scenario.decls().get(chan as usize) else {
            return false;
        };
        for observer in observers.numbers() {
            if self.has(*observer) && hears(run, Ref::Known(chan), Ref::Known(*observer)) {
                return true;
            }
        }
        false
    }

    /// The first call in the script of an object, from a place on, that is such a one.
    pub fn first_from(&self, run: &Run<'_>, from: Place) -> Option<Place> {
        for (next, call) in run.scenario.calls(from.owner).iter().enumerate() {
            if from.next <= next && self.is(run, call) {
                return Some(Place {
                    owner: from.owner,
                    next,
                });
            }
        }
        None
    }
}
