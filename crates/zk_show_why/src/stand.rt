use crate::awaited::is_waiting;
use crate::lines::Place;
use std::alloc::Global;
use zk_base::NoMemory;
use zk_model_bus::ObsReply;
use zk_model_work::WorkReply;
use zk_scenario::{Scenario, word_of};
use zk_trace::Trace;
use zk_worker::{Answer, Answered, Log, PlayerState, Spot};

/// Where a log leaves its player in the scripts.
#[derive(Drop)]
pub struct Stand {
    /// The open scripts, the innermost last. The call that comes next in each isn't answered.
    pub places: Vec<Place>,
    /// The item whose handler it plays, by its object.
    pub run: Option<u32>,
    /// The number of the first step of the call in which it stands: behind the last answer, begin, end and visit that opened
    /// a script.
    pub begun: usize,
    /// Whether its last step began a wait.
    pub waits: bool,
    // Whether an oops has ended it.
    dead: bool,
}

impl Stand {
    fn at_start(alloc: Global, scenario: &Scenario, player: usize) -> Result<Stand, NoMemory> {
        let mut stand = Stand {
            places: Vec::new(alloc),
            run: None,
            begun: 0,
            waits: false,
            dead: false,
        };
        if let Some(thread) = scenario.threads().get(player) {
            stand.open(scenario, *thread)?;
        }
        Ok(stand)
    }

    /// The call in which the player stands.
    pub fn top(&self) -> Option<Place> {
        self.places.last().copied()
    }

    // A script without calls is over at once.
    fn open(&mut self, scenario: &Scenario, owner: u32) -> Result<(), NoMemory> {
        if !scenario.calls(owner).is_empty() {
            self.places.push(Place { owner, next: 0 })?;
        }
        Ok(())
    }

    // Whether the call that comes next can be answered so. Then it is.
    fn answer(&mut self, scenario: &Scenario, answered: &Answered) -> bool {
        let Some(place) = self.places.last_mut() else {
            return false;
        };
        let Some(call) = place.call(scenario) else {
            return false;
        };
        if word_of(call) != answered.word || self.dead {
            return false;
        }
        match answered.answer {
            Answer::Oops(_) => self.dead = true,
            _ => {
                place.next = place.next.saturating_add(1);
                let over = place.call(scenario).is_none();
                if over {
                    self.places.pop();
                }
                self.begun = (answered.step as usize).saturating_add(1);
            }
        }
        true
    }

    // Goes through the first steps of a log, if its answers to them are those of the scripts.
    fn follow(
        &mut self,
        scenario: &Scenario,
        trace: &Trace,
        log: &Log,
        steps: usize,
    ) -> Result<bool, NoMemory> {
        let mut answered: usize = 0;
        for (step, spot) in log.steps.items().iter().enumerate() {
            if steps <= step {
                return Ok(true);
            }
            match log.answers.get(answered) {
                Some(answer) if answer.step as usize == step => {
                    if !self.answer(scenario, &answer) {
                        return Ok(false);
                    }
                    answered = answered.saturating_add(1);
                }
                _ => self.step(scenario, trace, spot, step.saturating_add(1))?,
            }
        }
        Ok(log.answers.len() <= answered)
    }

    // A step that answers no call may open a script, or end a run.
    fn step(
        &mut self,
        scenario: &Scenario,
        trace: &Trace,
        spot: &Spot,
        behind: usize,
    ) -> Result<(), NoMemory> {
        match *spot {
            Spot::Work(place) => match work_reply(trace, place) {
                Some(WorkReply::Run(item, _)) => {
                    if let Some(owner) = scenario.items().get(*item as usize) {
                        self.run = Some(*owner);
                        self.begun = behind;
                        self.open(scenario, *owner)?;
                    }
                }
                Some(WorkReply::Done) => {
                    self.run = None;
                    self.begun = behind;
                }
                _ => {}
            },
            Spot::Obs(observer, place) => {
                if is_run(trace, observer, place) {
                    self.begun = behind;
                    self.open(scenario, observer)?;
                }
            }
            _ => {}
        }
        Ok(())
    }
}

fn work_reply(trace: &Trace, place: u64) -> Option<&WorkReply> {
    let entry = trace.work.items().get(place as usize)?;
    Some(&entry.reply)
}

// Whether a visit has begun a listener's script.
fn is_run(trace: &Trace, observer: u32, place: u64) -> bool {
    let Some(history) = trace.observers.items().get(observer as usize) else {
        return false;
    };
    match history.items().get(place as usize) {
        Some(entry) => entry.reply == ObsReply::Run,
        None => false,
    }
}

/// Where a log leaves its player. There is nothing where its answers aren't those of the scripts.
pub fn stand_of(
    alloc: Global,
    scenario: &Scenario,
    trace: &Trace,
    player: usize,
    log: &Log,
) -> Result<Option<Stand>, NoMemory> {
    let mut stand = Stand::at_start(alloc, scenario, player)?;
    if !stand.follow(scenario, trace, log, log.steps.items().len())? {
        return Ok(None);
    }
    stand.waits = log.state == PlayerState::Standing && is_waiting(trace, log);
    Ok(Some(stand))
}

/// The call in which a player makes a step.
pub fn call_at(
    alloc: Global,
    scenario: &Scenario,
    trace: &Trace,
    player: usize,
    log: &Log,
    step: usize,
) -> Result<Option<Place>, NoMemory> {
    let mut stand = Stand::at_start(alloc, scenario, player)?;
    if !stand.follow(scenario, trace, log, step)? {
        return Ok(None);
    }
    Ok(stand.top())
}
