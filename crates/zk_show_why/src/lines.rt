use zk_scenario::{Call, Scenario};

/// A call of a script.
#[derive(Clone, Copy)]
pub struct Place {
    /// The object whose script it is.
    pub owner: u32,
    /// Its number among the calls of the script, from 0.
    pub next: usize,
}

impl Place {
    pub fn call(self, scenario: &Scenario) -> Option<&Call> {
        scenario.calls(self.owner).get(self.next)
    }
}

/// The number of a call's line in the text of its scenario, from 1.
pub fn line_of(scenario: &Scenario, place: Place) -> u64 {
    // `zk 1`, and the declarations.
    let mut line = (scenario.written().len() as u64).saturating_add(1);
    for script in scenario.scripts() {
        if script.owner == place.owner {
            break;
        }
        let calls = script.calls.items().len() as u64;
        line = line.saturating_add(calls).saturating_add(2);
    }
    line.saturating_add(2).saturating_add(place.next as u64)
}
