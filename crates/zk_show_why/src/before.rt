use crate::text::Text;
use std::alloc::Global;
use zk_base::NoMemory;
use zk_scenario::{Decl, Scenario, ScenarioRefused, Why, read_scenario};

/// What the lines before a refused one say.
#[derive(Drop)]
pub struct Before {
    pub scenario: Scenario,
    /// Whether a script is open.
    pub is_open: bool,
}

impl Before {
    /// What a text says that begins a scenario, if it does.
    pub fn of(alloc: Global, front: &[u8]) -> Result<Option<Before>, NoMemory> {
        match read_scenario(alloc, front) {
            Ok(scenario) => Ok(Some(Before {
                scenario,
                is_open: false,
            })),
            Err(ScenarioRefused::At(_, Why::Order)) => Before::with_end(alloc, front),
            Err(ScenarioRefused::At(_, _)) => Ok(None),
            Err(ScenarioRefused::NoMemory) => Err(NoMemory),
        }
    }

    // The same of a text whose last script is open.
    fn with_end(alloc: Global, front: &[u8]) -> Result<Option<Before>, NoMemory> {
        let mut text = Text::new(alloc);
        text.put(front);
        text.put(b"end\n");
        match read_scenario(alloc, &text.whole()?) {
            Ok(scenario) => Ok(Some(Before {
                scenario,
                is_open: true,
            })),
            Err(ScenarioRefused::At(_, _)) => Ok(None),
            Err(ScenarioRefused::NoMemory) => Err(NoMemory),
        }
    }

    /// Whose script is open.
    pub fn owner(&self) -> Option<&Decl> {
        if !self.is_open {
            return None;
        }
        let script = self.scenario.scripts().last()?;
        self.scenario.decls().get(script.owner as usize)
    }

    /// What a name was declared as.
    pub fn declared(&self, name: &[u8]) -> Option<&Decl> {
        let object = self.scenario.find(name)?;
        self.scenario.decls().get(object as usize)
    }
}
