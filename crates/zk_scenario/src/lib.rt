//! The scenario: its one spelling, the reader, the printer and the look-ups.
#![tactic(auto)]

mod laws;
mod limits;
mod pairs;
mod read;
mod reader;
mod refused;
mod scenario;
mod scripts;
mod text;
mod types;

pub use laws::{always_says, tells_them_apart};
pub use limits::{
    LONGEST_SCENARIO, MOST_CALLS, MOST_CHANS, MOST_ITEMS, MOST_MSGQS, MOST_OBSERVERS, MOST_QUEUES,
    MOST_SEMS, MOST_SIGNALS,
};
pub use read::read_scenario;
pub use refused::{ScenarioRefused, Why};
pub use scenario::{FEW_PLAYERS, MOST_STEPS, STEPS_OF_MANY, Scenario};
pub use text::print_scenario;
pub use types::Script;
pub use zk_line::{Call, Decl, Declared, Event, Events, Ref, word_of};
pub use zk_words::Word;
