//! The call protocol, and the player that follows it through its script.
#![tactic(auto)]

mod answer_rows;
mod answers;
mod calls;
mod checks;
mod frames;
mod log;
mod moves;
mod player;
mod playing;
mod polls;
mod positions;
mod protocol;
mod publishes;
mod refs;
mod replies;
mod services;
mod stack;
mod steps;
mod waits;

pub use answer_rows::{AnswerRow, AnswerRows, Brief};
pub use answers::{Answer, Answered, Answers};
pub use checks::{Check, Mode};
pub use frames::{Alarm, Closing, Frame, Mark, Moved, Plan, Progress, Role, Stage, Using, Waiting};
pub use log::{Log, PlayerState};
pub use player::Player;
pub use playing::Stepped;
pub use positions::Positions;
pub use services::Services;
pub use steps::{MOST_ATTEMPTS, Spot, Spots, Step, StepReply};
pub use zk_words::Word;
