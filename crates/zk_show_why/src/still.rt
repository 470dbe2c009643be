use crate::run::Run;
use crate::serving::tick_ahead;
use crate::story::{Saying, Story};
use crate::words::Told;

/// Tells whether a `tick` is left, and who has it still to make.
pub fn tell_ticks(story: &mut Story, run: &Run<'_>, open: &[usize]) {
    for player in open {
        if let Some(stand) = run.stand(*player) {
            if let Some(place) = tick_ahead(run.scenario, stand) {
                return story.say(Saying::of(Told::TickAhead).player(*player).line(place));
            }
        }
    }
    story.say(Saying::of(Told::NoTick));
}
