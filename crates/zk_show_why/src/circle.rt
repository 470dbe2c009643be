use crate::run::Run;
use crate::servers::ender;
use crate::story::{Saying, Story};
use crate::words::Told;
use std::alloc::Global;
use zk_base::{MOST_PLAYERS, NoMemory};

const PLAYERS: usize = MOST_PLAYERS as usize;

/// Tells of the circles of players each of whom waits for the next, a line for each.
pub fn tell_circles(
    alloc: Global,
    story: &mut Story,
    run: &Run<'_>,
    open: &[usize],
) -> Result<(), NoMemory> {
    let mut enders: [Option<usize>; PLAYERS] = [None; PLAYERS];
    for player in open {
        let only = ender(alloc, run, *player)?;
        if let Some(place) = enders.get_mut(*player) {
            *place = only;
        }
    }
    for player in open {
        if is_first_in_circle(&enders, *player) {
            tell_circle(story, &enders, *player);
        }
    }
    Ok(())
}

// The only one who could end a player's wait.
fn ender_in(enders: &[Option<usize>], player: usize) -> Option<usize> {
    *enders.get(player)?
}

// Whether the way from ender to ender comes back to a player, and passes none of a lower number.
fn is_first_in_circle(enders: &[Option<usize>], player: usize) -> bool {
    let mut at = player;
    for _ in enders {
        match ender_in(enders, at) {
            Some(next) if next == player => return true,
            Some(next) if player < next => at = next,
            _ => return false,
        }
    }
    false
}

fn tell_circle(story: &mut Story, enders: &[Option<usize>], player: usize) {
    let mut at = player;
    for number in 0..enders.len() {
        let Some(next) = ender_in(enders, at) else {
            break;
        };
        let told = match number {
            0 if next == at => Told::CircleOfOne,
            0 => Told::Circle,
            _ => Told::CircleOn,
        };
        let mut saying = Saying::of(told).player(at);
        saying.other = next;
        story.say(saying);
        if next == player {
            break;
        }
        at = next;
    }
    story.say(Saying::of(Told::LineEnd));
}
