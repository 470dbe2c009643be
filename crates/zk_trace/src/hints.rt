ghost use Rattle.std.specs.Prelude.{◌<◌};

use crate::names::player_name;
use zk_scenario::Scenario;

/// How many hints there are: so many that few of the most players' names share one.
const HINTS: usize = 4096;

/// Which player a name may be of, by all its bytes. A hint is believed only where the name is that player's.
#[derive(Drop)]
pub struct Hints {
    // The last of the players whose names have this place.
    players: [u32; HINTS],
}

impl Hints {
    /// The hints to a scenario's players.
    pub fn of(scenario: &Scenario) -> Hints {
        let mut players = [0; HINTS];
        for player in 0..scenario.players() {
            let place = place_of(player_name(scenario, player as usize));
            players[place] = player;
        }
        Hints { players }
    }

    /// The player that a name may be of.
    pub fn player(&self, name: &[u8]) -> u32 {
        self.players[place_of(name)]
    }
}

/// The place of a name, by all its bytes.
fn place_of(name: &[u8]) -> usize
    ensures { result < HINTS }
{
    let mut place: u32 = 0;
    for byte in name {
        place = place.wrapping_mul(33).wrapping_add(u32::from(*byte));
    }
    place as usize % HINTS
}
