ghost use Rattle.std.specs.Prelude.{◌≡◌, IfOk};
ghost use Rattle.zk_world.specs.Sound.{IsSound};
ghost use Rattle.zk_replay.specs.Turning.{made_step};
ghost use Rattle.zk_cores.specs.Finished.{NoneGoesOn, IsRound};

use zk_base::NoMemory;
use zk_kernel::Rest;
use zk_worker::Stepped;

fn made_step(stepped: Stepped) -> bool
    ensures { result ≡ made_step stepped }
{
    match stepped {
        Stepped::Did => true,
        _ => false,
    }
}

/// One step of each player that can make one, in order: whether one did.
fn play_round(rest: &mut Rest) -> Result<bool, NoMemory>
    requires sound { IsSound rest.old.scenario rest.old.world }
    ensures scenario { IfOk result (λ _. rest.new.scenario ≡ rest.old.scenario) }
    ensures sound { IfOk result (λ _. IsSound rest.new.scenario rest.new.world) }
    ensures round { IfOk result (λ moved. IsRound rest.old rest.new moved) }
{
    let mut moved = false;
    for number in 0..rest.players() {
        moved |= made_step(rest.step(number)?);
    }
    Ok(moved)
}

/// Plays on what a kernel has left, by rounds, until one has no step: then no player has a possible one. A player that has
/// made all its steps is played no longer; the others are.
pub fn finish(rest: &mut Rest) -> Result<(), NoMemory>
    requires sound { IsSound rest.old.scenario rest.old.world }
    ensures scenario { IfOk result (λ _. rest.new.scenario ≡ rest.old.scenario) }
    ensures sound { IfOk result (λ _. IsSound rest.new.scenario rest.new.world) }
    ensures over { IfOk result (λ _. NoneGoesOn rest.new.scenario rest.new.world) }
{
    loop {
        if !play_round(rest)? {
            return Ok(());
        }
    }
}
