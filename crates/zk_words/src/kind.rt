ghost use Rattle.std.specs.Prelude.{◌≡◌};
ghost use Rattle.zk_words.specs.Kinds.{plays_script, makes_player, can_be_raw};

use zk_base::Kind;

/// Whether an object of a kind can play a script: a thread, an item by its handler, or a listener.
pub fn plays_script(kind: Kind) -> bool
    ensures { result ≡ plays_script kind }
{
    match kind {
        Kind::Thread => true,
        Kind::Queue => false,
        Kind::Item => true,
        Kind::Sem => false,
        Kind::Msgq => false,
        Kind::Signal => false,
        Kind::Listener => true,
        Kind::Sub => false,
        Kind::Chan => false,
    }
}

/// Whether a declaration of a kind makes a player: a thread, or the worker of a queue.
pub fn makes_player(kind: Kind) -> bool
    ensures { result ≡ makes_player kind }
{
    match kind {
        Kind::Thread => true,
        Kind::Queue => true,
        Kind::Item => false,
        Kind::Sem => false,
        Kind::Msgq => false,
        Kind::Signal => false,
        Kind::Listener => false,
        Kind::Sub => false,
        Kind::Chan => false,
    }
}

/// Whether an object of a kind can be declared as not initialised.
pub fn can_be_raw(kind: Kind) -> bool
    ensures { result ≡ can_be_raw kind }
{
    match kind {
        Kind::Thread => false,
        Kind::Queue => false,
        Kind::Item => false,
        Kind::Sem => true,
        Kind::Msgq => true,
        Kind::Signal => true,
        Kind::Listener => false,
        Kind::Sub => false,
        Kind::Chan => false,
    }
}
