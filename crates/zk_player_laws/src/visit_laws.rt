ghost use Rattle.zk_player_laws.specs.VisitLaws.{EachPublishVisits};

/// Of each player whose log follows a valid scenario, where the histories of the clock and of the channels are legal: each
/// `publish` or `notify` that it answered used its channel, from being given it to freeing it, for its set or list and then to
/// visit just the observers that this was told, in that order, each once, and it answered fault exactly where one of them was
/// full; each `read` used it for its get alone, and answered the message; or its channel refused it, and it answered why. No
/// step uses a channel that the player wasn't given or has freed since, and each freeing ends such a call. It does nothing when
/// it runs.
pub fn publishes_visit_their_observers()
    ensures logged { EachPublishVisits }
{}
