ghost use Rattle.zk_player_laws.specs.CallLaws.{EachCallIsMade};

/// Of each player whose log follows a scenario, where the history of the clock is legal: each of its steps is of a run of its
/// queue, a check, or one that its next call has to make, behind those that it has made since the player stood at its beginning;
/// and each call that it answered made just the steps of its form, side by side, and answered what the last was replied. So a
/// call with `no` asks without waiting, one with `forever` waits for its end alone, and one with ticks gives up only after its
/// alarm has ended. A `publish`, a `notify` or a `read` waits so for its channel; of what it does with that, and of polls, other
/// laws speak. It does nothing when it runs.
pub fn calls_are_made()
    ensures timed { EachCallIsMade }
{}
