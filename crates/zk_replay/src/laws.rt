ghost use Rattle.zk_replay.specs.Laws.{HasOneRun, NoneGoesOn, NoneIsServed};

/// What `replay` gives is the only trace of the scenario's round robin run.
pub fn one_run()
    ensures { HasOneRun }
{}

/// Where a run ends and no player is spent, none can go on: each waits for what doesn't come, or is done.
pub fn none_goes_on()
    ensures { NoneGoesOn }
{}

/// Where a run ends and no player is spent, whoever waits for a semaphore, a message queue, a channel or a subscriber does
/// so since nobody has served it, whoever polls since it wasn't noted and finds no signal raised, and whoever does so with
/// ticks since its moment hasn't come. So each wait of a stuck run is one that the histories show.
pub fn none_is_served()
    ensures { NoneIsServed }
{}
