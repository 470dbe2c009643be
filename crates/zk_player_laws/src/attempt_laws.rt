ghost use Rattle.zk_player_laws.specs.AttemptLaws.{EachCallGoesOn};

/// Of each player whose log follows a scenario, where the history of the clock is legal: at each moment it attempts just what
/// comes next, in that order. Of a user's call that is its next check, while one is left. Of another call it is what the form of
/// the call says behind the steps that the player made for it: so a call that waits attempts the end of its wait, and with ticks
/// that of its alarm behind it; one whose alarm has ended gives the wait up; one that has its channel uses it, visits each
/// observer that it was told, in order, and frees it. A worker begins a run, or ends the one whose script is through. It attempts
/// nothing where nothing of it is open. Where all its steps are made it attempts nothing either; but what is open then has such
/// steps to come, so that a call which its last step ends is answered. It does nothing when it runs.
pub fn calls_go_on()
    ensures attempts { EachCallGoesOn }
{}
