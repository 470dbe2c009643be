ghost use Rattle.zk_player_laws.specs.ScriptLaws.{EachScriptIsPlayed};

/// Of each player whose log follows a valid scenario, where the histories of the clock and of the channels are legal: it starts
/// with its own script, or its queue, at its first call, and stays who it is; and each of its steps but checks is of the innermost
/// script or run that is open, and changes that alone. The number of the next call rises by one just where the step is answered,
/// and else the call is under way; a run that begins opens its item's script, a visit of a listener that runs that listener's, and
/// nothing else opens one; and what is through is closed, from the inside out. So a worker ends no run whose script isn't played
/// to its end, and a call that visits goes on only behind the whole script of the listener. It does nothing when it runs.
pub fn scripts_are_played()
    ensures played { EachScriptIsPlayed }
{}
