ghost use Rattle.zk_player_laws.specs.AnswerLaws.{EachIsAnsweredOnce};
ghost use Rattle.zk_player_laws.specs.StateLaws.{EachStateTells, EachLogIsWhole};

/// Of each player whose log follows a scenario, whatever its services show: it starts without answers, and each of its steps
/// adds one at most, at the end, with the number of that step and the word of the call that the step is of. It does nothing when
/// it runs.
pub fn calls_are_answered_once()
    ensures followed { EachIsAnsweredOnce }
{}

/// Of each player whose log follows a scenario, whatever its services show: its log tells `spent` just where it has made all the
/// steps that it may make, else `oops` just where a check of it has failed, else `done` just where it is a thread that is through
/// its script or a worker between two runs. And it has all steps and all answers of its player, in their order. It does nothing
/// when it runs.
pub fn states_are_told()
    ensures followed { EachStateTells }
    ensures whole { EachLogIsWhole }
{}
