ghost use Rattle.zk_model_wait.specs.MsgqLaws.{OfEachMsgq};
ghost use Rattle.zk_model_wait.specs.SemLaws.{OfEachSem};
ghost use Rattle.zk_player_laws.specs.PollLaws.{OfEachPoll, OfEachStage, KeepsPollLaws, GoesOn};
ghost use Rattle.zk_player_laws.specs.PollLogs.{EachPollIsPlayed, EachPollKeepsItsLaws, EachOpenPollGoesOn};
ghost use Rattle.zk_player_laws.specs.PollReplies.{SemTellsPolls, MsgqTellsPolls, ClockTellsPolls};

/// Of each play of each poll, over any services: where it is answered it names just the events that a step told to be ready,
/// and again is answered only where none did; each event was asked once, and nothing stays registered. Until then it goes
/// on: it attempts all that it waits for, and has its answer once it is done. It does nothing when it runs.
pub fn keeps_poll_laws()
    ensures answered { OfEachPoll KeepsPollLaws }
    ensures goes_on { OfEachStage GoesOn }
{}

/// What the laws of polls ask of replies, of every legal history of a semaphore and of a message queue, and of the clock: a
/// poll is told nothing else there. It does nothing when it runs.
pub fn services_tell_polls()
    ensures sems { OfEachSem SemTellsPolls }
    ensures msgqs { OfEachMsgq MsgqTellsPolls }
    ensures clock { ClockTellsPolls }
{}

/// Of each player that follows the scenario, by whatever is shown: each `poll` that it answered was the next call of its innermost
/// script, and its answer is that of a play, which are the player's steps from there to the one that was answered. Where the
/// histories that are shown are legal, it keeps the laws of polls; and where the player stands at a poll that has no answer yet,
/// its steps since the beginning of that call are a play so far, which goes on by those laws. It does nothing when it runs.
pub fn answered_polls_are_played()
    ensures played { EachPollIsPlayed }
    ensures laws { EachPollKeepsItsLaws }
    ensures goes_on { EachOpenPollGoesOn }
{}
