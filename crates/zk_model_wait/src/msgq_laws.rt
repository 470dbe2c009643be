ghost use Rattle.zk_base.specs.WaitLaws.{KeepsWaits};
ghost use Rattle.zk_model_wait.specs.Msgq.{Msgq, msgq_machine};
ghost use Rattle.zk_model_wait.specs.MsgqWaits.{putters, getters, pollers};
ghost use Rattle.zk_model_wait.specs.MsgqLaws.{MsgqHistory, OfEachMsgq, FirstInFirstOut, PutFrontGoesFirst, NothingIsLost, RingWithinMax, NoneWaitsToGetWhileMessages, NoneWaitsToPutWhileRoom, PutWaitsOnlyAtFull, PutFrontIsTold, GetWaitsOnlyAtEmpty, LooksTellTheRing, PurgeEndsEveryPut, PutDecidedByGetOrPurge, GetDecidedByItsPut, MayAlways, PurgeIsDone, PollArmAnswers, NotedAtAChance, EachChanceNotesOne, PollingTakesNothing, KeepsMsgqLaws};

/// Of every legal history of a message queue: each message that it accepted leaves it once, be it got, handed to a get or
/// discarded, and in the order in which they were accepted as long as none goes in front. One that goes in front is the first.
pub fn first_in_first_out()
    ensures in_order { OfEachMsgq FirstInFirstOut }
    ensures in_front { OfEachMsgq PutFrontGoesFirst }
    ensures lost { OfEachMsgq NothingIsLost }
{}

/// Of every legal history of a message queue: it never holds too many messages, and nobody waits for what is there.
pub fn ring_holds()
    ensures within { OfEachMsgq RingWithinMax }
    ensures gets { OfEachMsgq NoneWaitsToGetWhileMessages }
    ensures puts { OfEachMsgq NoneWaitsToPutWhileRoom }
{}

/// Of every legal history of a message queue: what each operation is answered, what decides a wait, what a purge leaves, and
/// which operations are possible at any time.
pub fn queue_calls_are_told()
    ensures put { OfEachMsgq PutWaitsOnlyAtFull }
    ensures put_front { OfEachMsgq PutFrontIsTold }
    ensures get { OfEachMsgq GetWaitsOnlyAtEmpty }
    ensures looks { OfEachMsgq LooksTellTheRing }
    ensures purge { (q : Msgq) (h : MsgqHistory) → PurgeEndsEveryPut q h }
    ensures put_decided { OfEachMsgq PutDecidedByGetOrPurge }
    ensures get_decided { OfEachMsgq GetDecidedByItsPut }
    ensures always { (q : Msgq) (h : MsgqHistory) → MayAlways q h }
    ensures done { OfEachMsgq PurgeIsDone }
{}

/// Of every legal history of a message queue: who waits has asked for it and is served by priority, and then by
/// longest wait; the end of a wait is answered its decision, and one who gives up gets what was decided meanwhile.
pub fn queue_waits_end()
    ensures put_waits { OfEachMsgq (KeepsWaits msgq_machine putters) }
    ensures get_waits { OfEachMsgq (KeepsWaits msgq_machine getters) }
{}

/// Of every legal history of a message queue: a poll is told whether there is a message, each put that is done where
/// no get waits notifies one who polls and isn't notified yet, by priority, and then by longest poll, and nothing else does; and
/// polling takes nothing.
pub fn queue_polls_hold()
    ensures armed { OfEachMsgq PollArmAnswers }
    ensures noted { OfEachMsgq NotedAtAChance }
    ensures chances { OfEachMsgq EachChanceNotesOne }
    ensures nothing { (q : Msgq) (h : MsgqHistory) → PollingTakesNothing q h }
    ensures polls { OfEachMsgq (KeepsWaits msgq_machine pollers) }
{}

/// All of it, of every legal history of a message queue. It does nothing when it runs.
pub fn keeps_msgq_laws()
    ensures { OfEachMsgq KeepsMsgqLaws }
{
    first_in_first_out();
    ring_holds();
    queue_calls_are_told();
    queue_waits_end();
    queue_polls_hold();
}
