ghost use Rattle.zk_base.specs.WaitLaws.{KeepsWaits};
ghost use Rattle.zk_event.specs.Event.{new_event, event_machine};
ghost use Rattle.zk_event.specs.EventWaits.{waiters};
ghost use Rattle.zk_event.specs.EventLaws.{OfEachEvent, AnswersWhatIsThere, NoneWaitsWhereItHolds, DecidedAtItsMoment, DecidedAtTheFirstMoment, EachBitAsLastLeft};

/// Of every legal history of an event object: a post, a set and a clear answer the bits as they were, a wait what it finds. Who waits has asked for it, the end of a wait is answered its decision, one
/// who gives up gets what was decided meanwhile. Nobody waits for what is there: a wait is decided by the first post or
/// set behind which that is, with the bits that are there then.
pub fn event_waits_end()
    ensures waits { OfEachEvent (KeepsWaits event_machine waiters new_event) }
    ensures answers { OfEachEvent AnswersWhatIsThere }
    ensures none { OfEachEvent NoneWaitsWhereItHolds }
    ensures moment { OfEachEvent DecidedAtItsMoment }
    ensures first { OfEachEvent DecidedAtTheFirstMoment }
    ensures bits { OfEachEvent EachBitAsLastLeft }
{}
