ghost use Rattle.zk_model_wait.specs.ClockLaws.{ClockHistory, OfEach, TimeIsAllTicks, TimeNeverFalls, AnnounceTellsTheTime, AlarmTellsItsMoment, DueWhenItsMomentHasCome, EachEndsOnce, MayEndOnceItHasCome, MayAlways, KeepsClockLaws};

/// Of every legal history of the clock: its time is the sum of all ticks that were announced, and so
/// never falls. An announcement is answered the time after it, and an alarm the moment to which it
/// runs. Both are possible at any time.
pub fn time_passes()
    ensures sum { (h : ClockHistory) → TimeIsAllTicks h }
    ensures rises { (h : ClockHistory) → TimeNeverFalls h }
    ensures told { OfEach AnnounceTellsTheTime }
    ensures moment { OfEach AlarmTellsItsMoment }
    ensures always { (h : ClockHistory) → MayAlways h }
{}

/// Of every legal history of the clock: an alarm ends for the player who set it, once, and not before
/// its moment. From its moment on it may end.
pub fn alarms_hold()
    ensures due { OfEach DueWhenItsMomentHasCome }
    ensures once { OfEach EachEndsOnce }
    ensures may { OfEach MayEndOnceItHasCome }
{}

/// All of it, of every legal history of the clock. It does nothing when it runs.
pub fn keeps_clock_laws()
    ensures { OfEach KeepsClockLaws }
{
    time_passes();
    alarms_hold();
}
