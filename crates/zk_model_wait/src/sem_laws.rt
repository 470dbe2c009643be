ghost use Rattle.zk_base.specs.WaitLaws.{KeepsWaits};
ghost use Rattle.zk_model_wait.specs.Sem.{Sem, sem_machine};
ghost use Rattle.zk_model_wait.specs.SemWaits.{takers, pollers};
ghost use Rattle.zk_model_wait.specs.SemLaws.{SemHistory, OfEachSem, CountWithinLimit, NoneWaitsWhileCount, GivesAddUp, GotWithinGives, TakeWaitsOnlyAtZero, CountTellsTheCount, ResetEndsEveryWait, DecidedByGiveOrReset, MayAlways, GiveIsDone, PollArmAnswers, NotedAtAChance, EachChanceNotesOne, PollingTakesNothing, KeepsSemLaws};

/// Of every legal history of a semaphore: it loses and invents no count, its count keeps its limit, and nobody waits while the
/// count is above 0.
pub fn gives_add_up()
    ensures add_up { OfEachSem GivesAddUp }
    ensures got { OfEachSem GotWithinGives }
    ensures within { OfEachSem CountWithinLimit }
    ensures none_waits { OfEachSem NoneWaitsWhileCount }
{}

/// Of every legal history of a semaphore: what each operation is answered, what decides a wait, what a reset leaves, and which
/// operations are possible at any time.
pub fn calls_are_told()
    ensures takes { OfEachSem TakeWaitsOnlyAtZero }
    ensures told { OfEachSem CountTellsTheCount }
    ensures done { OfEachSem GiveIsDone }
    ensures reset { (s : Sem) (h : SemHistory) → ResetEndsEveryWait s h }
    ensures decided { OfEachSem DecidedByGiveOrReset }
    ensures always { (s : Sem) (h : SemHistory) → MayAlways s h }
{}

/// Of every legal history of a semaphore: who waits has asked for it, the end of a wait is answered its decision, and
/// one who gives up gets what was decided meanwhile. Who waits is served by priority, and then by longest wait.
pub fn waits_end()
    ensures waits { OfEachSem (KeepsWaits sem_machine takers) }
{}

/// Of every legal history of a semaphore: a poll is told whether the count is above 0, each give where nobody waits
/// notifies one who polls and isn't notified yet, by priority, and then by longest poll, and nothing else does; and
/// polling takes nothing.
pub fn polls_hold()
    ensures armed { OfEachSem PollArmAnswers }
    ensures noted { OfEachSem NotedAtAChance }
    ensures chances { OfEachSem EachChanceNotesOne }
    ensures nothing { (s : Sem) (h : SemHistory) → PollingTakesNothing s h }
    ensures polls { OfEachSem (KeepsWaits sem_machine pollers) }
{}

/// All of it, of every legal history of a semaphore. It does nothing when it runs.
pub fn keeps_sem_laws()
    ensures { OfEachSem KeepsSemLaws }
{
    gives_add_up();
    calls_are_told();
    waits_end();
    polls_hold();
}
