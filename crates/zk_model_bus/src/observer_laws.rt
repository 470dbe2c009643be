ghost use Rattle.zk_base.specs.WaitLaws.{KeepsWaits};
ghost use Rattle.zk_model_bus.specs.Observer.{Observer, obs_machine};
ghost use Rattle.zk_model_bus.specs.ObserverWaits.{takers};
ghost use Rattle.zk_model_bus.specs.ObserverLaws.{ObsHistory, OfEachObs, TakenInOrder, NoneWaitsWhileChannels, WithinCapacity, OffWhileDisabled, ListenerRuns, FullOnlyAtCapacity, TakeWaitsOnlyAtNone, TakerDecidedByAPush, ListenerTakesNothing, MayAlways, EnableIsDone, KeepsObserverLaws};

/// Of every legal history of an observer: each channel that was pushed leaves its list once, in the order in which they were
/// pushed, be it taken or handed to who waits; the list keeps its capacity, and nobody waits while it has a channel.
pub fn taken_in_order()
    ensures in_order { OfEachObs TakenInOrder }
    ensures none_waits { OfEachObs NoneWaitsWhileChannels }
    ensures within { OfEachObs WithinCapacity }
{}

/// Of every legal history of an observer: one that is disabled is told nothing, and one that is enabled is.
pub fn off_holds()
    ensures off { OfEachObs OffWhileDisabled }
    ensures listener { OfEachObs ListenerRuns }
    ensures full { OfEachObs FullOnlyAtCapacity }
{}

/// Of every legal history of an observer: what a take and an enable are answered, what decides a wait, and which operations
/// are possible.
pub fn observer_calls_are_told()
    ensures take { OfEachObs TakeWaitsOnlyAtNone }
    ensures decided { OfEachObs TakerDecidedByAPush }
    ensures nothing { OfEachObs ListenerTakesNothing }
    ensures always { (o : Observer) (h : ObsHistory) → MayAlways o h }
    ensures done { OfEachObs EnableIsDone }
{}

/// Of every legal history of an observer: who waits has asked for it and is served by priority, and then by longest wait; the
/// end of a wait is answered its decision, and one who gives up gets what was decided meanwhile.
pub fn observer_waits_end()
    ensures waits { OfEachObs (KeepsWaits obs_machine takers) }
{}

/// All of it, of every legal history of an observer. It does nothing when it runs.
pub fn keeps_observer_laws()
    ensures { OfEachObs KeepsObserverLaws }
{
    taken_in_order();
    off_holds();
    observer_calls_are_told();
    observer_waits_end();
}
