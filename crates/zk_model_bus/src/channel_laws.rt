ghost use Rattle.zk_base.specs.WaitLaws.{KeepsWaits};
ghost use Rattle.zk_model_bus.specs.Channel.{Channel, chan_machine};
ghost use Rattle.zk_model_bus.specs.ChannelWaits.{callers};
ghost use Rattle.zk_model_bus.specs.ChannelLaws.{ChanHistory, OfEachChan, HolderGainedItLast, GainedOnlyWhereFree, DecidesOneWait, HandedOnAtOnce, HandedOnByAFree, OnlyTheHolderUses, FreedInItsManner, HolderMayUse, OneUsesAtATime, GetTellsTheLastSet, ListTellsTheUnmasked, MaskKnowsItsObservers, RefusedByItsValidator, CallWaitsOnlyWhereHeld, MayAlways, KeepsChannelLaws};

/// Of every legal history of a channel: one player holds it at a time, from the entry that got it or handed it on until it
/// is freed; a channel that is freed goes to the first who waits; and only its holder uses and frees it, and may do so.
pub fn one_holds()
    ensures holder { OfEachChan HolderGainedItLast }
    ensures gained { OfEachChan GainedOnlyWhereFree }
    ensures one_wait { OfEachChan DecidesOneWait }
    ensures at_once { OfEachChan HandedOnAtOnce }
    ensures by_free { OfEachChan HandedOnByAFree }
    ensures only { OfEachChan OnlyTheHolderUses }
    ensures freed { OfEachChan FreedInItsManner }
    ensures may_use { (c : Channel) (h : ChanHistory) → HolderMayUse c h }
    ensures one { OfEachChan OneUsesAtATime }
{}

/// Of every legal history of a channel: its message is that of the last set, and the observers that it tells are those that
/// aren't masked.
pub fn message_holds()
    ensures get { OfEachChan GetTellsTheLastSet }
    ensures list { OfEachChan ListTellsTheUnmasked }
    ensures mask { OfEachChan MaskKnowsItsObservers }
{}

/// Of every legal history of a channel: what a call for it is answered, and which operations are possible at any time.
pub fn channel_calls_are_told()
    ensures refused { OfEachChan RefusedByItsValidator }
    ensures calls { OfEachChan CallWaitsOnlyWhereHeld }
    ensures always { (c : Channel) (h : ChanHistory) → MayAlways c h }
{}

/// Of every legal history of a channel: who waits has asked for it and is served by priority, and then by longest wait; the
/// end of a wait is answered its decision, and one who gives up gets what was decided meanwhile.
pub fn channel_waits_end()
    ensures waits { OfEachChan (KeepsWaits chan_machine callers) }
{}

/// All of it, of every legal history of a channel. It does nothing when it runs.
pub fn keeps_channel_laws()
    ensures { OfEachChan KeepsChannelLaws }
{
    one_holds();
    message_holds();
    channel_calls_are_told();
    channel_waits_end();
}
