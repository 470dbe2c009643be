ghost use Rattle.zk_model_wait.specs.SignalLaws.{SignalHistory, OfEachSignal, StampIsItsNumber, LookTellsItsWrite, LookBeforeAnyWriteIsClear, LookTellsTheLastStamp, MayAlways, KeepsSignalLaws};

/// Of every legal history of a signal: each write is told its number, what a look finds is what the write of its stamp left, and
/// both writes are possible at any time.
pub fn stamps_tell_writes()
    ensures stamps { OfEachSignal StampIsItsNumber }
    ensures looks { OfEachSignal LookTellsItsWrite }
    ensures first { OfEachSignal LookBeforeAnyWriteIsClear }
    ensures last { OfEachSignal LookTellsTheLastStamp }
    ensures always { OfEachSignal MayAlways }
{}

/// All of it, of every legal history of a signal. It does nothing when it runs.
pub fn keeps_signal_laws()
    ensures { OfEachSignal KeepsSignalLaws }
{
    stamps_tell_writes();
}
