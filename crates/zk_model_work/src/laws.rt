ghost use Rattle.zk_model_work.specs.Histories.{OfEach};
ghost use Rattle.zk_model_work.specs.Laws.{RunsOnce, BeginsInOrder, NeverOverlaps, SubmissionsHold, CancelsHold, FlushesHold, DrainsHold, DelaysHold, GoesOn, FlagsShow, KeepsLaws};

/// Of every legal work history: what has become of an admission stays so. It is begun by a begin on
/// its queue, which finds it waiting; at most once, and one that was dropped never.
pub fn runs_once()
    ensures { OfEach RunsOnce }
{}

/// Of every legal work history: each queue runs its admissions in the order of their numbers.
pub fn begins_in_order()
    ensures { OfEach BeginsInOrder }
{}

/// Of every legal work history: of an item one admission waits at most, and one runs; a queue runs one
/// at a time, from a begin to an end of its worker. Between two begins of an item, on any queues, the
/// first run has ended.
pub fn never_overlaps()
    ensures { OfEach NeverOverlaps }
{}

/// Of every legal work history: a submission that is answered 1 or 2 makes an admission, which waits
/// until a begin hands it out or a cancel of its item drops it; no other is made. It goes to the queue
/// that runs the item, else to the named one, else to that of the item's last admission, and that is
/// started. One of an item that waits is answered 0, and one that is refused has its cause.
pub fn submissions_hold()
    ensures { OfEach SubmissionsHold }
{}

/// Of every legal work history: after a cancel no admission of its item waits, and where it found a
/// run none is made until that run has ended; what is begun of the item later was admitted after that.
/// A sync cancel waits where the item runs, and is told to be done only after the end of that run.
pub fn cancels_hold()
    ensures { OfEach CancelsHold }
{}

/// Of every legal work history: a flush waits for the newest admission of its item that waits or runs
/// after it, and is told to be done only after that one has ended or was dropped. Of an item with a delay
/// it ends the delay and submits the item, as its caller.
pub fn flushes_hold()
    ensures { OfEach FlushesHold }
{}

/// Of every legal work history: a draining goes on until nothing of its queue waits or runs, and ends there.
/// Meanwhile each admission to it is submitted by its own worker. A drain that had to wait is told to be done only
/// after a draining has ended since its start. A queue that is plugged and doesn't drain takes nothing, and nothing
/// of it waits or runs; it is plugged and started as was asked.
pub fn drains_hold()
    ensures { OfEach DrainsHold }
{}

/// Of every legal work history: an arm is made as was asked, and expires at the first announce whose
/// time reaches its deadline, unless it was disarmed before, by a cancel, a flush or a reschedule of its
/// item; once, and never both. An item has at most one live arm. Those that expire at one announce do
/// it by deadline and then in the order of arming, and their admissions are numbered in that order.
pub fn delays_hold()
    ensures { OfEach DelaysHold }
{}

/// Of every legal work history: a worker may begin what waits for its queue while that runs nothing,
/// and may end what it runs. Who had to wait may be told to be done once what it waits for has come, and
/// is told so once. Every other operation may be made at any time. Each is answered in its form.
pub fn goes_on()
    ensures { OfEach GoesOn }
{}

/// Of every legal work history: the flag word of an item, which a look at it shows, says whether the item runs, is being
/// cancelled, waits, has a live arm and is being flushed.
pub fn flags_show()
    ensures { OfEach FlagsShow }
{}

/// All of it, of every legal work history. It does nothing when it runs.
pub fn keeps_laws()
    ensures { OfEach KeepsLaws }
{
    runs_once();
    begins_in_order();
    never_overlaps();
    submissions_hold();
    cancels_hold();
    flushes_hold();
    drains_hold();
    delays_hold();
    goes_on();
    flags_show();
}
