ghost use Rattle.std.specs.Prelude.{◌^◌, ◌<◌, length, All};
ghost use Rattle.zk_trace.specs.declared.format.Format.{Format};
ghost use Rattle.zk_trace.specs.Formats.{CanTellAll};

use crate::Trace;
use zk_base::Listed;
use zk_worker::Log;

/// What is in memory isn't longer than a number of 64 bits says.
pub fn long<X>(list: &[X])
    ensures { length list.now < 2 ^ 64 }
{
    let _length = list.len();
}

/// Nor is each of some.
fn all_long<X>(lists: &[Listed<X>])
    ensures { All (λ list. length list < 2 ^ 64) lists.now }
{
    for list in lists {
        long(list.items());
    }
}

/// Nor are the answers of a player.
fn answers_long(log: &Log)
    ensures { length log.now.answers < 2 ^ 64 }
{
    let _length = log.answers.len();
}

/// Nor those of each.
fn all_answers_long(logs: &[Log])
    ensures { All (λ log. length log.answers < 2 ^ 64) logs.now }
{
    for log in logs {
        answers_long(log);
    }
}

/// The number of lines of each sort in each section of a trace can be told. Nothing is done.
pub fn trace_counts(trace: &Trace)
    ensures { (f : Format) → CanTellAll f trace.now }
{
    long(trace.work.items());
    long(trace.clock.items());
    long(trace.table.items());
    long(trace.looks.items.items());
    all_long(trace.sems.items());
    all_long(trace.msgqs.items());
    all_long(trace.signals.items());
    all_long(trace.chans.items());
    all_long(trace.observers.items());
    all_long(trace.looks.signals.items());
    all_answers_long(trace.logs.items());
}
