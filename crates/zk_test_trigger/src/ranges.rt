ghost use Rattle.std.specs.Prelude.{◌≡◌, nat_lt};
ghost use Rattle.std.specs.List.{list_all};
ghost use Rattle.zk_model_trigger.specs.Machine.{names_in_range};

use zk_trigger::TriggerOp;

/// Whether each of these is an event.
fn are_events(events: &[u32]) -> bool
    ensures { result ≡ list_all (λ e. nat_lt e 64) events.now }
{
    events.iter().all(|e| *e < 64)
}

/// Whether what an operation names is in range.
pub fn names_in_range(op: &TriggerOp) -> bool
    ensures { result ≡ names_in_range op.now }
{
    match op {
        TriggerOp::Arm(item, queue, events, _) => {
            let events = events.numbers();
            *item < 256 && *queue < 8 && 0 < events.len() && are_events(events)
        }
        TriggerOp::Post(event) | TriggerOp::Unpost(event) => *event < 64,
        TriggerOp::Cancel(item) => *item < 256,
        TriggerOp::Tick(_) | TriggerOp::Next => true,
    }
}
