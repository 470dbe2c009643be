ghost use Rattle.zk_model_trigger.specs.Laws.{OfEach, RepliesAreTold, EachIsTold, FiresOnce, EndsOnce, KeepsTriggerLaws};

/// Of every legal history of triggers: which operations are possible after it, and what they are answered, is fixed by its
/// entries alone. So is the reply of each of its entries by the entries before it.
pub fn replies_are_told()
    ensures possible { OfEach RepliesAreTold }
    ensures told { OfEach EachIsTold }
{}

/// Of every legal history of triggers: an arm fires once at most.
pub fn fires_once()
    ensures { OfEach FiresOnce }
{}

/// Of every legal history of triggers: an arm fires, or a cancel gives it up, once at most and never both.
pub fn ends_once()
    ensures { OfEach EndsOnce }
{}

/// All of it, of every legal history of triggers. It does nothing when it runs.
pub fn keeps_trigger_laws()
    ensures { OfEach KeepsTriggerLaws }
{
    replies_are_told();
    fires_once();
    ends_once();
}
