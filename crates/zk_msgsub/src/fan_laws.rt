ghost use Rattle.zk_msgsub.specs.FanLaws.{OfEachFan, OpenTellsTheListed, OpenTellsTheOrder, OpenTellsEachOnce, AddIsTold, RemoveIsTold, MayAlways, KeepsFanLaws};

/// Of every legal history of a fan: an open tells just the subscribers whose last done change was an add, or that were listed
/// at first and never changed, each once: first those of the start, then by the place of the last add.
pub fn opens_are_told()
    ensures listed { OfEachFan OpenTellsTheListed }
    ensures order { OfEachFan OpenTellsTheOrder }
    ensures once { OfEachFan OpenTellsEachOnce }
{}

/// Of every legal history of a fan: an add is done just where the subscriber isn't listed, a remove just where it is, and both
/// are always possible.
pub fn changes_are_told()
    ensures add { OfEachFan AddIsTold }
    ensures remove { OfEachFan RemoveIsTold }
    ensures always { OfEachFan MayAlways }
{}

/// All of it, of every legal history of a fan. It does nothing when it runs.
pub fn keeps_fan_laws()
    ensures { OfEachFan KeepsFanLaws }
{
    opens_are_told();
    changes_are_told();
}
