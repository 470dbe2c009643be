ghost use Rattle.std.specs.Prelude.{◌≡◌, ◌↔◌, IsTrue};
ghost use Rattle.zk_failures.specs.Parts.{part_of};
ghost use Rattle.zk_failures.specs.PlaceFailure.{same_part};

use zk_worker::Spot;

/// The entries of one service, the looks at items, or the looks at one signal.
#[derive(Clone, Copy, PartialEq, Eq)]
pub enum Part {
    Work,
    Clock,
    Table,
    Sem(u32),
    Msgq(u32),
    Signal(u32),
    Chan(u32),
    Obs(u32),
    ItemLooks,
    SignalLooks(u32),
}

/// Whether two lines are of one part.
pub fn same_part(spot: Spot, other: Spot) -> bool
    ensures { result ≡ same_part spot other }
{
    is_same(part_of(spot), part_of(other))
}

fn is_same(part: Part, other: Part) -> bool
    ensures { IsTrue result ↔ (part ≡ other) }
{
    part == other
}

fn part_of(spot: Spot) -> Part
    ensures { result ≡ part_of spot }
{
    match spot {
        Spot::Work(_) => Part::Work,
        Spot::Clock(_) => Part::Clock,
        Spot::Table(_) => Part::Table,
        Spot::Sem(object, _) => Part::Sem(object),
        Spot::Msgq(object, _) => Part::Msgq(object),
        Spot::Signal(object, _) => Part::Signal(object),
        Spot::Chan(object, _) => Part::Chan(object),
        Spot::Obs(object, _) => Part::Obs(object),
        Spot::LookItem(_, _, _) => Part::ItemLooks,
        Spot::LookSignal(object, _) => Part::SignalLooks(object),
    }
}
