ghost use Rattle.std.specs.Prelude.{◌≡◌, ◌^◌, ◌<◌};
ghost use Rattle.zk_worker.specs.Shown.{is_look};
ghost use Rattle.zk_show_order.specs.Services.{service_of, entries_above, fits_below};

use zk_worker::Spot;

/// The number of the service at which a line stands: those of which there is one, and then five for each object number, one of
/// each kind.
pub fn service_number(spot: Spot) -> usize
    ensures service { result ≡ service_of spot }
    ensures few { result < 2 ^ 40 }
{
    match spot {
        Spot::Work(_) | Spot::LookItem(_, _, _) => 0,
        Spot::Clock(_) => 1,
        Spot::Table(_) => 2,
        Spot::Sem(object, _) => 5 * object as usize + 3,
        Spot::Msgq(object, _) => 5 * object as usize + 4,
        Spot::Signal(object, _) | Spot::LookSignal(object, _) => 5 * object as usize + 5,
        Spot::Chan(object, _) => 5 * object as usize + 6,
        Spot::Obs(object, _) => 5 * object as usize + 7,
    }
}

/// Whether a line is that of a look.
pub fn is_look(spot: Spot) -> bool
    ensures { result ≡ is_look spot }
{
    matches!(spot, Spot::LookItem(_, _, _) | Spot::LookSignal(_, _))
}

/// How many entries of its service stand above a line: above that of a look at least so many.
pub fn entries_above(spot: Spot) -> u64
    ensures { result ≡ entries_above spot }
{
    match spot {
        Spot::Work(place) | Spot::Clock(place) | Spot::Table(place) => place,
        Spot::Sem(_, place) | Spot::Msgq(_, place) | Spot::Signal(_, place) => place,
        Spot::Chan(_, place) | Spot::Obs(_, place) => place,
        Spot::LookItem(_, _, at) => at,
        Spot::LookSignal(_, seen) => u64::from(seen.stamp),
    }
}

/// Whether a line can stand below so many entries of its service.
pub fn fits_below(spot: Spot, count: u64) -> bool
    ensures { result ≡ fits_below spot count }
{
    if is_look(spot) {
        entries_above(spot) <= count
    } else {
        entries_above(spot) == count
    }
}
