ghost use Rattle.std.specs.Prelude.{◌≡◌, option_map};
ghost use Rattle.zk_worker.specs.Refs.{ref_object, ref_declared, ref_number};

use zk_scenario::{Ref, Scenario};

/// A number that no object has: there are fewer.
pub const NO_OBJECT: u32 = u32::MAX;

/// The object number of an object that a call names. A name that no object has has a number that none has: the checks of a
/// call that says such a name end its player before the call makes another step.
pub fn ref_object(named: Ref) -> u32
    ensures { result ≡ ref_object named }
{
    match named {
        Ref::Known(object) => object,
        Ref::Unknown(_) => NO_OBJECT,
    }
}

/// The object number of an object that a call names, if it is declared.
pub fn ref_declared(named: Ref) -> Option<u32>
    ensures { result ≡ ref_declared named }
{
    match named {
        Ref::Known(object) => Some(object),
        Ref::Unknown(_) => None,
    }
}

/// An object that a call names, by its number among those of its kind.
pub fn ref_number(scenario: &Scenario, named: Ref) -> u32
    ensures { result ≡ ref_number scenario.now.decls named }
{
    scenario.number(ref_object(named))
}

/// The queue that a call names, if it names one.
pub fn queue_number(scenario: &Scenario, named: Option<Ref>) -> Option<u32>
    ensures { result ≡ option_map (ref_number scenario.now.decls) named }
{
    match named {
        Some(queue) => Some(ref_number(scenario, queue)),
        None => None,
    }
}
