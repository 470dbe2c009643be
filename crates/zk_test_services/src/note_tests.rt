//! Who is noted when something is ready, one call after another.
ghost use Rattle.std.specs.Prelude.{◌≡◌, []};

use self::Asked::{End, Find, Note};
use std::process::Abort;
use std::test::Fail;
use zk_base::{NoMemory, Who};
use zk_poll::Notes;

/// What is asked, and what is answered.
#[derive(Clone, Copy)]
enum Asked {
    Find(u64, Option<(Who, bool)>),
    Note(Option<u64>),
    End(u64, Option<bool>),
}

const LOW: Who = Who { number: 1, prio: 5 };

const HIGH: Who = Who { number: 2, prio: 3 };

/// Three are registered, and asked for. The notes go by priority and then by registration, and none
/// is left for who isn't there; who is taken out was noted or not.
const ROWS: [Asked; 9] = [
    Find(6, Some((HIGH, false))),
    Note(Some(6)),
    Find(6, Some((HIGH, true))),
    Note(Some(9)),
    End(6, Some(true)),
    End(6, None),
    End(4, Some(false)),
    Note(None),
    Find(4, None),
];

/// The low one is registered first, and then the high one twice.
fn register<R: Abort>(rt: &R, notes: &mut Notes) -> Result<(), NoMemory>
    requires { notes.old.members ≡ [] }
{
    notes.reserve()?;
    assert!(rt; notes.room() >= 1);
    notes.arm(4, LOW)?;
    notes.arm(6, HIGH)?;
    notes.arm(9, HIGH)
}

/// Whether that is answered.
fn is_answered(notes: &mut Notes, asked: Asked) -> bool {
    match asked {
        Find(place, found) => notes.find(place) == found,
        Note(place) => notes.note() == place,
        End(place, noted) => notes.end(place) == noted,
    }
}

#[test]
fn by_priority(rt: HostRuntime) -> Result<(), Fail> {
    let mut notes = Notes::new(rt.alloc());
    register(&rt, &mut notes)?;
    for (row, asked) in ROWS.into_iter().enumerate() {
        assert!(rt; is_answered(&mut notes, asked), "row {row}");
    }
    Ok(())
}
