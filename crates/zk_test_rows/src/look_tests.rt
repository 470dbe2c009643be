//! The looks of a trace as one list.
use std::test::Fail;
use zk_base::Seen;
use zk_replay::replay;
use zk_scenario::read_scenario;
use zk_trace::{LookLine, LookReply};

/// Two threads that look at an item and at a signal, which one of them raises.
const LOOKS: &[u8] = b"zk 1\nthread a 0 super\nthread b 0 super\nqueue q 0 on\nitem w\nsignal s\n\
    script a\nbusy w\ncheck s\nraise s 7\ncheck s\nend\nscript b\ncheck s\nbusy w\nend\n";

/// The object numbers of both.
const ITEM: u32 = 3;

const SIGNAL: u32 = 4;

fn idle(player: u32, step: u32) -> LookLine {
    LookLine {
        player,
        step,
        object: ITEM,
        reply: LookReply::Flags(0, 0),
    }
}

fn seen(player: u32, step: u32, raised: bool, value: u16, stamp: u32) -> LookLine {
    LookLine {
        player,
        step,
        object: SIGNAL,
        reply: LookReply::Seen(Seen {
            raised,
            result: value,
            stamp,
        }),
    }
}

fn are(lines: &[LookLine], wanted: &[LookLine]) -> bool {
    lines == wanted
}

#[test]
fn all_looks(rt: HostRuntime) -> Result<(), Fail> {
    let alloc = rt.alloc();
    let Ok(scenario) = read_scenario(alloc, LOOKS) else {
        return Err(Fail::from("no scenario"));
    };
    let trace = replay(alloc, &scenario)?;
    assert!(rt; trace.looks.signals.items().len() == 5);
    let lines = trace.looks.lines(alloc)?;
    let wanted = [
        idle(0, 0),
        idle(1, 1),
        seen(0, 1, false, 0, 0),
        seen(0, 3, true, 7, 1),
        seen(1, 0, false, 0, 0),
    ];
    assert!(rt; are(lines.items(), &wanted));
    Ok(())
}
