ghost use Rattle.std.specs.Prelude.{◌≡◌, ◌≤◌, [], ◌∷◌, IfOk, vec_capacity};
ghost use Rattle.zk_signal.specs.Passes.{AreNewPasses, IsNewPass};

use std::alloc::Global;
use std::test::Fail;
use zk_base::{NoMemory, Seen};
use zk_signal::{SharedSignal, SigPass};
use zk_uses::{Raised, Raiser, all_in_order, raised_by_two};

/// How often each thread raises the signal.
const TIMES: u16 = 1_000;

/// How often the test of two threads is made.
const ROUNDS: u32 = 20;

/// The passes of a signal for two players.
fn two_passes(signal: &SharedSignal, mut passes: Vec<SigPass>) -> (SigPass, SigPass)
    requires { AreNewPasses signal.now (0 ∷ 1 ∷ []) passes.items }
    ensures { IsNewPass signal.now 0 result.0 × IsNewPass signal.now 1 result.1 }
{
    let Some(second) = passes.pop() else {
        unreachable!()
    };
    let Some(first) = passes.pop() else {
        unreachable!()
    };
    (first, second)
}

/// Whether all writes are the player's, and their stamps rise.
fn rise(writes: &[Raised], player: u32) -> bool {
    let mut last = 0;
    for write in writes {
        if write.player != player || write.stamp <= last {
            return false;
        }
        last = write.stamp;
    }
    true
}

/// A player that raises the signal, with room for its writes.
fn raiser(alloc: Global, player: u32, pass: SigPass) -> Result<Raiser, NoMemory>
    ensures player { IfOk result (λ raiser. raiser.player ≡ player) }
    ensures pass { IfOk result (λ raiser. raiser.pass ≡ pass) }
    ensures none { IfOk result (λ raiser. raiser.writes.items ≡ []) }
    ensures room { IfOk result (λ raiser. 1000 ≤ vec_capacity raiser.writes) }
{
    let writes = Vec::with_capacity(alloc, 1_000)?;
    Ok(Raiser {
        player,
        pass,
        writes,
    })
}

#[test]
fn two_threads_raise(rt: HostRuntime) -> Result<(), Fail> {
    for _ in 0..ROUNDS {
        let (signal, passes) = SharedSignal::new(rt.alloc(), &[0, 1])?;
        let (first, second) = two_passes(&signal, passes);
        let one = raiser(rt.alloc(), 0, first)?;
        let other = raiser(rt.alloc(), 1, second)?;
        let (one, other) = raised_by_two(&rt, &signal, one, other, TIMES);
        assert!(rt; (one.writes.len(), other.writes.len()) == (1_000, 1_000));
        assert!(rt; rise(&one.writes, 0), "each thread's stamps rise");
        assert!(rt; rise(&other.writes, 1), "each thread's stamps rise");
        let writes = all_in_order(signal, one, other, TIMES)?;
        assert!(rt; writes.len() == 2_000);
        let mut next = 1u64;
        for write in &writes {
            assert!(rt; u64::from(write.stamp) == next, "each stamp once");
            next = u64::from(write.stamp) + 1;
        }
    }
    Ok(())
}

#[test]
fn a_look_shows_what_another_wrote(rt: HostRuntime) -> Result<(), Fail> {
    let (signal, passes) = SharedSignal::new(rt.alloc(), &[0, 1])?;
    let (mut first, mut second) = two_passes(&signal, passes);
    assert!(rt;
        signal.look(&mut second)
            == Seen {
                raised: false,
                result: 0,
                stamp: 0
            }
    );
    assert!(rt; !signal.is_raised());
    assert!(rt; signal.raise(&mut first, 7) == 1);
    assert!(rt; signal.is_raised());
    assert!(rt;
        signal.look(&mut second)
            == Seen {
                raised: true,
                result: 7,
                stamp: 1
            }
    );
    assert!(rt; signal.clear(&mut second) == 2);
    assert!(rt;
        signal.look(&mut first)
            == Seen {
                raised: false,
                result: 0,
                stamp: 2
            }
    );
    assert!(rt; signal.raise(&mut second, 65_535) == 3);
    assert!(rt; signal.raise(&mut first, 0) == 4);
    assert!(rt;
        signal.look(&mut second)
            == Seen {
                raised: true,
                result: 0,
                stamp: 4
            }
    );
    assert!(rt;
        (first.room(), second.room()) == (19_998, 19_998),
        "only a write takes room"
    );
    signal.join(&mut first, second);
    assert!(rt; signal.close(first) == 4);
    Ok(())
}
