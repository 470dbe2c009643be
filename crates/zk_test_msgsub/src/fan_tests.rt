//! Who is listed at a fan.
use std::test::Fail;
use zk_base::{Few, Who};
use zk_msgsub::{FanOp, FanReply, FanState, fan_next};

const PLAYER: Who = Who { number: 0, prio: 0 };

#[test]
fn who_is_listed(rt: HostRuntime) -> Result<(), Fail> {
    let mut fan = FanState::new(Few::none());
    let mut one = Few::none();
    one.push(1);
    let done = fan_next(&mut fan, PLAYER, &FanOp::Add(1))?;
    let already = fan_next(&mut fan, PLAYER, &FanOp::Add(1))?;
    let inval = fan_next(&mut fan, PLAYER, &FanOp::Remove(0))?;
    let listed = fan_next(&mut fan, PLAYER, &FanOp::Open)?;
    assert!(rt; done == Some(FanReply::Done));
    assert!(rt; already == Some(FanReply::Already));
    assert!(rt; inval == Some(FanReply::Inval));
    assert!(rt; listed == Some(FanReply::Subs(one)));
    let gone = fan_next(&mut fan, PLAYER, &FanOp::Remove(1))?;
    let nobody = fan_next(&mut fan, PLAYER, &FanOp::Open)?;
    assert!(rt; gone == Some(FanReply::Done));
    assert!(rt; nobody == Some(FanReply::Subs(Few::none())));
    Ok(())
}
