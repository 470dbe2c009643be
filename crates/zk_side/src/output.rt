ghost use Rattle.std.specs.Prelude.{◌≡◌, [], IfOk};
ghost use Rattle.zk_side.specs.Output.{IsSideOutput};
ghost use Rattle.zk_side.specs.Played.{stage_of};

use crate::play::play;
use crate::refusal::put_refusal;
use crate::side::Side;
use std::alloc::Global;
use zk_base::{NoMemory, Service, Status};
use zk_paper::Paper;

/// The whole output for an input that is played as a side script on a service at which nothing was done, and the status that
/// goes with it: `Success`, or `Refused` where the input is no side script.
pub fn side_output<S: Side>(
    alloc: Global,
    service: S::Target,
    input: &[u8],
) -> Result<(Vec<u8>, Status), NoMemory>
where
    <S::Target as Service>::Reply: Drop,
    requires { S.Target.history service ≡ [] }
    ensures { IfOk result (λ made.
        IsSideOutput (stage_of S.Target.machine (S.Target.start service) S.op_of S.reply_text) made.1 input.now made.0.items) }
{
    let mut paper = Paper::behind(Vec::new(alloc));
    match play::<S>(&mut paper, service, input)? {
        None => {
            let (text, put) = paper.whole();
            put?;
            Ok((text, Status::Success))
        }
        Some(refusal) => {
            let mut text = paper.front();
            put_refusal(&mut text, refusal)?;
            Ok((text, Status::Refused))
        }
    }
}
