ghost use Rattle.std.specs.Prelude.{◌≡◌};
ghost use Rattle.zk_worker.specs.Replies.{submission_answer, work_answer, sem_answer, msgq_answer, chan_answer, obs_answer, table_answer, answer_of};

use crate::{Answer, StepReply};
use zk_base::Errno;
use zk_model_bus::{ChanReply, ObsReply, TableReply};
use zk_model_wait::{MsgqReply, SemReply};
use zk_model_work::{Submitted, WorkReply};

fn submission_answer(submitted: Submitted) -> Answer
    ensures { result ≡ submission_answer submitted }
{
    match submitted {
        Submitted::Already => Answer::Number(0),
        Submitted::Fresh(_, _) => Answer::Number(1),
        Submitted::Rerun(_, _) => Answer::Number(2),
        Submitted::Refused(errno) => Answer::Refused(errno),
    }
}

fn work_answer(reply: &WorkReply) -> Answer
    ensures { result ≡ work_answer reply.now }
{
    match reply {
        WorkReply::Sub(submitted) => submission_answer(*submitted),
        WorkReply::Armed => Answer::Number(1),
        WorkReply::Flags(flags) => Answer::Flags(*flags),
        WorkReply::Truth(truth) => Answer::Truth(*truth),
        WorkReply::Number(number) => Answer::Number(*number),
        WorkReply::Already => Answer::Refused(Errno::Already),
        WorkReply::Busy => Answer::Refused(Errno::Busy),
        _ => Answer::Number(0),
    }
}

fn sem_answer(reply: &SemReply) -> Answer
    ensures { result ≡ sem_answer reply.now }
{
    match reply {
        SemReply::Busy => Answer::Refused(Errno::Busy),
        SemReply::Again => Answer::Refused(Errno::Again),
        SemReply::Number(number) => Answer::Number(u64::from(*number)),
        _ => Answer::Number(0),
    }
}

fn msgq_answer(reply: &MsgqReply) -> Answer
    ensures { result ≡ msgq_answer reply.now }
{
    match reply {
        MsgqReply::NoMsg => Answer::Refused(Errno::NoMsg),
        MsgqReply::Again => Answer::Refused(Errno::Again),
        MsgqReply::Bytes(message) => Answer::Bytes(*message),
        MsgqReply::Number(number) => Answer::Number(u64::from(*number)),
        _ => Answer::Number(0),
    }
}

fn chan_answer(reply: &ChanReply) -> Answer
    ensures { result ≡ chan_answer reply.now }
{
    match reply {
        ChanReply::Busy => Answer::Refused(Errno::Busy),
        ChanReply::Again => Answer::Refused(Errno::Again),
        ChanReply::NoMsg => Answer::Refused(Errno::NoMsg),
        ChanReply::Inval => Answer::Refused(Errno::Inval),
        ChanReply::Bytes(message) => Answer::Bytes(*message),
        _ => Answer::Number(0),
    }
}

fn obs_answer(reply: &ObsReply) -> Answer
    ensures { result ≡ obs_answer reply.now }
{
    match reply {
        ObsReply::NoMsg => Answer::Refused(Errno::NoMsg),
        ObsReply::Again => Answer::Refused(Errno::Again),
        ObsReply::Channel(channel) => Answer::Channel(*channel),
        _ => Answer::Number(0),
    }
}

fn table_answer(reply: &TableReply) -> Answer
    ensures { result ≡ table_answer reply.now }
{
    match reply {
        TableReply::Already => Answer::Refused(Errno::Already),
        _ => Answer::Number(0),
    }
}

pub fn answer_of(reply: &StepReply) -> Answer
    ensures { result ≡ answer_of reply.now }
{
    match reply {
        StepReply::Work(reply, _) => work_answer(reply),
        StepReply::Clock(_, _) => Answer::Number(0),
        StepReply::Table(reply, _) => table_answer(reply),
        StepReply::Sem(_, reply, _) => sem_answer(reply),
        StepReply::Msgq(_, reply, _) => msgq_answer(reply),
        StepReply::Signal(_, _, _) => Answer::Number(0),
        StepReply::Chan(_, reply, _) => chan_answer(reply),
        StepReply::Obs(_, reply, _) => obs_answer(reply),
        StepReply::Flags(flags, _) => Answer::Flags(*flags),
        StepReply::Seen(seen) => Answer::Signal(seen.raised, seen.result),
    }
}
