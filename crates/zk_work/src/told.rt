ghost use Rattle.std.specs.Prelude.{◌≡◌, ◌+◌, ◌<◌, ◌≤◌, false, Some, ◌++◌, option_to_list, vec_len, vec_capacity};
ghost use Rattle.zk_work.specs.Engine.{is_now};

use zk_model_work::{Expiry, WorkReply};

/// One expiry more. There has to be a place for it.
pub fn tell(told: &mut Vec<Expiry>, expiry: Expiry)
    requires { vec_len told.old < vec_capacity told.old }
    ensures items { told.new.items ≡ told.old.items ++ option_to_list (Some expiry) }
    ensures len { vec_len told.new ≡ vec_len told.old + 1 }
    ensures capacity { vec_capacity told.old ≤ vec_capacity told.new }
{
    if told.push(expiry).is_err() {
        unreachable!();
    }
}

/// The same reply once more. That of an announce holds a list, and isn't given here.
pub fn copy_of(reply: &WorkReply) -> WorkReply
    requires { is_now reply.now ≡ false }
    ensures { result ≡ reply.now }
{
    match *reply {
        WorkReply::Sub(submitted) => WorkReply::Sub(submitted),
        WorkReply::Armed => WorkReply::Armed,
        WorkReply::Flags(flags) => WorkReply::Flags(flags),
        WorkReply::Truth(truth) => WorkReply::Truth(truth),
        WorkReply::Wait => WorkReply::Wait,
        WorkReply::WaitFor(number) => WorkReply::WaitFor(number),
        WorkReply::Number(number) => WorkReply::Number(number),
        WorkReply::Done => WorkReply::Done,
        WorkReply::Already => WorkReply::Already,
        WorkReply::Busy => WorkReply::Busy,
        WorkReply::Now(_, _) => unreachable!(),
        WorkReply::Run(item, number) => WorkReply::Run(item, number),
    }
}
