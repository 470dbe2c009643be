ghost use Rattle.std.specs.Prelude.{◌≡◌, ◌++◌, OnOk};
ghost use Rattle.zk_trace.specs.Words.{ending_word, errno_word, need_word, why_word, oops_word, admission_word, truth_word, wait_word, position_text, positions_text, ready_word, call_word, state_word};

use crate::Ending;
use zk_base::{Errno, NoMemory};
use zk_model_bus::{Need, OopsWhy};
use zk_paper::Paper;
use zk_words::{Head, Word, row_of};
use zk_worker::PlayerState;

/// What stands before the number of an admission.
pub const ADMISSION: &[u8] = b"a";

/// The word before the positions of a poll's ready events.
pub const READY: &[u8] = b"ready";

/// The word before the reason of a check that fails, and a space.
pub const OOPS: &[u8] = b"oops ";

/// How a run ended.
pub fn ending_word(ending: Ending) -> &'static [u8]
    ensures { result.now ≡ ending_word ending }
{
    match ending {
        Ending::Ended => b"ended",
        Ending::Stuck => b"stuck",
        Ending::Spent => b"spent",
    }
}

/// The cause of a refusal.
pub fn errno_word(errno: Errno) -> &'static [u8]
    ensures { result.now ≡ errno_word errno }
{
    match errno {
        Errno::Busy => b"busy",
        Errno::Again => b"again",
        Errno::Inval => b"inval",
        Errno::NoDev => b"nodev",
        Errno::NoMsg => b"nomsg",
        Errno::Already => b"already",
        Errno::Fault => b"fault",
    }
}

/// What a check asks of the kind of an object.
pub fn need_word(need: Need) -> &'static [u8]
    ensures { result.now ≡ need_word need }
{
    match need {
        Need::Thread => b"thread",
        Need::Sem => b"sem",
        Need::Msgq => b"msgq",
        Need::Signal => b"signal",
        Need::Queue => b"queue",
        Need::Item => b"item",
        Need::Chan => b"chan",
        Need::Sub => b"sub",
        Need::Obs => b"obs",
        Need::Any => b"any",
    }
}

/// Why a check fails.
pub fn why_word(why: OopsWhy) -> &'static [u8]
    ensures { result.now ≡ why_word why }
{
    match why {
        OopsWhy::NoObject => b"noobject",
        OopsWhy::WrongKind => b"wrongkind",
        OopsWhy::NotGranted => b"notgranted",
        OopsWhy::NotInit => b"notinit",
    }
}

/// Appends the word `oops` and why a check fails.
pub fn put_oops(out: &mut Paper, why: OopsWhy) -> Result<(), NoMemory>
    ensures text { OnOk result (out.new.put ≡ out.old.put ++ oops_word why) }
    ensures front { out.new.front ≡ out.old.front }
{
    out.put(OOPS)?;
    out.put(why_word(why))
}

/// Appends the number of an admission.
pub fn put_admission(out: &mut Paper, number: u64) -> Result<(), NoMemory>
    ensures text { OnOk result (out.new.put ≡ out.old.put ++ admission_word number) }
    ensures front { out.new.front ≡ out.old.front }
{
    out.put(ADMISSION)?;
    out.put_number(number)
}

/// An answer that is true or false.
pub fn truth_word(truth: bool) -> &'static [u8]
    ensures { result.now ≡ truth_word truth }
{
    if truth { b"true" } else { b"false" }
}

/// Whether a call waits where it can't be served at once.
pub fn wait_word(waits: bool) -> &'static [u8]
    ensures { result.now ≡ wait_word waits }
{
    if waits { b"wait" } else { b"no" }
}

/// Appends the word `ready` and positions, each behind a space.
pub fn put_ready(out: &mut Paper, positions: &[u32]) -> Result<(), NoMemory>
    ensures text { OnOk result (out.new.put ≡ out.old.put ++ ready_word positions.now) }
    ensures front { out.new.front ≡ out.old.front }
{
    out.put(READY)?;
    put_positions(out, positions)
}

fn put_positions(out: &mut Paper, positions: &[u32]) -> Result<(), NoMemory>
    ensures text { OnOk result (out.new.put ≡ out.old.put ++ positions_text positions.now) }
    ensures front { out.new.front ≡ out.old.front }
{
    for position in positions {
        put_position(out, *position)?;
    }
    Ok(())
}

fn put_position(out: &mut Paper, position: u32) -> Result<(), NoMemory>
    ensures text { OnOk result (out.new.put ≡ out.old.put ++ position_text position) }
    ensures front { out.new.front ≡ out.old.front }
{
    out.put(b" ")?;
    out.put_number(u64::from(position))
}

/// A call, as it is spelled in a scenario.
pub fn call_word(word: Word) -> &'static [u8]
    ensures { result.now ≡ call_word word }
{
    row_of(Head::Call(word)).first
}

/// How a player stands at the end.
pub fn state_word(state: PlayerState) -> &'static [u8]
    ensures { result.now ≡ state_word state }
{
    match state {
        PlayerState::Spent => b"spent",
        PlayerState::Oops => b"oops",
        PlayerState::Done => b"done",
        PlayerState::Standing => b"open",
    }
}
