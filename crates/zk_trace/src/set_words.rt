ghost use Rattle.std.specs.Prelude.{◌≡◌};
ghost use Rattle.zk_trace.specs.Fields.{errno_of, need_of, why_of, truth_of, waits_of, plug_of, state_of};

use crate::words::{errno_word, need_word, truth_word, wait_word, why_word};
use zk_base::Errno;
use zk_model_bus::{Need, OopsWhy};
use zk_words::{Choice, choice_text, is_same};

/// All refusals.
const ERRNOS: [Errno; 7] = [
    Errno::Busy,
    Errno::Again,
    Errno::Inval,
    Errno::NoDev,
    Errno::NoMsg,
    Errno::Already,
    Errno::Fault,
];

/// All needs.
const NEEDS: [Need; 10] = [
    Need::Thread,
    Need::Sem,
    Need::Msgq,
    Need::Signal,
    Need::Queue,
    Need::Item,
    Need::Chan,
    Need::Sub,
    Need::Obs,
    Need::Any,
];

/// All reasons of a check that fails.
const WHYS: [OopsWhy; 4] = [
    OopsWhy::NoObject,
    OopsWhy::WrongKind,
    OopsWhy::NotGranted,
    OopsWhy::NotInit,
];

/// Both truth values.
const BOTH: [bool; 2] = [true, false];

/// A refusal.
pub fn errno_of(word: &[u8]) -> Option<Errno>
    ensures { result ≡ errno_of word.now }
{
    ERRNOS
        .iter()
        .copied()
        .find(|errno| is_same(word, errno_word(*errno)))
}

/// A need.
pub fn need_of(word: &[u8]) -> Option<Need>
    ensures { result ≡ need_of word.now }
{
    NEEDS
        .iter()
        .copied()
        .find(|need| is_same(word, need_word(*need)))
}

/// Why a check fails.
pub fn why_of(word: &[u8]) -> Option<OopsWhy>
    ensures { result ≡ why_of word.now }
{
    WHYS.iter()
        .copied()
        .find(|why| is_same(word, why_word(*why)))
}

/// A truth value.
pub fn truth_of(word: &[u8]) -> Option<bool>
    ensures { result ≡ truth_of word.now }
{
    BOTH.iter()
        .copied()
        .find(|truth| is_same(word, truth_word(*truth)))
}

/// Whether a call waits.
pub fn waits_of(word: &[u8]) -> Option<bool>
    ensures { result ≡ waits_of word.now }
{
    BOTH.iter()
        .copied()
        .find(|waits| is_same(word, wait_word(*waits)))
}

/// Whether a drain plugs its queue.
pub fn plug_of(word: &[u8]) -> Option<bool>
    ensures { result ≡ plug_of word.now }
{
    BOTH.iter()
        .copied()
        .find(|plug| is_same(word, choice_text(Choice::Drain, *plug)))
}

/// Whether something is on.
pub fn state_of(word: &[u8]) -> Option<bool>
    ensures { result ≡ state_of word.now }
{
    BOTH.iter()
        .copied()
        .find(|on| is_same(word, choice_text(Choice::State, *on)))
}
