ghost use Rattle.std.specs.Prelude.{◌≡◌, ◌++◌, ◌==◌, MatchOption, OnOk};
ghost use Rattle.std.specs.Int.RustNames.{bit_and};
ghost use Rattle.std.specs.Str.{bytes_eq};
ghost use Rattle.zk_trace.specs.Fields.{flags_of};
ghost use Rattle.zk_trace.specs.Letters.{BeginsOtherwise, GoesOn};
ghost use Rattle.zk_trace.specs.Words.{flag_letter, flag_letters, flags_word};

use zk_base::NoMemory;
use zk_paper::Paper;

/// A busy flag, and its letter.
type Flag = (u8, &'static [u8]);

/// An admission of the item runs.
const RUNNING: Flag = (1, b"r");

/// That run is being cancelled.
const CANCELLING: Flag = (2, b"c");

/// An admission of the item waits.
const QUEUED: Flag = (4, b"q");

/// The item is delayed.
const DELAYED: Flag = (8, b"d");

/// It is being flushed.
const FLUSHING: Flag = (16, b"f");

/// What stands for no flag.
const NO_FLAG: &[u8] = b"-";

/// Appends the letters of the busy flags, or a dash.
pub fn put_flags(out: &mut Paper, flags: u8) -> Result<(), NoMemory>
    ensures text { OnOk result (out.new.put ≡ out.old.put ++ flags_word flags) }
    ensures front { out.new.front ≡ out.old.front }
{
    if flags == 0 {
        return out.put(NO_FLAG);
    }
    put_letters(out, flags)
}

fn put_letters(out: &mut Paper, flags: u8) -> Result<(), NoMemory>
    ensures text { OnOk result (out.new.put ≡ out.old.put ++ flag_letters flags) }
    ensures front { out.new.front ≡ out.old.front }
{
    put_letter(out, flags, RUNNING)?;
    put_letter(out, flags, CANCELLING)?;
    put_letter(out, flags, QUEUED)?;
    put_letter(out, flags, DELAYED)?;
    put_letter(out, flags, FLUSHING)
}

fn put_letter(out: &mut Paper, flags: u8, flag: Flag) -> Result<(), NoMemory>
    ensures text { OnOk result (out.new.put ≡ out.old.put ++ flag_letter flags flag.entry.0 flag.entry.1.now) }
    ensures front { out.new.front ≡ out.old.front }
{
    if flags & flag.0 == 0 {
        return Ok(());
    }
    out.put(flag.1)
}

/// The busy flags that a word says.
pub fn flags_of(word: &[u8]) -> Option<u8>
    ensures { result ≡ flags_of word.now }
{
    (0..32).find(|flags| are_flags(word, *flags))
}

/// Whether a word is that of these busy flags.
fn are_flags(word: &[u8], flags: u8) -> bool
    ensures { result ≡ bytes_eq word.now (flags_word flags) }
{
    if flags == 0 {
        return word == NO_FLAG;
    }
    are_letters(word, flags)
}

fn are_letters(word: &[u8], flags: u8) -> bool
    ensures { result ≡ bytes_eq word.now (flag_letters flags) }
{
    match behind_letters(word, flags) {
        Some(rest) => rest.is_empty(),
        None => false,
    }
}

// What stands behind the letters of the flags.
fn behind_letters(word: &[u8], flags: u8) -> Option<&[u8]>
    ensures { MatchOption result (BeginsOtherwise (flag_letters flags) word.now)
        (λ rest. GoesOn (flag_letters flags) word.now rest.now) }
{
    let rest = behind_letter(word, flags, RUNNING)?;
    let rest = behind_letter(rest, flags, CANCELLING)?;
    let rest = behind_letter(rest, flags, QUEUED)?;
    let rest = behind_letter(rest, flags, DELAYED)?;
    behind_letter(rest, flags, FLUSHING)
}

fn behind_letter(word: &[u8], flags: u8, flag: Flag) -> Option<&[u8]>
    ensures { MatchOption result (BeginsOtherwise (flag_letter flags flag.entry.0 flag.entry.1.now) word.now)
        (λ rest. GoesOn (flag_letter flags flag.entry.0 flag.entry.1.now) word.now rest.now) }
{
    if flags & flag.0 == 0 {
        return Some(word);
    }
    word.strip_prefix(flag.1)
}
