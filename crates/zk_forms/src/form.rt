ghost use Rattle.std.specs.Prelude.{◌≡◌, map, option_map, string_bytes};
ghost use Rattle.zk_words.specs.Numbers.{number_in};
ghost use Rattle.zk_forms.specs.declared.form.Form.TheVariants.{Soak};
ghost use Rattle.zk_forms.specs.Top.{form_of, limit_of};

use zk_feed::FeedSize;
use zk_scenario::LONGEST_SCENARIO;
use zk_side::LONGEST_SIDE_SCRIPT;
use zk_words::number_in;

/// What the program is asked to do.
#[derive(Clone, Copy, PartialEq, Eq)]
pub enum Form {
    /// `replay`: reads a scenario, plays it on one thread by round robin, and prints its text and the trace.
    Replay,
    /// `check`: reads what `replay` prints, and says whether the trace is lawful for its scenario.
    Check,
    /// `migrate`: reads what `replay` printed in format 1, and prints it in format 2.
    Migrate,
    /// `trigger`: plays a side script of triggered work, and prints each line with its reply.
    Trigger,
    /// `event`: plays a side script of an event object, and prints each line with its reply.
    Event,
    /// `soak N`: plays the generated scenario of this number, checks the trace, and prints one line. It reads nothing.
    Soak(u32),
    /// `run N`: reads a scenario, plays it on that many cores, from 1 to 16, and prints its text and the trace.
    Run(u32),
    /// `feed P S N`: P publishers beside each other send N messages each to S subscribers, and what each of these took is
    /// printed. It reads nothing.
    Feed(FeedSize),
}

/// The greatest number of a generated scenario.
pub const MOST_SOAK: u32 = 999_999;

/// The form on one thread that these words ask for, if they are those of one.
pub fn form_of(words: &[String]) -> Option<Form>
    ensures { result ≡ form_of (map string_bytes words.now) }
{
    match words {
        [word] if word.as_bytes() == b"replay".as_slice() => Some(Form::Replay),
        [word] if word.as_bytes() == b"check".as_slice() => Some(Form::Check),
        [word] if word.as_bytes() == b"migrate".as_slice() => Some(Form::Migrate),
        [word] if word.as_bytes() == b"trigger".as_slice() => Some(Form::Trigger),
        [word] if word.as_bytes() == b"event".as_slice() => Some(Form::Event),
        [word, number] if word.as_bytes() == b"soak".as_slice() => soak_of(number.as_bytes()),
        _ => None,
    }
}

fn soak_of(number: &[u8]) -> Option<Form>
    ensures { result ≡ option_map Soak (number_in 0 MOST_SOAK number.now) }
{
    Some(Form::Soak(number_in(0, MOST_SOAK, number)?))
}

/// The longest input of `check` and of `migrate`, in bytes.
pub const LONGEST_TRACE: usize = 536_870_912;

/// The longest input of a form, in bytes. `soak` and `feed` read none.
pub fn limit_of(form: Form) -> usize
    ensures { result ≡ limit_of form }
{
    match form {
        Form::Replay => LONGEST_SCENARIO,
        Form::Check => LONGEST_TRACE,
        Form::Migrate => LONGEST_TRACE,
        Form::Trigger => LONGEST_SIDE_SCRIPT,
        Form::Event => LONGEST_SIDE_SCRIPT,
        Form::Soak(_) => 0,
        Form::Run(_) => LONGEST_SCENARIO,
        Form::Feed(_) => 0,
    }
}
