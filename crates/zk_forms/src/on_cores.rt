ghost use Rattle.std.specs.Prelude.{◌≡◌, ◌≤◌, map, option_map, IfSome, string_bytes};
ghost use Rattle.zk_words.specs.Numbers.{number_in};
ghost use Rattle.zk_feed.specs.Feeding.{IsInRange};
ghost use Rattle.zk_forms.specs.declared.form.Form.TheVariants.{Feed, Run};
ghost use Rattle.zk_forms.specs.Top.{cores_form_of, feed_size, needs_cores};

use crate::form::Form;
use zk_cores::MOST_CORES;
use zk_feed::{FeedSize, MOST_MESSAGES, MOST_PUBLISHERS, MOST_SUBSCRIBERS};
use zk_words::number_in;

/// The form on cores that these words ask for, if they are those of one.
pub fn cores_form_of(words: &[String]) -> Option<Form>
    ensures { result ≡ cores_form_of (map string_bytes words.now) }
{
    match words {
        [word, number] if word.as_bytes() == b"run".as_slice() => run_of(number.as_bytes()),
        [word, publishers, subscribers, messages] if word.as_bytes() == b"feed".as_slice() => {
            let size = feed_size(
                publishers.as_bytes(),
                subscribers.as_bytes(),
                messages.as_bytes(),
            )?;
            Some(Form::Feed(size))
        }
        _ => None,
    }
}

fn run_of(number: &[u8]) -> Option<Form>
    ensures { result ≡ option_map Run (number_in 1 MOST_CORES number.now) }
{
    Some(Form::Run(number_in(1, MOST_CORES, number)?))
}

/// How large a feed these three words ask for.
fn feed_size(publishers: &[u8], subscribers: &[u8], messages: &[u8]) -> Option<FeedSize>
    ensures { result ≡ feed_size publishers.now subscribers.now messages.now }
{
    Some(FeedSize {
        publishers: number_in(1, MOST_PUBLISHERS, publishers)?,
        subscribers: number_in(1, MOST_SUBSCRIBERS, subscribers)?,
        messages: number_in(1, MOST_MESSAGES, messages)?,
    })
}

/// Whether these words are for `zk_run`, which needs cores: where the first is `run` or `feed`. All others are for `zk_plain`.
pub fn needs_cores(words: &[String]) -> bool
    ensures { result ≡ needs_cores (map string_bytes words.now) }
{
    match words {
        [word, ..] => {
            word.as_bytes() == b"run".as_slice() || word.as_bytes() == b"feed".as_slice()
        }
        _ => false,
    }
}
