ghost use Rattle.std.specs.Prelude.{◌≡◌, ◌==◌, position};
ghost use Rattle.zk_show_chart.specs.Answers.{answer_in, answer_word, first_word, has_died, has_failed, is_failure, names};

fn sign_in(text: &[u8]) -> Option<usize>
    ensures { result ≡ position (λ c. c == 61) text.now }
{
    text.iter().position(|byte| *byte == b'=')
}

/// The end of a step's words: a space, the sign `=`, and what was answered. Nothing where there is no sign.
pub fn answer_in(text: &[u8]) -> &[u8]
    ensures { result.now ≡ answer_in text.now }
{
    match sign_in(text) {
        Some(sign) => &text[sign.saturating_sub(1)..],
        None => &[],
    }
}

fn space_in(text: &[u8]) -> Option<usize>
    ensures { result ≡ position (λ c. c == 32) text.now }
{
    text.iter().position(|byte| *byte == b' ')
}

fn first_word(text: &[u8]) -> &[u8]
    ensures { result.now ≡ first_word text.now }
{
    match space_in(text) {
        Some(space) => &text[..space],
        None => text,
    }
}

/// The first word of what was answered.
fn answer_word(words: &[u8]) -> &[u8]
    ensures { result.now ≡ answer_word words.now }
{
    let answer = answer_in(words);
    first_word(&answer[answer.len().min(3)..])
}

/// Whether a call or a check tells by this word that it failed.
fn is_failure(word: &[u8]) -> bool
    ensures { result ≡ is_failure word.now }
{
    word == b"busy".as_slice()
        || word == b"nomsg".as_slice()
        || word == b"again".as_slice()
        || word == b"oops".as_slice()
        || word == b"nodev".as_slice()
        || word == b"inval".as_slice()
        || word == b"fault".as_slice()
}

/// Whether an operation is answered with a name.
fn names(word: &[u8]) -> bool
    ensures { result ≡ names word.now }
{
    word == b"begin".as_slice() || word == b"set".as_slice() || word == b"list".as_slice()
}

/// Whether a step failed. Its words are its line without whose step it is.
pub fn has_failed(words: &[u8]) -> bool
    ensures { result ≡ has_failed words.now }
{
    is_failure(answer_word(words)) && !names(first_word(words))
}

/// Whether a step ended its player, by an oops.
pub fn has_died(words: &[u8]) -> bool
    ensures { result ≡ has_died words.now }
{
    answer_word(words) == b"oops".as_slice() && !names(first_word(words))
}
