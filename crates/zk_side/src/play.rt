ghost use Rattle.std.specs.Prelude.{◌≡◌, ◌+◌, ◌≤◌, [], ◌++◌, true, length, drop, is_some, IfOk, OnOk};
ghost use Rattle.zk_side.specs.Kept.{answered, printed, printed_pieces, printed_script, text_at, history_at};
ghost use Rattle.zk_side.specs.Played.{stage_of, entry_line, none_line};
ghost use Rattle.zk_side.specs.Script.{asked_at};

use crate::limits::{GREATEST_PLAYER, LONGEST_SIDE_SCRIPT, MOST_LINES};
use crate::players::Players;
use crate::refusal::Refusal;
use crate::side::Side;
use zk_base::{NoMemory, Service};
use zk_paper::Paper;
use zk_words::{Lines, Words, number_in};

/// Plays a side script on a service at which nothing was done, and puts its output. The answer is why it is refused, if it
/// is: then what was put is part of no output.
pub fn play<S: Side>(
    out: &mut Paper,
    service: S::Target,
    script: &[u8],
) -> Result<Option<Refusal>, NoMemory>
where
    <S::Target as Service>::Reply: Drop,
    requires { S.Target.history service ≡ [] }
    ensures played { IfOk result (λ refusal. answered refusal out.new.put
        ≡ printed_script (stage_of S.Target.machine (S.Target.start service) S.op_of S.reply_text) out.old.put script.now) }
    ensures front { out.new.front ≡ out.old.front }
{
    if LONGEST_SIDE_SCRIPT < script.len() {
        return Ok(Some(Refusal::Length));
    }
    play_pieces::<S>(out, service, Lines::of(script))
}

fn play_pieces<S: Side>(
    out: &mut Paper,
    service: S::Target,
    lines: Lines<'_>,
) -> Result<Option<Refusal>, NoMemory>
where
    <S::Target as Service>::Reply: Drop,
    requires { S.Target.history service ≡ [] }
    ensures played { IfOk result (λ refusal. answered refusal out.new.put
        ≡ printed_pieces (stage_of S.Target.machine (S.Target.start service) S.op_of S.reply_text) out.old.put lines.entry) }
    ensures front { out.new.front ≡ out.old.front }
{
    let mut lines = lines;
    let Some(header) = lines.next() else {
        return Ok(Some(Refusal::Header));
    };
    if header != b"zx 1".as_slice() {
        return Ok(Some(Refusal::Header));
    }
    let Some(first) = lines.next() else {
        return Ok(Some(Refusal::Header));
    };
    out.put(b"zx 1\n")?;
    let mut players = Players::at(service);
    play_lines::<S>(out, &mut players, first, lines)
}

/// Plays the lines behind the header, and looks whether a line feed is the last byte.
fn play_lines<'a, S: Side>(
    out: &mut Paper,
    players: &mut Players<S::Target>,
    first: &'a [u8],
    lines: Lines<'a>,
) -> Result<Option<Refusal>, NoMemory>
where
    <S::Target as Service>::Reply: Drop,
    requires { players.old.history ≡ [] }
    ensures played { IfOk result (λ refusal. answered refusal out.new.put
        ≡ printed (stage_of S.Target.machine players.old.start S.op_of S.reply_text) 2 [] out.old.put first.now lines.entry) }
    ensures front { out.new.front ≡ out.old.front }
{
    let mut lines = lines;
    let mut line = first;
    let mut number = 2;
    while let Some(next) = lines.next() {
        if !play_line::<S>(out, players, number, line)? {
            return Ok(Some(Refusal::Line(number)));
        }
        line = next;
        number += 1;
    }
    if !line.is_empty() {
        return Ok(Some(Refusal::Line(number)));
    }
    Ok(None)
}

/// Plays the line of a number, without its line feed. The answer is whether it has a form and stands where there may be lines.
fn play_line<S: Side>(
    out: &mut Paper,
    players: &mut Players<S::Target>,
    number: u32,
    line: &[u8],
) -> Result<bool, NoMemory>
where
    <S::Target as Service>::Reply: Drop,
    requires { length players.old.history ≤ number }
    ensures formed { IfOk result (λ formed. formed ≡ is_some (asked_at S.op_of number line.now)) }
    ensures within { IfOk result (λ formed. formed ≡ true → number ≤ MOST_LINES) }
    ensures text { IfOk result (λ _. out.new.put ≡ out.old.put
        ++ text_at (stage_of S.Target.machine players.old.start S.op_of S.reply_text) players.old.history
        (asked_at S.op_of number line.now)) }
    ensures history { IfOk result (λ _. players.new.history
        ≡ history_at (stage_of S.Target.machine players.old.start S.op_of S.reply_text) players.old.history
        (asked_at S.op_of number line.now)) }
    ensures short { IfOk result (λ _. length players.new.history ≤ number + 1) }
    ensures start { players.new.start ≡ players.old.start }
    ensures front { out.new.front ≡ out.old.front }
{
    if MOST_LINES < number {
        return Ok(false);
    }
    let mut words = Words::of(line);
    let Some(word) = words.next() else {
        return Ok(false);
    };
    let Some(player) = number_in(0, GREATEST_PLAYER, word) else {
        return Ok(false);
    };
    let Some(op) = S::read_op(words) else {
        return Ok(false);
    };
    match players.ask(player, op)? {
        Some((step, reply)) => put_entry::<S>(out, line, word, step, &reply)?,
        None => put_none(out, line)?,
    }
    Ok(true)
}

/// Appends the line of an entry: the player's word, the step, the rest of the line as it was read, and the reply.
fn put_entry<S: Side>(
    out: &mut Paper,
    line: &[u8],
    word: &[u8],
    step: u32,
    reply: &<S::Target as Service>::Reply,
) -> Result<(), NoMemory>
    requires { length word.now ≤ length line.now }
    ensures text { OnOk result (out.new.put ≡ out.old.put
        ++ entry_line word.now step (drop (length word.now) line.now) (S.reply_text reply.now)) }
    ensures front { out.new.front ≡ out.old.front }
{
    out.put_numbered(word, b'.', u64::from(step))?;
    out.put(&line[word.len()..])?;
    out.put(b" = ")?;
    S::put_reply(out, reply)?;
    out.push(b'\n')
}

/// Appends a line whose operation wasn't possible.
fn put_none(out: &mut Paper, line: &[u8]) -> Result<(), NoMemory>
    ensures text { OnOk result (out.new.put ≡ out.old.put ++ none_line line.now) }
    ensures front { out.new.front ≡ out.old.front }
{
    out.put(line)?;
    out.put(b" = none\n")
}
