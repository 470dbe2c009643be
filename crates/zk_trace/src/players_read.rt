ghost use Rattle.std.specs.Prelude.{◌≡◌, None, IfOk};
ghost use Rattle.zk_blocks.specs.Blocks.{Gives};
ghost use Rattle.zk_blocks.specs.Rows.{counted_rows};
ghost use Rattle.zk_trace.specs.AnswerRead.{answered_of};
ghost use Rattle.zk_trace.specs.WholeRead.{state_of, player_words_of, player_head_of, read_player, read_players};

use crate::feed::Feed;
use crate::format::Format;
use crate::hints::Hints;
use crate::look_read::same_word;
use crate::names::player_name;
use crate::numerals::wide_of;
use crate::row_words::{behind, three_words, two_words};
use crate::rows_read::{are_all, read_row, where_untold};
use crate::sections::PLAYER;
use crate::words::state_word;
use std::alloc::Global;
use zk_base::{Listed, NoMemory};
use zk_scenario::Scenario;
use zk_words::Words;
use zk_worker::{Answer, Answered, Answers, PlayerState};

/// How players can stand.
const STATES: [PlayerState; 4] = [
    PlayerState::Spent,
    PlayerState::Oops,
    PlayerState::Done,
    PlayerState::Standing,
];

/// How a player stands, by its word.
fn state_of(word: &[u8]) -> Option<PlayerState>
    ensures { result ≡ state_of word.now }
{
    STATES
        .iter()
        .copied()
        .find(|state| word == state_word(*state))
}

/// What the words behind the first one in the head of this player tell: how it stands, and how many answers it has where
/// that is told.
fn player_words_of(
    format: Format,
    name: &[u8],
    words: Words<'_>,
) -> Option<(PlayerState, Option<u64>)>
    ensures { result ≡ player_words_of format name.now words.entry }
{
    match format {
        Format::One => {
            let (word, state) = two_words(words)?;
            same_word(name, word)?;
            Some((state_of(state)?, None))
        }
        Format::Two => {
            let (word, state, answers) = three_words(words)?;
            same_word(name, word)?;
            let state = state_of(state)?;
            Some((state, Some(wide_of(answers)?)))
        }
    }
}

/// What a line tells of a player of this name, where it is its head.
fn player_head_of(format: Format, name: &[u8], row: &[u8]) -> Option<(PlayerState, Option<u64>)>
    ensures { result ≡ player_head_of format name.now row.now }
{
    player_words_of(format, name, behind(PLAYER, Words::of(row))?)
}

/// The answers at the front of some lines: just so many where the head of the player tells it, and else as many as there are.
fn read_answers(
    alloc: Global,
    scenario: &Scenario,
    hints: &Hints,
    count: Option<u64>,
    feed: &mut Feed<'_>,
) -> Result<Option<Answers>, NoMemory>
    ensures { IfOk result (λ read.
        Gives (λ x. x) read feed.new (counted_rows (λ last. answered_of scenario.now.decls) count None feed.old)) }
{
    // A type inside that the prover has to be told of.
    let _known: Option<Answer> = None;
    let mut answers = Answers::new(alloc);
    while !are_all(count, answers.len()) {
        let Some(answered) = read_row::<Answered>(alloc, scenario, hints, None, feed)? else {
            return Ok(where_untold(count, answers));
        };
        answers.push(answered)?;
    }
    Ok(Some(answers))
}

/// The section of a player; nothing where the lines don't go on so.
fn read_player(
    alloc: Global,
    scenario: &Scenario,
    hints: &Hints,
    format: Format,
    player: u32,
    feed: &mut Feed<'_>,
) -> Result<Option<(PlayerState, Answers)>, NoMemory>
    ensures { IfOk result (λ read. Gives (λ x. x) read feed.new (read_player format scenario.now.decls player feed.old)) }
{
    let Some((line, rest)) = feed.next() else {
        return Ok(None);
    };
    let name = player_name(scenario, player as usize);
    let Some((state, count)) = player_head_of(format, name, line) else {
        return Ok(None);
    };
    feed.go_on(rest);
    let Some(answers) = read_answers(alloc, scenario, hints, count, feed)? else {
        return Ok(None);
    };
    Ok(Some((state, answers)))
}

/// The sections of all players.
pub fn read_players(
    alloc: Global,
    scenario: &Scenario,
    hints: &Hints,
    format: Format,
    feed: &mut Feed<'_>,
) -> Result<Option<Listed<(PlayerState, Answers)>>, NoMemory>
    ensures { IfOk result (λ read. Gives (λ x. x) read feed.new (read_players format scenario.now.decls feed.old)) }
{
    let mut all = Vec::new(alloc);
    for player in 0..scenario.players() {
        match read_player(alloc, scenario, hints, format, player, feed)? {
            Some(one) => all.push(one)?,
            None => return Ok(None),
        }
    }
    Ok(Some(Listed::from_vec(all)))
}
