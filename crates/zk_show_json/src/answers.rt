ghost use Rattle.std.specs.Prelude.{◌≡◌, ◌++◌, ◌||◌, nat_lt, length, map, false, OnOk, IfOk};
ghost use Rattle.zk_trace.specs.Parts.{part_word, answer_part};
ghost use Rattle.zk_show_json.specs.Arrays.{array, parts};
ghost use Rattle.zk_show_json.specs.Values.{answered, by_player, answer_value};

use crate::array::put_comma;
use crate::escape::put_quoted;
use std::alloc::Global;
use zk_base::NoMemory;
use zk_paper::Paper;
use zk_scenario::Scenario;
use zk_trace::put_answer;
use zk_words::call_row;
use zk_worker::{Answer, Answered, Answers, Log};

/// Appends the answered calls of all players, in player order.
pub fn put_answers(
    out: &mut Paper,
    alloc: Global,
    scenario: &Scenario,
    logs: &[Log],
) -> Result<(), NoMemory>
    ensures text { OnOk result (out.new.put ≡ out.old.put ++ array (answer_value scenario.now.decls) (answered 0 logs.now)) }
    ensures front { out.new.front ≡ out.old.front }
{
    out.push(b'[')?;
    put_logs(out, alloc, scenario, logs)?;
    out.push(b']')
}

fn put_logs(
    out: &mut Paper,
    alloc: Global,
    scenario: &Scenario,
    logs: &[Log],
) -> Result<(), NoMemory>
    ensures text { OnOk result (out.new.put ≡ out.old.put ++ parts (answer_value scenario.now.decls) false (answered 0 logs.now)) }
    ensures front { out.new.front ≡ out.old.front }
{
    let mut begun = false;
    for (player, log) in logs.iter().enumerate() {
        put_log(out, alloc, scenario, begun, player, &log.answers)?;
        begun = is_begun(begun, &log.answers);
    }
    Ok(())
}

/// Whether an answer stands before what comes behind these.
fn is_begun(begun: bool, answers: &Answers) -> bool
    ensures { result ≡ (begun || nat_lt 0 (length answers.now)) }
{
    begun || 0 < answers.len()
}

/// Appends the answered calls of a player.
fn put_log(
    out: &mut Paper,
    alloc: Global,
    scenario: &Scenario,
    begun: bool,
    player: usize,
    answers: &Answers,
) -> Result<(), NoMemory>
    ensures text { OnOk result (out.new.put ≡
        out.old.put ++ parts (answer_value scenario.now.decls) begun (map (by_player player) answers.now)) }
    ensures front { out.new.front ≡ out.old.front }
{
    let mut begun = begun;
    for place in 0..answers.len() {
        let Some(answered) = answers.get(place) else {
            unreachable!()
        };
        put_comma(out, begun)?;
        put_answered(out, alloc, scenario, player, &answered)?;
        begun = true;
    }
    Ok(())
}

#[tactic(auto, unfolding(crate::specs::Values::answer_value))]
fn put_answered(
    out: &mut Paper,
    alloc: Global,
    scenario: &Scenario,
    player: usize,
    answered: &Answered,
) -> Result<(), NoMemory>
    ensures text { OnOk result (out.new.put ≡ out.old.put ++ answer_value scenario.now.decls (by_player player answered.now)) }
    ensures front { out.new.front ≡ out.old.front }
{
    let words = answer_words(alloc, scenario, &answered.answer)?;
    out.put(b"{\"player\":")?;
    out.put_number(player as u64)?;
    out.put(b",\"step\":")?;
    out.put_number(u64::from(answered.step))?;
    out.put(b",\"word\":")?;
    put_quoted(out, call_row(answered.word).first)?;
    out.put(b",\"answer\":")?;
    put_quoted(out, &words)?;
    out.push(b'}')
}

/// An answer in the words of the trace.
fn answer_words(alloc: Global, scenario: &Scenario, answer: &Answer) -> Result<Vec<u8>, NoMemory>
    ensures { IfOk result (λ words. words.items ≡ part_word scenario.now.decls (answer_part answer.now)) }
{
    let mut paper = Paper::behind(Vec::new(alloc));
    put_answer(&mut paper, scenario, answer)?;
    let (words, put) = paper.whole();
    put?;
    Ok(words)
}
