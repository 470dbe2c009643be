ghost use Rattle.std.specs.Prelude.{◌≡◌, [], ◌∷◌, IfOk};
ghost use Rattle.zk_trace.specs.Fields.{each_of};
ghost use Rattle.zk_trace.specs.Static.{static_row};
ghost use Rattle.zk_trace.specs.Work.{submitted_parts};
ghost use Rattle.zk_trace.specs.WorkRead.{admitted_of, words_eq, submission_of, expiry_of};

use crate::choosing::first_of;
use crate::look_ups::{item_of, queue_of};
use crate::numerals::admission_of;
use crate::parts::{FixedWord, fixed_word, static_row};
use crate::row_words::{one_word, two_words};
use crate::work::{COLON, submitted_parts};
use std::alloc::Global;
use zk_base::{Errno, Listed, NoMemory};
use zk_model_work::{Expiries, Expiry, Submitted};
use zk_scenario::Scenario;
use zk_words::{Pieces, Words, is_same};

/// What was admitted: behind the answer the number of the admission and the queue.
pub fn admitted_of<const SEPARATOR: u8>(
    scenario: &Scenario,
    words: Pieces<'_, SEPARATOR>,
) -> Option<Submitted>
    ensures { result ≡ admitted_of scenario.now.decls words.entry }
{
    let mut words = words;
    let answer = words.next()?;
    if is_same(answer, fixed_word(FixedWord::One)) {
        let (admission, queue) = two_words(words)?;
        return Some(Submitted::Fresh(admission_of(admission)?, queue_of(scenario, queue)?));
    }
    if is_same(answer, fixed_word(FixedWord::Two)) {
        let (admission, queue) = two_words(words)?;
        return Some(Submitted::Rerun(admission_of(admission)?, queue_of(scenario, queue)?));
    }
    None
}

/// The delays that ended, all of these words.
pub fn expiries_of(
    alloc: Global,
    scenario: &Scenario,
    words: Words<'_>,
) -> Result<Option<Expiries>, NoMemory>
    ensures { IfOk result (λ ended. ended ≡ each_of (expiry_of scenario.now.decls) words.entry) }
{
    let mut words = words;
    let mut ended = Listed::new(alloc);
    while let Some(word) = words.next() {
        let Some(expiry) = expiry_of(scenario, word) else {
            return Ok(None);
        };
        ended.push(expiry)?;
    }
    Ok(Some(ended))
}

/// An item whose delay ended, and what became of its submission.
fn expiry_of(scenario: &Scenario, word: &[u8]) -> Option<Expiry>
    ensures { result ≡ expiry_of scenario.now.decls word.now }
{
    let mut pieces: Pieces<'_, COLON> = Pieces::of(word);
    let item = item_of(scenario, pieces.next()?)?;
    let submitted = submission_of(scenario, pieces)?;
    Some(Expiry { item, submitted })
}

fn submission_of(scenario: &Scenario, pieces: Pieces<'_, COLON>) -> Option<Submitted>
    ensures { result ≡ submission_of scenario.now.decls pieces.entry }
{
    first_of!(
        is_written, pieces.again();
        Submitted::Already,
        Submitted::Refused(Errno::Busy),
        Submitted::Refused(Errno::NoDev);
        admitted_of(scenario, pieces)
    )
}

fn is_written(submitted: Submitted, pieces: Pieces<'_, COLON>) -> bool
    ensures { result ≡ words_eq pieces.entry (static_row (submitted_parts submitted) ∷ []) }
{
    match one_word(pieces) {
        Some(word) => is_same(word, static_row(&submitted_parts(submitted))),
        None => false,
    }
}
