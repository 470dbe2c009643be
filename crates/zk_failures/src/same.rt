ghost use Rattle.std.specs.Prelude.{◌≡◌, ◌↔◌, IsTrue};

use zk_worker::{Answer, Answered, Step, Word};

/// Whether two steps are one.
pub fn is_same_step(step: &Step, other: &Step) -> bool
    ensures { IsTrue result ↔ (step.now ≡ other.now) }
{
    match (step, other) {
        (Step::Work(op), Step::Work(found)) => op == found,
        (Step::Clock(op), Step::Clock(found)) => op == found,
        (Step::Table(op), Step::Table(found)) => op == found,
        (Step::Sem(object, op), Step::Sem(at, found)) => object == at && op == found,
        (Step::Msgq(object, op), Step::Msgq(at, found)) => object == at && op == found,
        (Step::Signal(object, op), Step::Signal(at, found)) => object == at && op == found,
        (Step::Chan(object, op), Step::Chan(at, found)) => object == at && op == found,
        (Step::Obs(object, op), Step::Obs(at, found)) => object == at && op == found,
        (Step::LookItem(object), Step::LookItem(at)) => object == at,
        (Step::LookSignal(object, must), Step::LookSignal(at, found)) => {
            object == at && must == found
        }
        _ => false,
    }
}

/// Whether two calls are one.
fn is_same_word(word: Word, other: Word) -> bool
    ensures { IsTrue result ↔ (word ≡ other) }
{
    word == other
}

/// Whether two calls are answered alike.
fn is_same_said(said: Answer, other: Answer) -> bool
    ensures { IsTrue result ↔ (said ≡ other) }
{
    said == other
}

/// Whether two answers are one.
pub fn is_same_answer(answer: &Answered, other: &Answered) -> bool
    ensures { IsTrue result ↔ (answer.now ≡ other.now) }
{
    answer.step == other.step
        && is_same_word(answer.word, other.word)
        && is_same_said(answer.answer, other.answer)
}
