ghost use Rattle.std.specs.Prelude.{◌<◌, ◌≤◌, length};
ghost use Rattle.zk_worker.specs.declared.frames.Progress.{Progress};
ghost use Rattle.zk_worker.specs.Moves.{IsDone};
ghost use Rattle.zk_worker.specs.Replies.{answer_of};

use crate::replies::answer_of;
use crate::{Answer, AnswerRows, Moved, Stage, StepReply, Word};

/// The next call of a script has its answer, by the step of this number.
// It is put where it is kept, and so is the stage, here and in all that a reply does: both are large.
pub fn answer_call(
    word: Word,
    answer: Answer,
    step: u32,
    stage: &mut Stage,
    answers: &mut AnswerRows,
) -> Moved
    requires { length answers.old.items < answers.old.room }
    ensures done { IsDone step (Progress.Answers word answer)
        result stage.new answers.old.items answers.new.items }
    ensures capacity { answers.old.room ≤ answers.new.room }
{
    answers.push(step, word, &answer);
    *stage = Stage::Start;
    Moved::Answers
}

/// The next call of a script is answered by this reply.
pub fn answer_by(
    word: Word,
    reply: &StepReply,
    step: u32,
    stage: &mut Stage,
    answers: &mut AnswerRows,
) -> Moved
    requires { length answers.old.items < answers.old.room }
    ensures done { IsDone step (Progress.Answers word (answer_of reply.now))
        result stage.new answers.old.items answers.new.items }
    ensures capacity { answers.old.room ≤ answers.new.room }
{
    answer_call(word, answer_of(reply), step, stage, answers)
}
