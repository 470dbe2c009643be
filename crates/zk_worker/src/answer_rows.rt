//! Answers of at most 32 bytes: a message that was answered stands apart, and so do positions.
ghost use Rattle.std.specs.Prelude.{◌≡◌, ◌≤◌, ◌<◌, ◌++◌, [], ◌∷◌, length, IfOk, OnOk, OnErr, slice_get, vec_len, vec_capacity};
ghost use Rattle.zk_worker.specs.KeptAnswers.{whole, brief_by, messages_in, ready_in};

use crate::{Answer, Answered, Positions};
use std::alloc::Global;
use std::marker::Model;
use zk_base::{Errno, Msg, NoMemory, push_within};
use zk_model_bus::OopsWhy;
use zk_words::Word;

/// What a call was answered. Of a message, and of the positions of a poll, it has the place among those that stand apart.
#[derive(Clone, Copy)]
pub enum Brief {
    Number(u64),
    Flags(u8),
    Truth(bool),
    Refused(Errno),
    Bytes(usize),
    Signal(bool, u16),
    Ready(usize),
    Channel(u32),
    Oops(OopsWhy),
}

/// An answered call, as it is kept.
#[derive(Clone, Copy)]
pub struct AnswerRow {
    pub step: u32,
    pub word: Word,
    pub brief: Brief,
}

/// The answered calls of a player while it plays: contracts see them with the room that there is for more.
#[derive(Drop)]
pub struct AnswerRows {
    rows: Vec<AnswerRow>,
    messages: Vec<Msg>,
    ready: Vec<Positions>,
}

impl Model for AnswerRows {
    ghost use Rattle.std.specs.Prelude.{map, min, vec_capacity};
    ghost use Rattle.zk_worker.specs.KeptAnswers.{AnswersKept, AreKept, told};

    ghost Value = { AnswersKept };

    ghost view = { λ a. record {
      items = map (told a.messages.items a.ready.items) a.rows.items;
      room = min (vec_capacity a.rows) (min (vec_capacity a.messages) (vec_capacity a.ready));
    } };

    ghost invariant = { λ a. AreKept a.messages.items a.ready.items a.rows.items };
}

/// The answer of a row.
fn whole(messages: &[Msg], ready: &[Positions], brief: &Brief) -> Answer
    ensures { result ≡ whole messages.now ready.now brief.now }
{
    match *brief {
        Brief::Number(number) => Answer::Number(number),
        Brief::Flags(flags) => Answer::Flags(flags),
        Brief::Truth(truth) => Answer::Truth(truth),
        Brief::Refused(errno) => Answer::Refused(errno),
        Brief::Bytes(place) => match messages.get(place) {
            Some(message) => Answer::Bytes(*message),
            None => Answer::Number(0),
        },
        Brief::Signal(raised, result) => Answer::Signal(raised, result),
        Brief::Ready(place) => match ready.get(place) {
            Some(positions) => Answer::Ready(*positions),
            None => Answer::Number(0),
        },
        Brief::Channel(object) => Answer::Channel(object),
        Brief::Oops(why) => Answer::Oops(why),
    }
}

/// The row of an answer, whose message or positions, if it has some, stand at this place among the others.
fn brief_by(answer: &Answer, message: usize, ready: usize) -> Brief
    ensures { result ≡ brief_by message ready answer.now }
{
    match answer {
        Answer::Number(number) => Brief::Number(*number),
        Answer::Flags(flags) => Brief::Flags(*flags),
        Answer::Truth(truth) => Brief::Truth(*truth),
        Answer::Refused(errno) => Brief::Refused(*errno),
        Answer::Bytes(_) => Brief::Bytes(message),
        Answer::Signal(raised, result) => Brief::Signal(*raised, *result),
        Answer::Ready(_) => Brief::Ready(ready),
        Answer::Channel(object) => Brief::Channel(*object),
        Answer::Oops(why) => Brief::Oops(*why),
    }
}

/// Puts the message or the positions of an answer to the others, for which there is room.
fn put_apart(messages: &mut Vec<Msg>, ready: &mut Vec<Positions>, answer: &Answer)
    requires message { vec_len messages.old < vec_capacity messages.old }
    requires positions { vec_len ready.old < vec_capacity ready.old }
    ensures with_message { messages.new.items ≡ messages.old.items ++ messages_in answer.now }
    ensures with_positions { ready.new.items ≡ ready.old.items ++ ready_in answer.now }
    ensures room { vec_capacity messages.old ≤ vec_capacity messages.new }
    ensures ready_room { vec_capacity ready.old ≤ vec_capacity ready.new }
{
    match answer {
        Answer::Bytes(message) => push_within(messages, *message),
        Answer::Ready(positions) => push_within(ready, *positions),
        _ => {}
    }
}

/// The same, with or without room.
fn grow_apart(
    messages: &mut Vec<Msg>,
    ready: &mut Vec<Positions>,
    answer: &Answer,
) -> Result<(), NoMemory>
    ensures with_message { OnOk result (messages.new.items ≡ messages.old.items ++ messages_in answer.now) }
    ensures with_positions { OnOk result (ready.new.items ≡ ready.old.items ++ ready_in answer.now) }
    ensures err { OnErr result (messages.new.items ≡ messages.old.items) }
    ensures ready_err { OnErr result (ready.new.items ≡ ready.old.items) }
{
    match answer {
        Answer::Bytes(message) => messages.push(*message)?,
        Answer::Ready(positions) => ready.push(*positions)?,
        _ => {}
    }
    Ok(())
}

impl AnswerRows {
    /// No answer. It takes no memory.
    pub fn new(alloc: Global) -> AnswerRows
        ensures { result.items ≡ [] }
    {
        AnswerRows {
            rows: Vec::new(alloc),
            messages: Vec::new(alloc),
            ready: Vec::new(alloc),
        }
    }

    /// No answer, with room for so many.
    pub fn with_capacity(alloc: Global, room: usize) -> Result<AnswerRows, NoMemory>
        ensures items { IfOk result (λ made. made.items ≡ []) }
        ensures room { IfOk result (λ made. room ≤ made.room) }
    {
        Ok(AnswerRows {
            rows: Vec::with_capacity(alloc, room)?,
            messages: Vec::with_capacity(alloc, room)?,
            ready: Vec::with_capacity(alloc, room)?,
        })
    }

    /// How many they are.
    pub fn len(&self) -> usize
        ensures { result ≡ length self.now.items }
    {
        self.rows.len()
    }

    /// The answered call at this place.
    pub fn get(&self, place: usize) -> Option<Answered>
        ensures { result ≡ slice_get self.now.items place }
    {
        let row = self.rows.get(place)?;
        let answer = whole(&self.messages, &self.ready, &row.brief);
        Some(Answered {
            step: row.step,
            word: row.word,
            answer,
        })
    }

    /// One answered call more, for which there is room: it takes no memory.
    pub fn push(&mut self, step: u32, word: Word, answer: &Answer)
        requires { length self.old.items < self.old.room }
        ensures items { self.new.items ≡ self.old.items ++ record { step = step; word = word; answer = answer.now } ∷ [] }
        ensures room { self.old.room ≤ self.new.room }
    {
        let brief = brief_by(answer, self.messages.len(), self.ready.len());
        put_apart(&mut self.messages, &mut self.ready, answer);
        push_within(&mut self.rows, AnswerRow { step, word, brief });
    }

    /// One answered call more; it may take memory.
    pub fn grow(&mut self, answered: Answered) -> Result<(), NoMemory>
        ensures ok { OnOk result (self.new.items ≡ self.old.items ++ answered ∷ []) }
        ensures err { OnErr result (self.new.items ≡ self.old.items) }
    {
        let Answered { step, word, answer } = answered;
        let brief = brief_by(&answer, self.messages.len(), self.ready.len());
        self.rows.reserve(1)?;
        grow_apart(&mut self.messages, &mut self.ready, &answer)?;
        push_within(&mut self.rows, AnswerRow { step, word, brief });
        Ok(())
    }
}
