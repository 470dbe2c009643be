ghost use Rattle.std.specs.Prelude.{OnOk};
ghost use Rattle.zk_base.specs.Fronts.{StaysInFront};

use crate::plain::between;
use crate::refusal::put_mistake;
use std::alloc::Global;
use zk_base::{Name, NoMemory, put};
use zk_scenario::{ScenarioRefused, Why, read_scenario};
use zk_words::{Head, Lines, Words, head_of, is_same};

/// The most mistakes of a scenario that are told.
const MOST_TOLD: u32 = 20;

/// The most lines that are left out to find them.
const MOST_LEFT_OUT: u32 = 200;

/// Lines of a text that follow each other.
#[derive(Clone, Copy)]
struct Block {
    /// The place of the first byte.
    from: usize,
    /// The place behind the last line feed.
    to: usize,
    lines: u32,
}

/// The text of a scenario without the lines that were left out.
#[derive(Drop)]
struct Rest {
    text: Vec<u8>,
    /// How many lines were left out.
    left_out: u32,
    /// The names that they may have declared.
    names: Vec<Name>,
}

fn head_of_line(line: &[u8]) -> Option<Head> {
    head_of(Words::of(line).next()?)
}

/// The line of this number, from 1, and where it is the head of a script all up to the script's end.
fn block_at(text: &[u8], line: u32) -> Block {
    let mut lines = Lines::of(text);
    let mut block = Block {
        from: 0,
        to: 0,
        lines: 0,
    };
    let mut number: u32 = 1;
    while let Some(piece) = lines.next() {
        let behind = block.to.saturating_add(piece.len()).saturating_add(1);
        if number < line {
            block.from = behind;
        } else {
            block.lines = block.lines.saturating_add(1);
        }
        block.to = behind;
        if is_block(number, line, piece, block.lines) {
            return block;
        }
        number = number.saturating_add(1);
    }
    block
}

/// Whether a block from a line on ends with this piece of the text, its line of this number.
fn is_block(number: u32, line: u32, piece: &[u8], lines: u32) -> bool {
    if number < line {
        return false;
    }
    match head_of_line(piece) {
        Some(Head::Script) => 1 < lines,
        Some(Head::End) => true,
        _ => lines == 1,
    }
}

impl Rest {
    fn of(alloc: Global, text: &[u8]) -> Result<Rest, NoMemory> {
        Ok(Rest {
            text: Vec::from_slice(alloc, text)?,
            left_out: 0,
            names: Vec::new(alloc),
        })
    }

    /// Notes the name that a line may declare.
    fn note(&mut self, line: &[u8]) -> Result<(), NoMemory> {
        match head_of_line(line) {
            None | Some(Head::Declare(_)) => {}
            _ => return Ok(()),
        }
        let mut words = Words::of(line);
        words.next();
        let Some(word) = words.next() else {
            return Ok(());
        };
        if let Some(name) = Name::new(word) {
            self.names.push(name)?;
        }
        Ok(())
    }

    /// Leaves the line of this number out, and where it is the head of a script the whole script: whether there is such a line.
    fn leave_out(&mut self, alloc: Global, line: u32) -> Result<bool, NoMemory> {
        let block = block_at(&self.text, line);
        if self.text.len() <= block.from {
            return Ok(false);
        }
        let mut rest = Vec::new(alloc);
        rest.extend_from_slice(between(&self.text, 0, block.from))?;
        rest.extend_from_slice(between(&self.text, block.to, self.text.len()))?;
        let line = Vec::from_slice(
            alloc,
            between(&self.text, block.from, block.to.saturating_sub(1)),
        )?;
        self.note(&line)?;
        self.text = rest;
        self.left_out = self.left_out.saturating_add(block.lines);
        Ok(true)
    }

    /// Whether the line of this number has a word that a line which was left out may have declared.
    fn follows(&self, line: u32) -> bool {
        let block = block_at(&self.text, line);
        let text = between(&self.text, block.from, block.to.saturating_sub(1));
        let mut words = Words::of(text);
        while let Some(word) = words.next() {
            if self.is_named(word) {
                return true;
            }
        }
        false
    }

    fn is_named(&self, word: &[u8]) -> bool {
        for name in &self.names {
            if is_same(name.bytes(), word) {
                return true;
            }
        }
        false
    }
}

/// Whether lines behind such a mistake can't be judged.
fn is_last(why: Why) -> bool {
    match why {
        Why::Header | Why::Limit | Why::Length => true,
        _ => false,
    }
}

/// Appends that a line of what is left is refused, unless it follows from another mistake: whether it did.
fn tell(out: &mut Vec<u8>, rest: &Rest, line: u32, why: Why) -> Result<bool, NoMemory>
    ensures { StaysInFront out.old.items out.new.items }
{
    if why == Why::Name && rest.follows(line) {
        return Ok(false);
    }
    put(out, b"\n")?;
    let number = rest.left_out.saturating_add(line);
    put_mistake(out, number, &rest.text, line, why)?;
    Ok(true)
}

/// Appends the mistakes behind the first one, which is in this line for this reason: each as that one is told. What follows from
/// a mistake in a declaration, as that its name isn't declared, isn't told.
pub fn put_further(out: &mut Vec<u8>, text: &[u8], line: u32, why: Why) -> Result<(), NoMemory>
    ensures { StaysInFront out.old.items out.new.items }
{
    let alloc = *out.allocator();
    let mut rest = Rest::of(alloc, text)?;
    let mut line = line;
    let mut why = why;
    let mut told = 1;
    for _ in 0..MOST_LEFT_OUT {
        if is_last(why) || MOST_TOLD <= told || !rest.leave_out(alloc, line)? {
            break;
        }
        match read_scenario(alloc, &rest.text) {
            Err(ScenarioRefused::At(next, reason)) if line <= next => {
                line = next;
                why = reason;
            }
            Err(ScenarioRefused::NoMemory) => return Err(NoMemory),
            _ => break,
        }
        if tell(out, &rest, line, why)? {
            told += 1;
        }
    }
    Ok(())
}
