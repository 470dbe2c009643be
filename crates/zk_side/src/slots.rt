ghost use Rattle.std.specs.Prelude.{◌≡◌};
ghost use Rattle.zk_words.specs.Numbers.{number_in, exact_number_of};
ghost use Rattle.zk_side.specs.Slots.{are_none, only, one_of, number_or_none, few_in};

use zk_base::{Few, MOST_FEW};
use zk_words::{Words, exact_number_of, number_in};

/// Whether there is no word.
pub fn are_none(words: Words<'_>) -> bool
    ensures { result ≡ are_none words.entry }
{
    let mut words = words;
    words.next().is_none()
}

/// The number from the least to the most that a word spells, which is the only one.
pub fn only_number_in(least: u32, most: u32, words: Words<'_>) -> Option<u32>
    ensures { result ≡ only (number_in least most) words.entry }
{
    let mut words = words;
    let word = words.next()?;
    if words.next().is_some() {
        return None;
    }
    number_in(least, most, word)
}

/// The number of 64 bits that a word spells, which is the only one.
pub fn only_exact_number(words: Words<'_>) -> Option<u64>
    ensures { result ≡ only exact_number_of words.entry }
{
    let mut words = words;
    let word = words.next()?;
    if words.next().is_some() {
        return None;
    }
    exact_number_of(word)
}

/// Whether a word is the first of two, if it is one of them.
pub fn one_of(first: &[u8], second: &[u8], word: &[u8]) -> Option<bool>
    ensures { result ≡ one_of first.now second.now word.now }
{
    if word == first {
        Some(true)
    } else if word == second {
        Some(false)
    } else {
        None
    }
}

/// The number from the least to the most that a word spells, or that it is the word `none`.
pub fn number_or_none(least: u32, most: u32, word: &[u8]) -> Option<Option<u32>>
    ensures { result ≡ number_or_none least most word.now }
{
    if word == b"none".as_slice() {
        return Some(None);
    }
    Some(Some(number_in(least, most, word)?))
}

/// The numbers from the least to the most that the words spell, where they are one to eight.
pub fn few_in(least: u32, most: u32, words: Words<'_>) -> Option<Few>
    ensures { result ≡ few_in least most words.entry }
{
    let mut words = words;
    let mut few = Few::none();
    while let Some(word) = words.next() {
        let number = number_in(least, most, word)?;
        if MOST_FEW <= few.numbers().len() {
            return None;
        }
        few.push(number);
    }
    if few.numbers().is_empty() {
        return None;
    }
    Some(few)
}
