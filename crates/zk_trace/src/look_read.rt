ghost use Rattle.std.specs.Prelude.{◌≡◌, option_and_then};
ghost use Rattle.zk_line.specs.Objects.{is_item};
ghost use Rattle.zk_trace.specs.Fields.{wide_of, narrow_of, object_named};
ghost use Rattle.zk_trace.specs.LookRead.{same_word, raised_of, stamp_of, can_be, may_stand, item_front_of, item_answer_of, item_look_of, item_may_stand, says_item_look, signal_front_of, seen_at, can_be_seen, signal_answer_of, signal_look_of, signal_may_stand, says_signal_look};

use crate::flags::flags_of;
use crate::halves::sides_of;
use crate::hints::Hints;
use crate::look_ups::object_named;
use crate::looks::{BUSY, CHECK, ItemLook, LOOK, STAMP, SignalLook, raised_word};
use crate::numerals::{narrow_of, short_of, wide_of};
use crate::row_words::{behind, three_words, two_words};
use crate::spot_read::step_of;
use zk_base::Seen;
use zk_model_bus::Need;
use zk_scenario::Scenario;
use zk_words::{Words, is_same};

/// A word that says nothing but that it is there.
pub fn same_word(this: &[u8], word: &[u8]) -> Option<()>
    ensures { result ≡ same_word this.now word.now }
{
    if is_same(word, this) { Some(()) } else { None }
}

/// Whether a signal was raised.
pub fn raised_of(word: &[u8]) -> Option<bool>
    ensures { result ≡ raised_of word.now }
{
    [true, false]
        .iter()
        .copied()
        .find(|raised| is_same(word, raised_word(*raised)))
}

/// What a signal can have been: one that is clear has no result.
pub fn can_be(raised: bool, value: u16) -> bool
    ensures { result ≡ can_be raised value }
{
    raised || value == 0
}

fn may_stand(last: Option<(u32, u32)>, step: (u32, u32)) -> bool
    ensures { result ≡ may_stand last step }
{
    match last {
        Some(last) => last.0 < step.0 || last.0 == step.0 && last.1 <= step.1,
        None => true,
    }
}

fn wide_stamp_of(word: &[u8]) -> Option<u64>
    ensures { result ≡ stamp_of wide_of word.now }
{
    wide_of(word.strip_prefix(STAMP)?)
}

fn narrow_stamp_of(word: &[u8]) -> Option<u32>
    ensures { result ≡ stamp_of narrow_of word.now }
{
    narrow_of(word.strip_prefix(STAMP)?)
}

fn item_front_of(scenario: &Scenario, hints: &Hints, words: Words<'_>) -> Option<((u32, u32), u32)>
    ensures { result ≡ item_front_of scenario.now.decls words.entry }
{
    let (step, busy, item) = three_words(behind(LOOK, words)?)?;
    let step = step_of(scenario, hints, step)?;
    same_word(BUSY, busy)?;
    Some((step, object_named(scenario, Need::Item, item)?))
}

fn item_answer_of(words: Words<'_>) -> Option<(u8, u64)>
    ensures { result ≡ item_answer_of words.entry }
{
    let (flags, at) = two_words(words)?;
    let flags = flags_of(flags)?;
    Some((flags, wide_stamp_of(at)?))
}

fn item_look_of(scenario: &Scenario, hints: &Hints, row: &[u8]) -> Option<ItemLook>
    ensures { result ≡ item_look_of scenario.now.decls row.now }
{
    let (front, answer) = sides_of(row)?;
    let ((player, step), item) = item_front_of(scenario, hints, Words::of(front))?;
    let (flags, at) = item_answer_of(Words::of(answer))?;
    Some(ItemLook {
        player,
        step,
        item,
        flags,
        at,
    })
}

fn item_may_stand(last: Option<ItemLook>, look: &ItemLook) -> bool
    ensures { result ≡ item_may_stand last look.now }
{
    may_stand(
        last.map(|last| (last.player, last.step)),
        (look.player, look.step),
    )
}

/// The look at an item that a line says behind the look before.
pub fn says_item_look(
    scenario: &Scenario,
    hints: &Hints,
    last: Option<ItemLook>,
    row: &[u8],
) -> Option<ItemLook>
    ensures { result ≡ says_item_look scenario.now.decls last row.now }
{
    let look = item_look_of(scenario, hints, row)?;
    if item_may_stand(last, &look) {
        Some(look)
    } else {
        None
    }
}

fn signal_front_of(scenario: &Scenario, hints: &Hints, words: Words<'_>) -> Option<(u32, u32)>
    ensures { result ≡ signal_front_of scenario.now.decls words.entry }
{
    let (step, check) = two_words(behind(LOOK, words)?)?;
    let step = step_of(scenario, hints, step)?;
    same_word(CHECK, check)?;
    Some(step)
}

fn signal_answer_of(words: Words<'_>) -> Option<Seen>
    ensures { result ≡ signal_answer_of words.entry }
{
    let (raised, value, stamp) = three_words(words)?;
    let raised = raised_of(raised)?;
    let result = short_of(value)?;
    let stamp = narrow_stamp_of(stamp)?;
    if can_be(raised, result) {
        Some(Seen {
            raised,
            result,
            stamp,
        })
    } else {
        None
    }
}

fn signal_look_of(scenario: &Scenario, hints: &Hints, row: &[u8]) -> Option<SignalLook>
    ensures { result ≡ signal_look_of scenario.now.decls row.now }
{
    let (front, answer) = sides_of(row)?;
    let (player, step) = signal_front_of(scenario, hints, Words::of(front))?;
    let seen = signal_answer_of(Words::of(answer))?;
    Some(SignalLook { player, step, seen })
}

fn signal_may_stand(last: Option<SignalLook>, look: &SignalLook) -> bool
    ensures { result ≡ signal_may_stand last look.now }
{
    may_stand(
        last.map(|last| (last.player, last.step)),
        (look.player, look.step),
    )
}

/// The look at a signal that a line says behind the look before.
pub fn says_signal_look(
    scenario: &Scenario,
    hints: &Hints,
    last: Option<SignalLook>,
    row: &[u8],
) -> Option<SignalLook>
    ensures { result ≡ says_signal_look scenario.now.decls last row.now }
{
    let look = signal_look_of(scenario, hints, row)?;
    if signal_may_stand(last, &look) {
        Some(look)
    } else {
        None
    }
}
