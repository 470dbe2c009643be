ghost use Rattle.std.specs.Prelude.{◌≡◌, ℕ, ◌+◌, ◌^◌, ◌<◌, true, None, List, [], ◌∷◌, ◌++◌, length, All, IfOk, OnOk, MatchOption};
ghost use Rattle.zk_trace.specs.declared.stood.Stood.{Stood};
ghost use Rattle.zk_trace.specs.declared.trace.Trace.{Trace};
ghost use Rattle.zk_trace.specs.Form.{IsInForm};
ghost use Rattle.zk_trace.specs.Stood.{stood};
ghost use Rattle.zk_failures.specs.First.{IsFirst, HoldsNowhere};
ghost use Rattle.zk_failures.specs.Own.{AreOwn, IsGapAt};
ghost use Rattle.zk_failures.specs.Parts.{AreBelow, AreTogether};
ghost use Rattle.zk_failures.specs.PlaceFailure.{IsMisplaced, IsGapped, IsPlaceFailure};
ghost use Rattle.zk_failures.specs.Standing.{may_stand};

use crate::own::Own;
use crate::site::Site;
use std::alloc::Global;
use zk_base::NoMemory;
use zk_scenario::Scenario;
use zk_trace::Stood;

/// The first line whose place is wrong, among all lines of a trace: one that can't stand behind those before it, or, where
/// there is none, that of the first player whose steps aren't 0, 1, 2 and on, or are more than it may make.
pub fn place_failure(
    alloc: Global,
    scenario: &Scenario,
    rows: &[Stood],
) -> Result<Option<Site>, NoMemory>
    ensures { IfOk result (λ site. (t : Trace) → IsInForm scenario.now t → rows.now ≡ stood t →
        MatchOption site (HoldsNowhere (IsMisplaced (stood t)) × HoldsNowhere (IsGapped scenario.now t)) (λ site. IsPlaceFailure scenario.now t site)) }
{
    let mut owns = owns(alloc, scenario.players())?;
    if let Some(place) = misplaced(&mut owns, rows)? {
        return Ok(Some(Site::Row(place as u64)));
    }
    match gapped(&owns, scenario.steps() as usize) {
        Some(player) => Ok(Some(Site::Player(player))),
        None => Ok(None),
    }
}

/// For each player no line.
fn owns(alloc: Global, players: u32) -> Result<Vec<Own>, NoMemory>
    ensures none { IfOk result (λ owns. AreOwn [] owns.items) }
    ensures long { IfOk result (λ owns. length owns.items ≡ players) }
{
    let mut owns = Vec::new(alloc);
    for player in 0..players {
        owns.push(Own::new(alloc))?;
    }
    Ok(owns)
}

/// The place of the first line that can't stand behind those before it. Where there is none, all are put to their players'.
fn misplaced(owns: &mut Vec<Own>, rows: &[Stood]) -> Result<Option<usize>, NoMemory>
    requires { AreOwn [] owns.old.items }
    ensures place { IfOk result (λ place. AreTogether rows.now → AreBelow (length owns.old.items) rows.now →
        MatchOption place (HoldsNowhere (IsMisplaced rows.now)) (λ place. IsFirst (IsMisplaced rows.now) place)) }
    ensures all { IfOk result (λ place. place ≡ None → AreOwn rows.now owns.new.items) }
    ensures long { OnOk result (length owns.new.items ≡ length owns.old.items) }
{
    for (place, row) in rows.iter().enumerate() {
        if !put_row(owns, *row)? {
            return Ok(Some(place));
        }
    }
    Ok(None)
}

/// Puts a line to those of its player, if it may stand behind them.
fn put_row(owns: &mut Vec<Own>, row: Stood) -> Result<bool, NoMemory>
    requires { All (λ own. own.rows + 1 < 2 ^ 64) owns.old.items }
    ensures may { IfOk result (λ may. (lines : List Stood) → AreOwn lines owns.old.items → row.player < length owns.old.items →
        may ≡ may_stand lines row) }
    ensures put { IfOk result (λ may. may ≡ true → (lines : List Stood) → AreOwn lines owns.old.items →
        AreOwn (lines ++ row ∷ []) owns.new.items) }
    ensures long { OnOk result (length owns.new.items ≡ length owns.old.items) }
{
    let player = row.player as usize;
    if player >= owns.len() {
        return Ok(true);
    }
    if !owns[player].may_stand(&row) {
        return Ok(false);
    }
    owns[player].put(row)?;
    Ok(true)
}

/// The first player who has a gap.
fn gapped(owns: &[Own], most: usize) -> Option<u32>
    requires { length owns.now < 2 ^ 32 }
    ensures { MatchOption result (HoldsNowhere (IsGapAt most owns.now)) (λ player. IsFirst (IsGapAt most owns.now) player) }
{
    for (player, own) in owns.iter().enumerate() {
        if own.has_gap(most) {
            return Some(player as u32);
        }
    }
    None
}
