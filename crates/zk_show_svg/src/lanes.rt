ghost use Rattle.std.specs.Prelude.{◌≡◌, ◌<◌, ◌≤◌, ◌^◌, OnOk};
ghost use Rattle.zk_base.specs.Fronts.{StaysInFront};

use crate::attrs::{put_placed, put_sized};
use crate::escape::put_escaped;
use crate::plan::{GUTTER, MARGIN, Plan, TOP};
use zk_base::{LONGEST_NAME, NoMemory};
use zk_line::name_of;
use zk_paper::Paper;
use zk_scenario::Scenario;

/// The name of a player: a thread's own, and a worker's queue's.
fn player_name(scenario: &Scenario, player: u32) -> &[u8] {
    let threads = scenario.threads();
    let player = player as usize;
    let object = match player.checked_sub(threads.len()) {
        None => threads.get(player),
        Some(queue) => scenario.queues().get(queue),
    };
    match object.and_then(|object| scenario.decls().get(*object as usize)) {
        Some(decl) => name_of(decl),
        None => &[],
    }
}

/// How many letters there are in the longest name of a player.
pub fn longest_name(scenario: &Scenario) -> u16
    ensures { result ≤ 16 }
{
    let mut longest = 0;
    for player in 0..scenario.players() {
        longest = player_name(scenario, player)
            .len()
            .min(LONGEST_NAME)
            .max(longest);
    }
    longest as u16
}

/// Appends what lies below all else: every second row and lane shaded, a space for the lanes' names, and a line down each lane.
pub fn put_lanes(out: &mut Paper, plan: &Plan) -> Result<(), NoMemory>
    ensures more { OnOk result (StaysInFront out.old.put out.new.put) }
    ensures front { out.new.front ≡ out.old.front }
{
    let top = u64::from(TOP);
    let height = plan.bottom().saturating_sub(top);
    put_placed(out, b"<rect fill=\"url(#zebra)\"", u64::from(MARGIN), top)?;
    put_sized(out, plan.inner_width(), height)?;
    out.put(b"/>\n")?;
    put_spaces(out, plan)?;
    put_lines(out, plan, height)
}

/// Appends the spaces for the lanes' names.
fn put_spaces(out: &mut Paper, plan: &Plan) -> Result<(), NoMemory>
    ensures more { OnOk result (StaysInFront out.old.put out.new.put) }
    ensures front { out.new.front ≡ out.old.front }
{
    for band in 0..plan.bands() {
        put_space(out, plan, plan.band_top(band))?;
    }
    Ok(())
}

fn put_space(out: &mut Paper, plan: &Plan, top: u64) -> Result<(), NoMemory>
    ensures more { OnOk result (StaysInFront out.old.put out.new.put) }
    ensures front { out.new.front ≡ out.old.front }
{
    put_placed(out, b"<rect class=\"g\"", u64::from(MARGIN), top)?;
    put_sized(out, plan.inner_width(), u64::from(plan.shape.band))?;
    out.put(b"/>\n")
}

fn put_lines(out: &mut Paper, plan: &Plan, height: u64) -> Result<(), NoMemory>
    ensures more { OnOk result (StaysInFront out.old.put out.new.put) }
    ensures front { out.new.front ≡ out.old.front }
{
    for player in 0..plan.lanes {
        put_shade(out, plan, player, height)?;
        put_line_down(out, plan, player)?;
    }
    Ok(())
}

fn put_shade(out: &mut Paper, plan: &Plan, player: u32, height: u64) -> Result<(), NoMemory>
    ensures more { OnOk result (StaysInFront out.old.put out.new.put) }
    ensures front { out.new.front ≡ out.old.front }
{
    if player % 2 == 1 {
        return Ok(());
    }
    put_placed(out, b"<rect class=\"l\"", plan.lane(player), u64::from(TOP))?;
    put_sized(out, u64::from(plan.shape.pitch), height)?;
    out.put(b"/>")
}

/// Appends the line of a player's time.
fn put_line_down(out: &mut Paper, plan: &Plan, player: u32) -> Result<(), NoMemory>
    ensures more { OnOk result (StaysInFront out.old.put out.new.put) }
    ensures front { out.new.front ≡ out.old.front }
{
    out.put(b"<path class=\"v\" d=\"M")?;
    out.put_number(plan.middle(player))?;
    out.push(b' ')?;
    out.put_number(u64::from(TOP) + u64::from(plan.shape.band))?;
    out.push(b'V')?;
    out.put_number(plan.bottom())?;
    out.put(b"\"/>\n")
}

/// Appends the players' names above their lanes, again and again, so that a long picture shows them wherever it is looked at.
pub fn put_names(out: &mut Paper, plan: &Plan, scenario: &Scenario) -> Result<(), NoMemory>
    ensures more { OnOk result (StaysInFront out.old.put out.new.put) }
    ensures front { out.new.front ≡ out.old.front }
{
    for band in 0..plan.bands() {
        put_band(out, plan, scenario, plan.band_top(band))?;
    }
    Ok(())
}

fn put_band(out: &mut Paper, plan: &Plan, scenario: &Scenario, top: u64) -> Result<(), NoMemory>
    requires { top < 2 ^ 60 }
    ensures more { OnOk result (StaysInFront out.old.put out.new.put) }
    ensures front { out.new.front ≡ out.old.front }
{
    let foot = (top + u64::from(plan.shape.band)).saturating_sub(11);
    put_placed(
        out,
        b"<text class=\"n\"",
        u64::from(MARGIN + GUTTER - 8),
        foot,
    )?;
    out.put(b">line</text>")?;
    if !plan.shape.is_wide {
        put_placed(out, b"<text class=\"m\"", u64::from(MARGIN + GUTTER), foot)?;
        out.put(b">player.step</text>")?;
    }
    for player in 0..plan.lanes {
        put_name(out, plan, scenario, player, top)?;
    }
    out.push(b'\n')
}

/// Appends a player's name above its lane, and upright where that is narrow.
fn put_name(
    out: &mut Paper,
    plan: &Plan,
    scenario: &Scenario,
    player: u32,
    top: u64,
) -> Result<(), NoMemory>
    requires { top < 2 ^ 60 }
    ensures more { OnOk result (StaysInFront out.old.put out.new.put) }
    ensures front { out.new.front ≡ out.old.front }
{
    if !plan.shape.is_wide {
        return put_upright(out, plan, scenario, player, top);
    }
    let left = plan.box_left(player);
    put_placed(out, b"<text class=\"h\"", left, top + 18)?;
    out.push(b'>')?;
    put_escaped(out, player_name(scenario, player))?;
    out.put(b"</text>")?;
    put_placed(out, b"<text class=\"m\"", left, top + 33)?;
    out.push(b'>')?;
    out.put(what_of(scenario, player))?;
    out.put(b"</text>")
}

/// What a player is.
fn what_of(scenario: &Scenario, player: u32) -> &'static [u8] {
    if (player as usize) < scenario.threads().len() {
        b"thread"
    } else {
        b"worker of this queue"
    }
}

fn put_upright(
    out: &mut Paper,
    plan: &Plan,
    scenario: &Scenario,
    player: u32,
    top: u64,
) -> Result<(), NoMemory>
    requires { top < 2 ^ 60 }
    ensures more { OnOk result (StaysInFront out.old.put out.new.put) }
    ensures front { out.new.front ≡ out.old.front }
{
    out.put(b"<text class=\"u\" transform=\"translate(")?;
    out.put_number(plan.middle(player) + 4)?;
    out.push(b' ')?;
    out.put_number((top + u64::from(plan.shape.band)).saturating_sub(8))?;
    out.put(b")rotate(-90)\">")?;
    put_escaped(out, player_name(scenario, player))?;
    out.put(b"</text>")
}
