ghost use Rattle.std.specs.Prelude.{◌≡◌, ◌++◌, OnOk};
ghost use Rattle.std.specs.List.{flat_map};
ghost use Rattle.zk_show_svg.specs.Ticks.{rule_top, rule_right, rule_line, tick_rule, tick_time, tick_mark};

use crate::attrs::put_placed;
use crate::plan::Plan;
use zk_base::NoMemory;
use zk_paper::Paper;
use zk_show_chart::Tick;

/// Appends a rule and the time for each step that tells the time.
pub fn put_ticks(out: &mut Paper, plan: &Plan, ticks: &[Tick]) -> Result<(), NoMemory>
    ensures text { OnOk result (out.new.put ≡ out.old.put ++ flat_map (tick_mark plan.now) ticks.now) }
    ensures front { out.new.front ≡ out.old.front }
{
    for tick in ticks {
        put_tick(out, plan, tick)?;
    }
    Ok(())
}

#[tactic(auto, unfolding(crate::specs::Ticks::tick_mark))]
fn put_tick(out: &mut Paper, plan: &Plan, tick: &Tick) -> Result<(), NoMemory>
    ensures text { OnOk result (out.new.put ≡ out.old.put ++ tick_mark plan.now tick.now) }
    ensures front { out.new.front ≡ out.old.front }
{
    put_rule(out, plan, tick)?;
    put_time(out, plan, tick)
}

/// Where the rule of a tick stands.
fn top_of(plan: &Plan, tick: &Tick) -> u64
    ensures { result ≡ rule_top plan.now tick.now }
{
    plan.row_top(tick.row) + 21
}

/// Where rules end.
fn right_of(plan: &Plan) -> u64
    ensures { result ≡ rule_right plan.now }
{
    plan.width().saturating_sub(16)
}

#[tactic(auto, unfolding(crate::specs::Ticks::rule_line))]
fn put_line(out: &mut Paper, top: u64, right: u64) -> Result<(), NoMemory>
    ensures text { OnOk result (out.new.put ≡ out.old.put ++ rule_line top right) }
    ensures front { out.new.front ≡ out.old.front }
{
    out.put(b"<path class=\"t\" d=\"M16 ")?;
    out.put_number(top)?;
    out.push(b'H')?;
    out.put_number(right)?;
    out.put(b"\"/>")
}

#[tactic(auto, unfolding(crate::specs::Ticks::tick_rule))]
fn put_rule(out: &mut Paper, plan: &Plan, tick: &Tick) -> Result<(), NoMemory>
    ensures text { OnOk result (out.new.put ≡ out.old.put ++ tick_rule plan.now tick.now) }
    ensures front { out.new.front ≡ out.old.front }
{
    put_line(out, top_of(plan, tick), right_of(plan))
}

#[tactic(auto, unfolding(crate::specs::Ticks::tick_time))]
fn put_time(out: &mut Paper, plan: &Plan, tick: &Tick) -> Result<(), NoMemory>
    ensures text { OnOk result (out.new.put ≡ out.old.put ++ tick_time plan.now tick.now) }
    ensures front { out.new.front ≡ out.old.front }
{
    let right = plan.width().saturating_sub(20);
    put_placed(
        out,
        b"<text class=\"n\"",
        right,
        plan.row_top(tick.row) + 17,
    )?;
    out.put(b">t=")?;
    out.put_number(tick.time)?;
    out.put(b"</text>\n")
}
