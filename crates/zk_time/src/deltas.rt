ghost use Rattle.std.specs.Prelude.{◌≡◌, ◌+◌, ◌-◌, ◌<◌, ◌≤◌, ◌^◌, length, slice_index_or};
ghost use Rattle.std.specs.List.{position};
ghost use Rattle.zk_time.specs.Deltas.{is_arm_of, span, earlier, later, longer, shorter, IsPlace};

use crate::arm::Arm;

/// Where an arm goes in among those that are kept latest first, and its delta there.
#[derive(Clone, Copy)]
pub struct Place {
    /// How many expire later.
    pub index: usize,
    /// The ticks from the deadline of the one that expires before it.
    pub delta: u64,
}

/// The place of the item's arm.
pub fn place_of(arms: &[Arm], item: u32) -> Option<usize>
    ensures { result ≡ position (is_arm_of item) arms.now }
{
    arms.iter().position(|arm| arm.item == item)
}

/// The deltas taken together.
pub fn span(arms: &[Arm]) -> u64
    requires { span arms.now < 2 ^ 64 }
    ensures { result ≡ span arms.now }
{
    let mut ticks = 0;
    for arm in arms {
        ticks += arm.delta;
    }
    ticks
}

/// The place of an arm with this deadline: later than all whose deadline isn't later than its own.
pub fn place_for(arms: &[Arm], deadline: u64) -> Place
    ensures { IsPlace arms.now deadline result }
{
    let mut delta = deadline;
    for index in (0..arms.len()).rev() {
        let step = arms[index].delta;
        if delta < step {
            return Place {
                index: index + 1,
                delta,
            };
        }
        delta -= step;
    }
    Place { index: 0, delta }
}

/// The arm in front of the index, if there is one, counts from so much earlier.
pub fn lengthen(arms: &mut [Arm], index: usize, by: u64)
    requires index { index ≤ length arms.old }
    requires fits { span arms.old + by < 2 ^ 64 }
    ensures earlier { earlier index arms.new ≡ earlier index arms.old }
    ensures later { later index arms.new ≡ longer by (later index arms.old) }
{
    if index > 0 {
        arms[index - 1].delta += by;
    }
}

/// The arm in front of the index, if there is one, counts from so much later.
pub fn shorten(arms: &mut [Arm], index: usize, by: u64)
    requires index { index ≤ length arms.old }
    requires long { (d : _) → 0 < index → by ≤ (slice_index_or arms.old (index - 1) d).delta }
    ensures earlier { earlier index arms.new ≡ earlier index arms.old }
    ensures later { later index arms.new ≡ shorter by (later index arms.old) }
{
    if index > 0 {
        arms[index - 1].delta -= by;
    }
}
