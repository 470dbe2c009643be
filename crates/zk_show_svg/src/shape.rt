ghost use Rattle.std.specs.Prelude.{◌≤◌};

/// The measures of a lane, in pixels. What begins with `box` is of the box of a step, or of its dot where a lane is narrow.
#[derive(Clone, Copy, PartialEq, Eq)]
pub struct Shape {
    /// Whether a step's words stand in its box, and not beside the lanes.
    pub is_wide: bool,
    /// From the left edge of a lane to that of the next.
    pub pitch: u16,
    /// The height of the lanes' names.
    pub band: u16,
    /// From the left edge of the lane.
    pub box_left: u16,
    /// From the top of the row.
    pub box_top: u16,
    pub box_width: u16,
    pub box_height: u16,
    pub box_round: u16,
    /// The left edge of a run or a script that lies in no other.
    pub run_left: u16,
    pub run_width: u16,
    /// How much further in the next one begins.
    pub run_inset: u16,
    /// From the left edge of the lane to the line of its player's time.
    pub middle: u16,
    pub wait_left: u16,
    pub wait_width: u16,
    /// From the right edge of a box to the first place at which an arrow goes down.
    pub gap: u16,
    /// How many such places there are.
    pub tracks: u16,
    /// From one such place to the next.
    pub track: u16,
    /// From the top of the row to where the arrows of the first kind begin and end.
    pub arrow_top: u16,
    /// From there to where those of the next kind do.
    pub arrow_step: u16,
}

/// The width of what stands to the left of the lanes where they are narrow: whose step it is, and its words.
pub const LOG: u16 = 500;

/// How many letters that is.
pub const LOG_LETTERS: u64 = 74;

/// The measures for so many lanes.
pub fn shape_of(lanes: u32) -> Shape {
    match lanes {
        0..3 => boxes(300),
        3 => boxes(240),
        4 => boxes(220),
        5..13 => dots(36, 6, 5),
        13..33 => dots(24, 5, 3),
        _ => dots(16, 3, 2),
    }
}

/// Lanes with boxes of this width.
fn boxes(width: u16) -> Shape
    requires { width ≤ 400 }
{
    Shape {
        is_wide: true,
        pitch: width + 65,
        band: 44,
        box_left: 26,
        box_top: 2,
        box_width: width,
        box_height: 18,
        box_round: 3,
        run_left: 2,
        run_width: width + 28,
        run_inset: 8,
        middle: 36,
        wait_left: 30,
        wait_width: 12,
        gap: 9,
        tracks: 6,
        track: 5,
        arrow_top: 5,
        arrow_step: 3,
    }
}

/// Lanes with dots, so far from one another, and with so many places for arrows between two, the first so far from a dot.
fn dots(pitch: u16, gap: u16, tracks: u16) -> Shape
    requires least { 16 ≤ pitch }
    requires most { pitch ≤ 40 }
{
    let width = pitch / 2;
    Shape {
        is_wide: false,
        pitch,
        band: 132,
        box_left: 4,
        box_top: 7,
        box_width: width,
        box_height: 8,
        box_round: 4,
        run_left: 1,
        run_width: width + 6,
        run_inset: 1,
        middle: pitch / 4 + 4,
        wait_left: 5,
        wait_width: width - 2,
        gap,
        tracks,
        track: 2,
        arrow_top: 9,
        arrow_step: 1,
    }
}
