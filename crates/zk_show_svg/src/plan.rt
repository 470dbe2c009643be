ghost use Rattle.std.specs.Prelude.{◌≡◌, ◌+◌, ◌<◌, ◌≤◌, ◌^◌};
ghost use Rattle.zk_show_svg.specs.Places.{lane_left, box_left, box_right, bands_above, row_top, width, bottom};
ghost use Rattle.zk_show_svg.specs.Steps.{words_left, letters};

use crate::shape::{LOG, LOG_LETTERS, Shape, shape_of};

/// The space around the picture.
pub const MARGIN: u16 = 16;

/// The width of the lines' numbers.
pub const GUTTER: u16 = 52;

/// The height of a row.
pub const ROW: u16 = 22;

/// Where the lanes begin.
pub const TOP: u16 = 174;

/// After so many rows the lanes' names stand there again, in a picture of more than `SHORT_ROWS`.
pub const BAND_ROWS: u32 = 40;

/// A picture of at most so many rows has the lanes' names at its top alone.
pub const SHORT_ROWS: u32 = 60;

/// The least width of the picture: the legend's.
pub const LEAST_WIDTH: u64 = 780;

/// The width of ten letters.
pub const TEN_LETTERS: u16 = 66;

/// Where everything in a picture stands, in pixels.
#[derive(Clone, Copy, PartialEq, Eq)]
pub struct Plan {
    pub shape: Shape,
    pub lanes: u32,
    pub rows: u32,
    /// How many letters there are in the longest name of a player.
    pub longest: u16,
}

impl Plan {
    /// The plan for so many players, of whose names none is longer, and so many rows.
    pub fn new(lanes: u32, rows: u32, longest: u16) -> Plan
        ensures lanes { result.lanes ≡ lanes }
        ensures rows { result.rows ≡ rows }
    {
        Plan {
            shape: shape_of(lanes),
            lanes,
            rows,
            longest,
        }
    }

    /// The left edge of a lane.
    pub fn lane(&self, player: u32) -> u64
        ensures exact { result ≡ lane_left self.now player }
        ensures small { result < 2 ^ 50 }
    {
        let log = if self.shape.is_wide { 0 } else { LOG };
        u64::from(MARGIN + GUTTER + log) + u64::from(player) * u64::from(self.shape.pitch)
    }

    /// The left edge of a step's box.
    pub fn box_left(&self, player: u32) -> u64
        ensures exact { result ≡ box_left self.now player }
        ensures small { result < 2 ^ 51 }
    {
        self.lane(player) + u64::from(self.shape.box_left)
    }

    /// The right edge of a step's box.
    pub fn box_right(&self, player: u32) -> u64
        ensures exact { result ≡ box_right self.now player }
        ensures small { result < 2 ^ 52 }
    {
        self.box_left(player) + u64::from(self.shape.box_width)
    }

    /// The middle of what stands for the player's time.
    pub fn middle(&self, player: u32) -> u64
        ensures { result < 2 ^ 52 }
    {
        self.lane(player) + u64::from(self.shape.middle)
    }

    /// How often the lanes' names stand again above a row.
    fn bands_above(&self, row: u32) -> u32
        ensures { result ≡ bands_above self.now row }
    {
        if self.rows <= SHORT_ROWS {
            return 0;
        }
        row / BAND_ROWS
    }

    /// The top of a row.
    pub fn row_top(&self, row: u32) -> u64
        ensures exact { result ≡ row_top self.now row }
        ensures small { result < 2 ^ 50 }
    {
        let bands = u64::from(self.bands_above(row)) + 1;
        u64::from(TOP) + bands * u64::from(self.shape.band) + u64::from(row) * u64::from(ROW)
    }

    /// The bottom of the last row.
    pub fn bottom(&self) -> u64
        ensures exact { result ≡ bottom self.now }
        ensures small { result < 2 ^ 51 }
    {
        self.row_top(self.rows.saturating_sub(1)) + u64::from(ROW)
    }

    /// How many times the lanes' names stand there.
    pub fn bands(&self) -> u32 {
        self.bands_above(self.rows.saturating_sub(1)) + 1
    }

    /// The top of the lanes' names, each time that they stand there.
    pub fn band_top(&self, band: u32) -> u64
        ensures { result < 2 ^ 50 }
    {
        let rows = u64::from(BAND_ROWS) * u64::from(ROW);
        u64::from(TOP) + u64::from(band) * (rows + u64::from(self.shape.band))
    }

    /// The width of the picture.
    pub fn width(&self) -> u64
        ensures exact { result ≡ width self.now }
        ensures small { result < 2 ^ 51 }
    {
        LEAST_WIDTH.max(self.lane(self.lanes) + u64::from(MARGIN))
    }

    /// The width of what goes from margin to margin.
    pub fn inner_width(&self) -> u64
        ensures { result < 2 ^ 51 }
    {
        self.width().saturating_sub(2 * u64::from(MARGIN))
    }

    /// Where the words of a step begin.
    pub fn words_left(&self, player: u32) -> u64
        ensures exact { result ≡ words_left self.now player }
        ensures small { result < 2 ^ 53 }
    {
        if self.shape.is_wide {
            return self.box_left(player) + 5;
        }
        u64::from(MARGIN + GUTTER) + self.who_letters() * u64::from(TEN_LETTERS) / 10
    }

    /// How many letters of a step's words there is room for.
    pub fn letters(&self) -> usize
        ensures { result ≡ letters self.now }
    {
        if self.shape.is_wide {
            let width = self.shape.box_width.saturating_sub(10) as usize;
            return width * 10 / TEN_LETTERS as usize;
        }
        LOG_LETTERS.saturating_sub(self.who_letters()) as usize
    }

    /// How many letters there is room for where it says whose step it is.
    fn who_letters(&self) -> u64
        ensures exact { result ≡ self.now.longest + 7 }
        ensures small { result < 100000 }
    {
        u64::from(self.longest) + 7
    }
}
