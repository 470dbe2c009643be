ghost use Rattle.std.specs.Prelude.{◌≡◌, ◌^◌, ◌<◌, ◌≤◌, max, length};
ghost use Rattle.zk_line.specs.Objects.{name_at};
ghost use Rattle.zk_scenario.specs.Players.{players};
ghost use Rattle.zk_show_text.specs.Layout.{longest, longest_cell, wanted, gutter, share, layout_for, layout_of, IsSmall, words_place};
ghost use Rattle.zk_show_text.specs.Words.{words_of};

use crate::line::WIDTH;
use crate::names::name_at;
use crate::words::words_len;
use zk_scenario::{Decl, Scenario};
use zk_show_chart::Row;

/// The least width of a column in which words are cut: each name fits.
const LEAST: usize = 18;

/// The most lanes that have a space between them where they have no columns.
const FEW: usize = 20;

/// Where the lanes of a chart stand.
#[derive(Clone, Copy, PartialEq, Eq)]
pub struct Layout {
    /// How many there are.
    pub lanes: usize,
    /// The place of the first.
    pub gutter: usize,
    /// How many characters each takes, its mark among them.
    pub width: usize,
    /// Whether what a player did stands in its lane. If not it stands behind all of them.
    pub columns: bool,
}

impl Layout {
    /// The place of what the player of a lane did.
    pub fn words_place(&self, lane: u32) -> usize
        requires { IsSmall self.now }
        ensures place { result ≡ words_place self.now lane }
        ensures within { result ≤ 120 }
    {
        let place = if self.columns {
            self.gutter + lane as usize * self.width + 1
        } else {
            self.lanes * self.width + 1
        };
        place.min(WIDTH)
    }
}

/// The length of the longest name of these objects.
fn longest_of(decls: &[Decl], objects: &[u32]) -> usize
    ensures { result ≡ longest (name_at decls.now) objects.now }
{
    let mut most = 0;
    for object in objects {
        most = most.max(name_at(decls, *object).len());
    }
    most
}

/// The length of the longest name of a player.
pub fn longest_name(scenario: &Scenario) -> usize
    ensures { result ≡ longest (name_at scenario.now.decls) (players scenario.now.decls) }
{
    let decls = scenario.decls();
    longest_of(decls, scenario.threads()).max(longest_of(decls, scenario.queues()))
}

/// The length of the longest of what the players did.
fn longest_words(rows: &[Row<'_>]) -> usize
    ensures { result ≡ longest (λ r. words_of r.text.now) rows.now }
{
    let mut most = 0;
    for row in rows {
        most = most.max(words_len(row.text));
    }
    most
}

/// The length of the longest name of a service.
fn longest_service(rows: &[Row<'_>]) -> usize
    ensures { result ≡ longest (λ r. r.service.now) rows.now }
{
    let mut most = 0;
    for row in rows {
        most = most.max(row.service.len());
    }
    most
}

/// The widest column that so many lanes can have behind a place.
fn share(lanes: usize, front: usize) -> usize
    ensures share { result ≡ share lanes front }
    ensures narrow { result ≤ 120 }
{
    WIDTH.saturating_sub(front) / lanes.max(1)
}

/// Columns of a width that is wanted, or as much as they can have, unless those are too narrow for a name.
fn layout_for(lanes: usize, front: usize, most: usize) -> Layout
    requires few { lanes < 2 ^ 32 }
    requires front { front ≤ 120 }
    ensures layout { result ≡ layout_for lanes front most }
    ensures small { IsSmall result }
{
    let share = share(lanes, front);
    if most.min(LEAST) <= share {
        return Layout {
            lanes,
            gutter: front,
            width: most.min(share),
            columns: true,
        };
    }
    Layout {
        lanes,
        gutter: 0,
        width: if lanes <= FEW { 2 } else { 1 },
        columns: false,
    }
}

/// Where the lanes of these rows stand.
pub fn layout_of(scenario: &Scenario, rows: &[Row<'_>]) -> Layout
    ensures layout { result ≡ layout_of scenario.now.decls rows.now }
    ensures small { IsSmall result }
{
    let front = longest_service(rows).min(WIDTH - 1) + 1;
    let cell = longest_name(scenario).max(longest_words(rows));
    layout_for(scenario.players() as usize, front, cell.min(WIDTH) + 2)
}
