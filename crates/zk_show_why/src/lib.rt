//! Why a run ended as it did, and why a scenario was refused, in sentences.
#![tactic(auto)]

mod accepted;
mod awaited;
mod before;
mod circle;
mod failed;
mod finding;
mod leads;
mod leavings;
mod left;
mod limits;
mod lines;
mod misnamed;
mod misplaced;
mod mistakes;
mod oops;
mod open;
mod people;
mod permission;
mod placed;
mod plain;
mod ranges;
mod refusal;
mod run;
mod sentences;
mod servers;
mod serving;
mod signs;
mod spelling;
mod spent;
mod stand;
mod still;
mod stock;
mod story;
mod surface;
mod text;
mod times;
mod waits;
mod whereabouts;
mod why;
mod words;

use finding::{Accepted, Finding};
pub use refusal::put_refusal;
pub use why::put_why;
