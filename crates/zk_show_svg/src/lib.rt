//! A chart of a run as a picture in SVG.
#![tactic(auto)]

mod arrows;
mod attrs;
mod bars;
mod escape;
mod frame;
mod lanes;
mod legend;
mod notes;
mod picture;
mod plan;
mod rows;
mod shape;
mod style;
mod ticks;
mod words;

pub use escape::texts_stay_texts;
pub use picture::put_svg;
