//! What the program can be asked to do: the form that its words ask for, how the input of one is read, the whole output of each,
//! and how that is written.
#![tactic(auto)]

mod answer;
mod check;
mod event;
mod feeding;
mod form;
mod input;
mod meaning;
mod migrate;
mod on_cores;
mod output;
mod soak;
mod trigger;

pub use answer::{cores_output, output_of};
pub use check::{check_output, fail_word, put_unlawful, trace_refusal};
pub use event::events_output;
pub use feeding::feed_output;
pub use form::{Form, LONGEST_TRACE, form_of, limit_of};
pub use input::{NoInput, read_input};
pub use meaning::has_one_meaning;
pub use migrate::migrate_output;
pub use on_cores::{cores_form_of, needs_cores};
pub use output::{refuse_words, write_made, write_text};
pub use soak::soak_output;
pub use trigger::triggers_output;
