//! The words of a scenario's line: one table says what stands behind each first word, and a line is read by it.
#![tactic(auto)]

mod event;
mod first;
mod hex;
mod kind;
mod limits;
mod line;
mod matching;
mod numbers;
mod parts;
mod pieces;
mod slot;
mod spelled;
mod table;
mod timeout;
mod validator;
mod word;

pub use event::{Asked, Source, event_named, is_ignore, need_of, source_text};
pub use first::head_of;
pub use hex::{digit_of, is_hex, msg_of, put_hex};
pub use kind::{can_be_raw, makes_player, plays_script};
pub use limits::{GREATEST_PRIORITY, GREATEST_RESULT, LEAST_PRIORITY, MOST_COUNT, MOST_TICKS};
pub use line::{Line, line_of};
pub use matching::is_same;
pub use numbers::{exact_number_of, number_in, number_of, priority_of};
pub use parts::{Part, Parts};
pub use pieces::{Lines, Pieces, Words, place_of};
pub use slot::{Choice, Rest, Slot};
pub use spelled::{choice_text, is_spelled_in, same_choice};
pub use table::{Row, call_row, row_of};
pub use timeout::{Timeout, is_wait, wait_of};
pub use validator::{put_validator, validator_of};
pub use word::{Head, Word};
pub use zk_base::{Kind, Need, Valid, same_kind};
