//! What one line of a scenario means: its arguments, the call or the declaration that is made of them, its reasons and its text.
#![tactic(auto)]

mod arg_list;
mod calls;
mod checks;
mod decls;
mod events;
mod kind_lists;
mod kinds;
mod making;
mod names;
mod needs;
mod objects;
mod print;
mod right;
mod shapes;
mod types;
mod weights;

pub use arg_list::Args;
pub use calls::{Said, is_user_call, said_of, word_of};
pub use checks::{first_object, has_many_events, has_many_observers};
pub use decls::{Channel, Written, decl_of, permission_of, written_of};
pub use events::{Event, Events, MOST_EVENTS};
pub use kinds::{is_item_at, is_listener_at, is_user_at, kind_of, name_of};
pub use making::put_call_of;
pub use needs::{Needed, need_at};
pub use objects::Objects;
pub use print::{put_allow, put_call, put_decl, put_said};
pub use right::say_words;
pub use types::{Arg, Call, Decl, Declared, Ref};
pub use weights::{Wrong, judge_words};
