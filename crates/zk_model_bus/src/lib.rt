//! zbus and the object table as plain machines: channels, the listeners and subscribers that observe them, and the permissions of
//! threads; and the laws of their histories.
#![tactic(auto)]

mod channel;
mod channel_laws;
mod observer;
mod observer_laws;
mod table;
mod table_laws;

pub use channel::{
    ChanObserver, ChanOp, ChanReply, ChanState, ChanStore, Holder, Manner, chan_next,
};
pub use channel_laws::{
    channel_calls_are_told, channel_waits_end, keeps_channel_laws, message_holds, one_holds,
};
pub use observer::{ObsOp, ObsReply, ObsState, ObsStore, obs_next};
pub use observer_laws::{
    keeps_observer_laws, observer_calls_are_told, observer_waits_end, off_holds, taken_in_order,
};
pub use table::{
    OopsWhy, TableEntry, TableOp, TableReply, TableSetup, TableState, TableStore, is_for,
    table_next,
};
pub use table_laws::{
    checks_are_told, grants_stand, keeps_table_laws, oops_is_last, ready_for_good, user_for_good,
};
pub use zk_base::{Kind, Need, Valid, same_kind};
