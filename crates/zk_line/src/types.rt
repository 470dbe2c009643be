use crate::events::{Event, Events};
use zk_base::{Few, Msg, Name};
use zk_words::{Choice, Timeout, Valid};

/// One declaration. Objects are numbered from 0 in declared order.
#[derive(Clone, Copy)]
pub enum Decl {
    /// A thread, its priority (the lower number first), and whether it is a user thread.
    Thread(Name, i8, bool),
    /// A work queue, the priority of its worker, and whether it is started at first.
    Queue(Name, i8, bool),
    /// A work item.
    Item(Name),
    /// A semaphore, the count that it begins with (up to its limit), its limit, 1 to `MOST_COUNT`, and whether it isn't
    /// initialised.
    Sem(Name, u32, u32, bool),
    /// A message queue, the size of each message in bytes (1 to `LONGEST_MESSAGE`), how many it has room for (1 to
    /// `MOST_HELD`), and whether it isn't initialised.
    Msgq(Name, u32, u32, bool),
    /// A signal, and whether it isn't initialised.
    Signal(Name, bool),
    /// A listener. Zephyr's `ZBUS_LISTENER_DEFINE`.
    Listener(Name),
    /// A subscriber, and of how many messages it is told that it hasn't taken (1 to `MOST_HELD`). Zephyr's
    /// `ZBUS_SUBSCRIBER_DEFINE`.
    Sub(Name, u32),
    /// A channel, the message that it has at first, what messages it takes, and the object numbers of its
    /// observers: subscribers and listeners that are declared before it, each once. Zephyr's `ZBUS_CHAN_DEFINE`.
    Chan(Name, Msg, Valid, Few),
}

/// One line among the declarations.
#[derive(Clone, Copy)]
pub enum Declared {
    /// The declaration of an object, by its number.
    Object(u32),
    /// A thread may use an object from the start: the numbers of both. Zephyr's `K_THREAD_ACCESS_GRANT`.
    Allow(u32, u32),
}

/// An object as a call names it.
#[derive(Clone, Copy)]
pub enum Ref {
    /// A declared object, by its number.
    Known(u32),
    /// A name that no object has. It stands in free lines alone.
    Unknown(Name),
}

/// What one word of a line says.
#[derive(Clone, Copy)]
pub enum Arg {
    Name(Name),
    Object(Ref),
    Number(u32),
    Priority(i8),
    /// Which of the two words of a choice: true for the first.
    Truth(Choice, bool),
    Bytes(Msg),
    Wait(Timeout),
    Event(Event),
    /// What messages a channel takes.
    Valid(Valid),
    /// That an object isn't initialised.
    Raw,
}

/// What stands in a list's places that nothing fills.
impl Default for Arg {
    fn default() -> Arg {
        Arg::Number(0)
    }
}

/// One call of a script, its arguments in the written order.
#[derive(Clone, Copy)]
pub enum Call {
    /// An item, and the queue where one is named. Zephyr's `k_work_submit_to_queue`.
    Submit(Ref, Option<Ref>),
    /// Zephyr's `k_work_cancel`.
    Cancel(Ref),
    /// Zephyr's `k_work_cancel_sync`.
    CancelSync(Ref),
    /// Zephyr's `k_work_flush`.
    Flush(Ref),
    /// An item, a queue, and a delay of 0 to `MOST_TICKS` ticks. Zephyr's `k_work_schedule_for_queue`.
    Schedule(Ref, Ref, u32),
    /// The same, of Zephyr's `k_work_reschedule_for_queue`.
    Reschedule(Ref, Ref, u32),
    /// Zephyr's `k_work_delayable_remaining_get`.
    Remaining(Ref),
    /// An item. Zephyr's `k_work_busy_get`.
    Busy(Ref),
    /// A queue. Zephyr's `k_work_queue_start`.
    Start(Ref),
    /// A queue, and whether it is plugged with the drain. Zephyr's `k_work_queue_drain`.
    Drain(Ref, bool),
    /// A queue. Zephyr's `k_work_queue_unplug`.
    Unplug(Ref),
    /// A queue. Zephyr's `k_work_queue_stop`.
    Stop(Ref),
    /// The clock goes on by 1 to `MOST_TICKS` ticks. Zephyr's `sys_clock_announce`.
    Tick(u32),
    /// A semaphore. Zephyr's `k_sem_take`.
    Take(Ref, Timeout),
    /// A semaphore. Zephyr's `k_sem_give`.
    Give(Ref),
    /// A semaphore. Zephyr's `k_sem_reset`.
    Reset(Ref),
    /// A semaphore. Zephyr's `k_sem_count_get`.
    Count(Ref),
    /// A message queue, and a message of its size. Zephyr's `k_msgq_put`.
    Put(Ref, Msg, Timeout),
    /// A message queue, and a message of its size. Zephyr's `k_msgq_put_front`.
    PutFront(Ref, Msg),
    /// A message queue. Zephyr's `k_msgq_get`.
    Get(Ref, Timeout),
    /// A message queue. Zephyr's `k_msgq_peek`.
    Peek(Ref),
    /// A message queue, and a place among its messages, from 0 for the first. Zephyr's `k_msgq_peek_at`.
    PeekAt(Ref, u32),
    /// A message queue. Zephyr's `k_msgq_purge`.
    Purge(Ref),
    /// A message queue. Zephyr's `k_msgq_num_used_get`.
    Used(Ref),
    /// A message queue. Zephyr's `k_msgq_num_free_get`.
    Free(Ref),
    /// A signal, and the result that it is raised with. Zephyr's `k_poll_signal_raise`.
    Raise(Ref, u16),
    /// A signal. Zephyr's `k_poll_signal_reset`.
    Clear(Ref),
    /// A signal. Zephyr's `k_poll_signal_check`.
    Check(Ref),
    /// How long is waited until one of these is ready. Zephyr's `k_poll`.
    Poll(Timeout, Events),
    /// A channel. Zephyr's `zbus_chan_claim`.
    Claim(Ref, Timeout),
    /// A channel. Zephyr's `zbus_chan_finish`.
    Finish(Ref),
    /// A channel, and a message of its size. Zephyr's `zbus_chan_pub`.
    Publish(Ref, Msg, Timeout),
    /// A channel. Zephyr's `zbus_chan_notify`.
    Notify(Ref, Timeout),
    /// A channel. Zephyr's `zbus_chan_read`.
    Read(Ref, Timeout),
    /// A channel, one of its observers, and whether that isn't told of the channel's messages any more. Zephyr's
    /// `zbus_obs_set_chan_notification_mask`.
    Mask(Ref, Ref, bool),
    /// An observer, and whether it is told of messages. Zephyr's `zbus_obs_set_enable`.
    Enable(Ref, bool),
    /// A subscriber. Zephyr's `zbus_sub_wait`.
    SubWait(Ref, Timeout),
    /// A thread, and an object that it may use from then on. Zephyr's `k_object_access_grant`.
    Grant(Ref, Ref),
    /// An object that the caller may no longer use. Zephyr's `k_object_release`.
    Release(Ref),
    /// A thread, and an object that it may no longer use. Zephyr's `k_object_access_revoke`.
    Revoke(Ref, Ref),
    /// An object that all threads may use from then on. Zephyr's `k_object_access_all_grant`.
    Public(Ref),
    /// An object that is initialised from then on: a semaphore, message queue or signal. Zephyr's `k_object_init`.
    Init(Ref),
    /// The caller is a user from then on. Zephyr's `k_thread_user_mode_enter`.
    User,
}
