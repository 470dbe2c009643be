use zk_base::Kind;

/// The call that a line makes.
#[derive(Clone, Copy, Debug, PartialEq, Eq)]
pub enum Word {
    Submit,
    Cancel,
    CancelSync,
    Flush,
    Schedule,
    Reschedule,
    Remaining,
    Busy,
    Start,
    Drain,
    Unplug,
    Stop,
    Tick,
    Take,
    Give,
    Reset,
    Count,
    Put,
    PutFront,
    Get,
    Peek,
    PeekAt,
    Purge,
    Used,
    Free,
    Raise,
    Clear,
    Check,
    Poll,
    Claim,
    Finish,
    Publish,
    Notify,
    Read,
    Mask,
    Enable,
    SubWait,
    Grant,
    Release,
    Revoke,
    Public,
    Init,
    User,
}

/// What a line's first word says that the line is.
#[derive(Clone, Copy)]
pub enum Head {
    /// The declaration of an object of this kind.
    Declare(Kind),
    /// A permission that a thread has from the start.
    Allow,
    /// The head of a script.
    Script,
    /// The end of the open script.
    End,
    /// A call of the open script.
    Call(Word),
}
