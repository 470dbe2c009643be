use zk_base::Need;

/// One of two words, the first of which is true.
#[derive(Clone, Copy)]
pub enum Choice {
    /// `user` or `super`.
    Mode,
    /// `on` or `off`.
    State,
    /// `plug` or `open`.
    Drain,
}

/// What stands for one word of a line.
#[derive(Clone, Copy)]
pub enum Slot {
    /// The name of a new object.
    New,
    /// The name of an object that can play a script.
    Owner,
    /// The name of an object that meets the need.
    Object(Need),
    /// The name of an object of a kind that can be declared as not initialised.
    Rawable,
    /// A number from the first to the second.
    Number(u32, u32),
    /// A priority, from minus `LEAST_PRIORITY` to `GREATEST_PRIORITY`.
    Priority,
    /// One of two words.
    Either(Choice),
    /// A message in lower-case hexadecimal digits, two for each byte.
    Hex,
    /// How long a call waits: `no`, `forever`, or a number of ticks.
    Wait,
    /// What a poll waits for: `ignore`, or `sem:`, `msgq:` or `sig:` and the name of an object of that kind.
    Event,
    /// What messages a channel takes: `any`, or `max:` and the greatest first byte in two hexadecimal digits.
    Valid,
    /// The word `raw`, of an object that isn't initialised.
    Raw,
}

/// What may stand behind the slots.
#[derive(Clone, Copy)]
pub enum Rest {
    Nothing,
    /// One word or none.
    Maybe(Slot),
    /// Any number of words, each of which stands for the same.
    Many(Slot),
    /// The events of a poll: one or more, of which one at least isn't `ignore`.
    Events,
}
