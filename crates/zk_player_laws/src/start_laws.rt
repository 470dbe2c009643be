ghost use Rattle.zk_player_laws.specs.StartLaws.{EachStartsAsDeclared};

/// Of each scenario: each of its services, and each object of which there are many, starts as it is declared, field by field. The
/// work service has as many items as are declared and the declared queues in their order, each with its own worker and started or
/// not; the clock is at 0; the object table has the declared kinds, threads and permissions, and what is initialised; a semaphore
/// has its count and limit, a message queue its size, a channel its message, validator and observers, a subscriber its capacity;
/// a signal is clear; and nothing has come to any of them. It does nothing when it runs.
pub fn starts_as_declared()
    ensures starts { EachStartsAsDeclared }
{}
