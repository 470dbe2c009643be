use zk_worker::Spot;

/// A line of an entry or a look: whose step it is, and where it stands.
#[derive(Clone, Copy, PartialEq, Eq)]
pub struct Stood {
    /// The number of the player.
    pub player: u32,
    /// The number of the step among all steps of the player, from 0.
    pub step: u32,
    /// Where it stands.
    pub spot: Spot,
}

/// A kind of services of which there are many.
#[derive(Clone, Copy, PartialEq, Eq)]
pub enum Family {
    Sem,
    Msgq,
    Signal,
    Chan,
    Obs,
}

/// A service that has entries.
#[derive(Clone, Copy, PartialEq, Eq)]
pub enum Home {
    Work,
    Clock,
    Table,
    /// The one of this object number.
    Object(Family, u32),
}
