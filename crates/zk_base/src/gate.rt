/// What a core asks each time before it plays the player that it has taken, so that a test can say in which order cores go on.
///
/// It says nothing of the run, and nothing of the run rests on it.
pub trait Gate {
    /// Lets this core on to its next player. `step` is how often the core has asked before.
    fn pass(&self, core: u32, step: u64);
}

/// A gate that lets every core on at once.
#[derive(Drop)]
pub struct OpenGate;

impl OpenGate {
    /// The gate of the program.
    pub fn new() -> OpenGate {
        OpenGate
    }
}

impl Gate for OpenGate {
    fn pass(&self, _core: u32, _step: u64) {}
}
