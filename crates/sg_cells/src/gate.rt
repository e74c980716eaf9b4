// Where actors may be held up from outside.

/// A place that each actor passes between its steps: a caller may wait there, or count.
///
/// Nothing that is passed comes back, so a gate changes nothing of what a run answers.
pub trait Gate {
    /// Lets actor number `actor` pass at this point.
    fn pass(&self, actor: u32, point: u32);
}

/// A gate at which no one is held up.
#[derive(Clone, Copy, Debug)]
pub struct OpenGate;

impl Gate for OpenGate {
    /// Does nothing.
    fn pass(&self, actor: u32, point: u32) {
        let _ = actor;
        let _ = point;
    }
}
