/// Where a hand of a running player stands before its next turn, as a gate gets it.
#[derive(Clone, Copy, Debug, PartialEq, Eq)]
pub struct Point {
    /// The hand's number, from 0.
    pub hand: u32,
    /// Whether the hand is a helper.
    pub helper: bool,
    /// How many jobs the hand has pushed so far.
    pub pushed: u64,
    /// How many blocks the hand has published so far.
    pub published: u64,
}

/// Is called before each turn of each hand. It promises nothing.
pub trait Gate: Sync {
    /// Called by the hand that is about to turn.
    fn reach(&self, point: Point);
}

/// A gate that does nothing.
#[derive(Clone, Copy, Debug)]
pub struct OpenGate;

impl Gate for OpenGate {
    fn reach(&self, _point: Point) {}
}
