/// A mark of a link, with how many frames the link gave up to and with its entry.
#[derive(Clone, Copy, Debug, PartialEq, Eq)]
pub struct Marked {
    /// The granule position.
    pub granule: u64,
    /// The page is the last of its stream.
    pub last: bool,
    /// How many frames the link gave up to and with the entry.
    pub frames: u64,
}

/// Neighbouring frames of a link, by their numbers before any are cut off: those from one up to but
/// not including another.
#[derive(Clone, Copy, Debug, PartialEq, Eq)]
pub struct Stretch {
    pub from: u64,
    pub to: u64,
}

/// Which frames of a link are cut off: so many at the front, and a stretch at the end.
#[derive(Clone, Copy, Debug, PartialEq, Eq)]
pub struct Cuts {
    pub front: u64,
    pub end: Stretch,
}
