use crate::frames::Frames;
use model_line::GapKind;

/// What a seek answers.
#[derive(Clone, Copy, Debug, PartialEq, Eq)]
pub enum Sought {
    /// The cursor stands before the frame of this number, or at the end.
    At { place: u64 },
    /// The line has only so many frames, and the cursor stays.
    Invalid { total: u64 },
}

/// What a cursor answers.
#[derive(Debug, Drop)]
pub enum Reply {
    /// The frames that follow, which are of this link.
    Frames { link: u32, frames: Frames },
    /// Nothing can be heard here, and the cursor stands behind it now.
    Gap { kind: GapKind },
    /// The line has no more items.
    End,
    /// The cursor stands before the frame of this number, or at the end.
    At { place: u64 },
    /// The line has only so many frames, and the cursor stays.
    Invalid { total: u64 },
}
