use crate::row::GapKind;

/// A half of a block.
#[derive(Clone, Copy, Debug, PartialEq, Eq)]
pub enum Half {
    /// The first half, which overlaps the block before.
    Left,
    /// The second half, which overlaps the next block.
    Right,
}

/// Frames of the line that follow each other: of those that `block` and the next block give, the
/// ones from number `from` up to but not including `to`.
#[derive(Clone, Copy, Debug, PartialEq, Eq)]
pub struct Span {
    /// The number of the link.
    pub link: u32,
    /// The number of the first of the two blocks among all blocks of the film.
    pub block: u32,
    /// The number of the first frame among those of the two blocks.
    pub from: u32,
    /// The number after that of the last frame.
    pub to: u32,
    /// How many frames of the line stand before the first.
    pub start: u64,
}

/// Some frames of the line, or a gap.
#[derive(Clone, Copy, Debug, PartialEq, Eq)]
pub enum Item {
    /// Frames between two neighbouring blocks.
    Span(Span),
    /// Nothing can be heard here, in the link of this number.
    Gap { link: u32, kind: GapKind },
}

/// What an index knows of a link: what its headers say, and how many frames and gaps the line has
/// of it.
#[derive(Clone, Copy, Debug, PartialEq, Eq)]
pub struct LinkFacts {
    /// How many channels the link has.
    pub channels: u8,
    /// How many frames it plays in a second.
    pub rate: u32,
    /// The size of a short block.
    pub short: u32,
    /// The size of a long block.
    pub long: u32,
    /// How many frames the line has of it.
    pub frames: u64,
    /// How many gaps the line has of it.
    pub gaps: u32,
}
