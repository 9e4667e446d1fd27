use crate::rows::Rows;
use model_ogg::Mark;

/// The most entries that the links of a film may have together.
pub const MOST_ENTRIES: u32 = 1 << 22;

/// The size of the largest block (Vorbis I, section 4.2.2).
pub const LARGEST_BLOCK: u32 = 8192;

/// Why nothing can be heard somewhere in a link.
#[derive(Clone, Copy, Debug, PartialEq, Eq)]
pub enum GapKind {
    /// Some of the link's bytes are missing.
    Lost,
    /// A packet is no block.
    Bad,
}

/// What an entry of a link is, as far as the line depends on it.
#[derive(Clone, Copy, Debug, PartialEq, Eq)]
pub enum RowKind {
    /// Some of the link's bytes are missing.
    Lost,
    /// A packet that should be a block and is none.
    Bad,
    /// A packet that is no audio packet.
    Skip,
    /// A block, short or long.
    Block { long: bool },
}

/// An entry of a link, and the mark of its page, if it has one.
#[derive(Clone, Copy, Debug, PartialEq, Eq)]
pub struct Row {
    pub kind: RowKind,
    pub mark: Option<Mark>,
}

/// The entries of a link after its three headers, and what the headers say.
#[derive(Debug, Drop)]
pub struct LinkRows {
    /// How many channels the link has.
    pub channels: u8,
    /// How many frames it plays in a second.
    pub rate: u32,
    /// The size of a short block.
    pub short: u32,
    /// The size of a long block.
    pub long: u32,
    /// Its entries.
    pub rows: Rows,
}
