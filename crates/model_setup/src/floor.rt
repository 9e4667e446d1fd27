use thiserror::Error;

/// The most points that a floor may have (Vorbis I, section 7.2.2).
pub const MOST_POINTS: usize = 65;

/// The final value of a floor's point in one packet, and whether the floor's curve goes through it
/// (Vorbis I, section 7.2.4).
#[derive(Clone, Copy, Debug, Default, PartialEq, Eq)]
pub struct Final {
    /// The height, before it is multiplied. It is within the floor's range, save where a packet
    /// asks for a point outside it.
    pub value: i32,
    /// Whether the curve bends here: points that aren't flagged don't count for it.
    pub flagged: bool,
}

/// Why a floor could not be read: the first cause in reading order (Vorbis I, section 7.2.2).
#[derive(Clone, Copy, Debug, PartialEq, Eq, Error)]
pub enum FloorFault {
    #[error("the packet ends within a floor")]
    End,
    #[error("a floor names a codebook that the setup doesn't have")]
    Book,
    #[error("a floor has more than 65 points, or two points at one bin of the spectrum")]
    List,
}
