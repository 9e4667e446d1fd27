/// A link of a made film.
#[derive(Drop)]
pub struct MadeLink {
    /// How many channels it has.
    pub channels: u8,
    /// Its rate, in frames a second.
    pub rate: u32,
    /// The number of its stream.
    pub serial: u32,
    /// The audio page, counted from 0, from which on sequence numbers are one greater, if there is
    /// one: before it a page seems to be lost.
    pub lost_before: Option<u32>,
    /// By how many frames its last granule position is less.
    pub cut: u64,
}

/// The links of a made film, in order.
pub const MADE_LINKS: [MadeLink; 3] = [
    MadeLink {
        channels: 2,
        rate: 44100,
        serial: 100,
        lost_before: None,
        cut: 0,
    },
    MadeLink {
        channels: 1,
        rate: 22050,
        serial: 101,
        lost_before: Some(19),
        cut: 0,
    },
    MadeLink {
        channels: 2,
        rate: 48000,
        serial: 102,
        lost_before: None,
        cut: 7,
    },
];
