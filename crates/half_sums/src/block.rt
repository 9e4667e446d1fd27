use crate::places::Place;

/// The bins go by the powers of this number.
pub const BIN_STEP: usize = 5;

/// The sums go by the powers of this one, which is the inverse of the other modulo 2^15.
pub const SUM_STEP: usize = 19661;

/// A block is short where it has at most 2^7 bins: its sums are made in lanes.
pub const SHORT_LEVELS: u32 = 7;

/// What the half sums of blocks of one size are made with.
#[derive(Debug, Drop)]
pub struct Block {
    /// Where the powers of `BIN_STEP` find their bins.
    pub bins: Vec<Place>,
    /// Where the powers of `SUM_STEP` find their sums.
    pub sums: Vec<Place>,
    /// The polynomial of the cosines, as a factor.
    pub factor: Vec<u64>,
    /// What the bins of a short block are multiplied by, at each power of `SUM_STEP`.
    pub waves: Vec<u64>,
}
