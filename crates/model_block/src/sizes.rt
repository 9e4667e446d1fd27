/// The sizes of the blocks of a link (Vorbis I, section 4.2.2: blocksize_0 and blocksize_1).
#[derive(Clone, Copy, Debug, PartialEq, Eq)]
pub struct BlockSizes {
    /// The size of a short block.
    pub short: u32,
    /// The size of a long block.
    pub long: u32,
}
