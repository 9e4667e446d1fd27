/// The form of a block's window (Vorbis I, section 4.3.1).
#[derive(Clone, Copy, Debug, PartialEq, Eq)]
pub struct WindowForm {
    /// The size of the block.
    pub size: u32,
    /// The size of the blocks whose slope it has on the left side, towards the block before.
    pub left: u32,
    /// The size of the blocks whose slope it has on the right side, towards the next block.
    pub right: u32,
}
