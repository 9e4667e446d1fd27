use memory::Sequence;
use model_line::Half;

/// A half of a block that a cursor needs.
#[derive(Clone, Copy, Debug, PartialEq, Eq)]
pub struct Need {
    /// The number of the block among all blocks of the film.
    pub block: u32,
    /// Which half of it.
    pub half: Half,
}

/// What a cursor needs, in order.
pub type Needs = Sequence<Need>;

/// What a cursor is to do that may need halves of blocks.
#[derive(Clone, Copy, Debug, PartialEq, Eq)]
pub enum Task {
    /// To give at most so many of the frames that follow.
    Read { frames: u32 },
    /// To go to the frame of this number, and over to it from the frames that follow.
    Lap { place: u64 },
}
