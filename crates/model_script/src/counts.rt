/// The most helpers that a play may have; the fewest are none.
pub const MOST_HELPERS: u32 = 16;

/// The fewest slots that a play may have.
pub const LEAST_SLOTS: u32 = 1;

/// The most slots that a play may have.
pub const MOST_SLOTS: u32 = 1024;

/// The fewest setups that a play may keep.
pub const LEAST_SETUPS: u32 = 1;

/// The most setups that a play may keep.
pub const MOST_SETUPS: u32 = 64;

/// With how many helpers a script is played, and how many blocks and setups are kept for them.
#[derive(Clone, Copy, Debug, PartialEq, Eq)]
pub struct Counts {
    /// The threads that help, 0 to `MOST_HELPERS`.
    pub helpers: u32,
    /// The slots for decoded blocks, `LEAST_SLOTS` to `MOST_SLOTS`.
    pub slots: u32,
    /// The setups that are kept, `LEAST_SETUPS` to `MOST_SETUPS`.
    pub setups: u32,
}
