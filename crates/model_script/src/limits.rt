/// The most lanes that a script may have.
pub const MOST_LANES: u32 = 16;

/// The greatest number of a cursor of a lane; the first is 0.
pub const GREATEST_CURSOR: u8 = 15;

/// The most frames that one read may ask for.
pub const GREATEST_READ: u32 = 1 << 16;

/// The most frames that all reads of a script may ask for together.
pub const MOST_FRAMES: u32 = 1 << 22;

/// What ends a line of a script.
pub const LINE_FEED: u8 = b'\n';

/// What parts the words of a line.
pub const SPACE: u8 = b' ';
