/// The most bytes that a constants file may have. A right one has fewer.
pub const CONSTANTS_LIMIT: u64 = 1 << 17;

/// The most bytes that a film may have.
pub const FILM_LIMIT: u64 = 1 << 28;

/// The most bytes that a script may have.
pub const SCRIPT_LIMIT: u64 = 1 << 20;
