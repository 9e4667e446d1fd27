/// Residue values are in units of 2^-16, and decibel values in units of 2^-30. Divided by 2 to the
/// power of this, their products are in the units of a spectrum and of a block, 2^-20.
pub const SHAPE_SHIFT: u32 = 26;

/// The greatest magnitude of a bin of a spectrum, in units of 2^-20.
pub const SPECTRUM_LIMIT: u64 = 1 << 27;

/// The greatest magnitude of a value of a block, in units of 2^-20.
pub const BLOCK_LIMIT: u64 = 1 << 39;
