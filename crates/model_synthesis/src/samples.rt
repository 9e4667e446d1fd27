/// A value of a frame is in units of 2^-20, a sample of 16 bits in units of 2^-15: it is the value,
/// divided by 2 to the power of this.
pub const SAMPLE_SHIFT: u32 = 5;
