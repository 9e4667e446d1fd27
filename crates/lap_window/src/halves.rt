use memory::Sequence;

/// A half of a block: the values of each channel, in units of 2^-20.
pub type HalfBlock = Sequence<Sequence<i64>>;
