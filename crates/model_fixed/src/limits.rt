/// The greatest magnitude of a value of the decoder, in units of 2^-16: values past it are limited
/// to it.
pub const VALUE_LIMIT: u64 = 1 << 32;
