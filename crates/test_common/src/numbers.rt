use model_synthesis::{CONSTANTS_WORD, COSINE_COUNT, DECIBEL_COUNT, SLOPE_COUNT};
use std::alloc::{AllocError, Global};

/// So many numbers of this value, as a constants file has them.
fn add_numbers(bytes: &mut Vec<u8>, value: u32, count: usize) -> Result<(), AllocError> {
    for _ in 0..count {
        bytes.extend_from_slice(&value.to_le_bytes())?;
    }
    Ok(())
}

/// A constants file whose numbers are all 1: decibel values in units of 2^-30, and slopes and
/// cosines in units of 2^-23. The cosine of this number has another value, if one is given.
///
/// # Errors
///
/// Only where no memory was found.
pub fn constants(alloc: Global, other: Option<(usize, u32)>) -> Result<Vec<u8>, AllocError> {
    let one = 1 << 23;
    let mut bytes = CONSTANTS_WORD.to_vec(alloc)?;
    add_numbers(&mut bytes, 1 << 30, DECIBEL_COUNT)?;
    add_numbers(&mut bytes, one, SLOPE_COUNT)?;
    match other {
        Some((number, value)) if number < COSINE_COUNT => {
            add_numbers(&mut bytes, one, number)?;
            add_numbers(&mut bytes, value, 1)?;
            add_numbers(&mut bytes, one, COSINE_COUNT - 1 - number)?;
        }
        _ => add_numbers(&mut bytes, one, COSINE_COUNT)?,
    }
    Ok(bytes)
}
