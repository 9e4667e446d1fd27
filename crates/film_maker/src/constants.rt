ghost use Rattle.std.specs.Prelude.{◌≡◌, ◌<◌, ◌≤◌, ◌++◌, Ok, OnOk, IfOk};
ghost use Rattle.std.specs.List.{flat_map};
ghost use Rattle.model_synthesis.specs.ConstantsFile.{constants_of};
ghost use Rattle.model_trial.specs.MadeConstants.{number_bytes, made_decibel, made_decibels, made_slope, made_slope_table, made_slopes, made_cosine, made_cosines, made_constants, made_tables};

use memory::NoMemory;
use model_synthesis::{CONSTANTS_SIZE, CONSTANTS_WORD, COSINE_COUNT, DECIBEL_COUNT, SCALE};
use std::alloc::Global;

/// The sizes of slopes, in the order of a constants file.
const SLOPE_SIZES: [u32; 8] = [32, 64, 128, 256, 512, 1024, 2048, 4096];

/// Writes a number in four bytes, the lowest first.
fn put_number(bytes: &mut Vec<u8>, number: u32) -> Result<(), NoMemory>
    ensures { OnOk result (bytes.new.items ≡ bytes.old.items ++ number_bytes number) }
{
    bytes.extend_from_slice(&number.to_le_bytes())?;
    Ok(())
}

/// The decibel value of a height.
#[tactic(auto, unfolding(model_trial::specs::MadeConstants::made_decibel))]
fn made_decibel(height: u32) -> u32
    requires { height < 256 }
    ensures { result ≡ made_decibel height }
{
    1 << (height / 12 + 9)
}

/// Writes all decibel values.
fn put_decibels(bytes: &mut Vec<u8>) -> Result<(), NoMemory>
    ensures { OnOk result
        (bytes.new.items ≡ bytes.old.items ++ flat_map number_bytes made_decibels) }
{
    for height in 0..DECIBEL_COUNT as u32 {
        put_number(bytes, made_decibel(height))?;
    }
    Ok(())
}

/// The slope of a size at a place.
#[tactic(auto, unfolding(model_trial::specs::MadeConstants::made_slope))]
fn made_slope(size: u32, place: u32) -> u32
    requires size { size ≤ 4096 }
    requires place { place < size }
    ensures { result ≡ made_slope size place }
{
    let rise = (1 << SCALE) * (2 * u64::from(place) + 1);
    (rise / (2 * u64::from(size))) as u32
}

/// Writes the slope of a size.
fn put_slope(bytes: &mut Vec<u8>, size: u32) -> Result<(), NoMemory>
    requires { size ≤ 4096 }
    ensures { OnOk result
        (bytes.new.items ≡ bytes.old.items ++ flat_map number_bytes (made_slope_table size)) }
{
    for place in 0..size {
        put_number(bytes, made_slope(size, place))?;
    }
    Ok(())
}

/// Writes the slopes of all sizes.
fn put_slopes(bytes: &mut Vec<u8>) -> Result<(), NoMemory>
    ensures { OnOk result
        (bytes.new.items ≡ bytes.old.items ++ flat_map number_bytes made_slopes) }
{
    for size in &SLOPE_SIZES {
        put_slope(bytes, *size)?;
    }
    Ok(())
}

/// The cosine of a step of a quarter turn.
#[tactic(auto, unfolding(model_trial::specs::MadeConstants::made_cosine))]
fn made_cosine(step: u32) -> u32
    requires { step < 8192 }
    ensures { result ≡ made_cosine step }
{
    (1 << SCALE) - step * step / 8
}

/// Writes all cosines.
fn put_cosines(bytes: &mut Vec<u8>) -> Result<(), NoMemory>
    ensures { OnOk result
        (bytes.new.items ≡ bytes.old.items ++ flat_map number_bytes made_cosines) }
{
    for step in 0..COSINE_COUNT as u32 {
        put_number(bytes, made_cosine(step))?;
    }
    Ok(())
}

/// The file of the made constants, which is accepted.
pub fn make_constants(alloc: Global) -> Result<Vec<u8>, NoMemory>
    ensures made { IfOk result (λ bytes. bytes.items ≡ made_constants) }
    ensures accepted { IfOk result (λ bytes. constants_of bytes.items ≡ Ok made_tables) }
{
    let mut bytes = Vec::with_capacity(alloc, CONSTANTS_SIZE)?;
    bytes.extend_from_slice(&CONSTANTS_WORD)?;
    put_decibels(&mut bytes)?;
    put_slopes(&mut bytes)?;
    put_cosines(&mut bytes)?;
    Ok(bytes)
}
