ghost use Rattle.std.specs.Prelude.{◌≡◌, ◌≤◌, ◌<◌, ◌+◌, ◌*◌, ◌/◌, ◌%◌, ◌^◌, ◌+ℤ◌, ℕ, pos, unsigned_abs, IfOk};
ghost use Rattle.model_synthesis.specs.declared.constants.TheConstants.{SCALE};
ghost use Rattle.number_transform.specs.Factors.{factor_of};
ghost use Rattle.half_sums.specs.Blocks.{AreCosines, AreWaves, AreBinPlaces, AreSumPlaces, IsBlockFor, cosine_list, size_of};

use crate::block::{BIN_STEP, Block, SHORT_LEVELS, SUM_STEP};
use crate::places::{Place, bin_place, cosine, cosine_residue, sum_place};
use model_synthesis::SCALE;
use number_transform::Multiplier;
use std::alloc::{AllocError, Global};

/// How many values a block of 2^levels bins has.
fn block_size(levels: u32) -> usize
    requires some { 2 ≤ levels }
    requires few { levels ≤ 12 }
    ensures size { result ≡ size_of levels }
    ensures most { result ≤ 8192 }
    ensures even { result % 4 ≡ 0 }
    ensures some { 0 < result }
{
    2 << levels
}

/// Where the powers of the step of bins find their bins.
fn bin_places(alloc: Global, levels: u32) -> Result<Vec<Place>, AllocError>
    requires some { 2 ≤ levels }
    requires few { levels ≤ 12 }
    ensures { IfOk result (λ places. AreBinPlaces levels places.items) }
{
    let size = block_size(levels);
    let mut places = Vec::with_capacity(alloc, size / 2)?;
    let mut step = 1;
    for _ in 0..size / 2 {
        places.push(bin_place(size, step))?;
        step = step * BIN_STEP % (4 * size);
    }
    Ok(places)
}

/// Where the powers of the step of sums find their sums.
fn sum_places(alloc: Global, levels: u32) -> Result<Vec<Place>, AllocError>
    requires some { 2 ≤ levels }
    requires few { levels ≤ 12 }
    ensures { IfOk result (λ places. AreSumPlaces levels places.items) }
{
    let size = block_size(levels);
    let mut places = Vec::with_capacity(alloc, size / 2)?;
    let mut step = 1;
    for _ in 0..size / 2 {
        places.push(sum_place(size, step))?;
        step = step * SUM_STEP % (4 * size);
    }
    Ok(places)
}

/// The residues of the cosines at the powers of the step of sums.
fn cosine_residues(alloc: Global, cosines: &[u32], levels: u32) -> Result<Vec<u64>, AllocError>
    requires some { 2 ≤ levels }
    requires few { levels ≤ 12 }
    requires cosines { AreCosines cosines.now }
    ensures { IfOk result (λ values. values.items ≡ cosine_list cosines.now levels) }
{
    let size = block_size(levels);
    let mut values = Vec::with_capacity(alloc, size / 2)?;
    let mut step = 1;
    for _ in 0..size / 2 {
        values.push(cosine_residue(cosines, size, step))?;
        step = step * SUM_STEP % (4 * size);
    }
    Ok(values)
}

/// The polynomial of these residues, as a factor.
fn cosine_factor(
    alloc: Global,
    multiplier: &Multiplier,
    cosines: &[u32],
    levels: u32,
) -> Result<Vec<u64>, AllocError>
    requires some { 2 ≤ levels }
    requires few { levels ≤ 12 }
    requires cosines { AreCosines cosines.now }
    ensures { IfOk result (λ values. values.items
        ≡ factor_of levels (cosine_list cosines.now levels)) }
{
    let mut values = cosine_residues(alloc, cosines, levels)?;
    multiplier.make_factor(&mut values, levels);
    Ok(values)
}

/// A cosine with its sign changed, raised so that it isn't below zero.
fn raised(cosine: i64) -> u64
    requires { unsigned_abs cosine ≤ 2 ^ SCALE }
    ensures value { (pos result +ℤ cosine) ≡ pos (2 ^ SCALE) }
    ensures small { result ≤ 2 * 2 ^ SCALE }
{
    ((1 << SCALE) - cosine) as u64
}

/// What the bins of a short block are multiplied by.
fn waves(alloc: Global, cosines: &[u32], levels: u32) -> Result<Vec<u64>, AllocError>
    requires some { 2 ≤ levels }
    requires few { levels ≤ 12 }
    requires cosines { AreCosines cosines.now }
    ensures { IfOk result (λ waves. AreWaves levels cosines.now waves.items) }
{
    let size = block_size(levels);
    let mut waves = Vec::with_capacity(alloc, 3 * (size / 2))?;
    let mut step = 1;
    for _ in 0..3 * (size / 2) {
        waves.push(raised(cosine(cosines, size, step)))?;
        step = step * SUM_STEP % (4 * size);
    }
    Ok(waves)
}

/// The waves of a short block, and none for a long one.
fn waves_of_short(alloc: Global, cosines: &[u32], levels: u32) -> Result<Vec<u64>, AllocError>
    requires some { 2 ≤ levels }
    requires few { levels ≤ 12 }
    requires cosines { AreCosines cosines.now }
    ensures { IfOk result (λ waves. levels ≤ SHORT_LEVELS
        → AreWaves levels cosines.now waves.items) }
{
    if levels > SHORT_LEVELS {
        return Ok(Vec::new(alloc));
    }
    waves(alloc, cosines, levels)
}

/// Lays out what the half sums of blocks of 2^levels bins are made with.
pub fn make_block(
    alloc: Global,
    multiplier: &Multiplier,
    cosines: &[u32],
    levels: u32,
) -> Result<Block, AllocError>
    requires some { 2 ≤ levels }
    requires few { levels ≤ 12 }
    requires cosines { AreCosines cosines.now }
    ensures { IfOk result (λ block. IsBlockFor levels cosines.now block) }
{
    let bins = bin_places(alloc, levels)?;
    let sums = sum_places(alloc, levels)?;
    let factor = cosine_factor(alloc, multiplier, cosines, levels)?;
    let waves = waves_of_short(alloc, cosines, levels)?;
    Ok(Block {
        bins,
        sums,
        factor,
        waves,
    })
}
