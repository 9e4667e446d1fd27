ghost use Rattle.std.specs.Prelude.{◌≡◌, ◌≤◌, ◌<◌, ◌+◌, ◌*◌, ◌/◌, ◌%◌, ◌^◌, length, unsigned_abs, None, IfOk};
ghost use Rattle.std.specs.List.{All};
ghost use Rattle.memory.specs.Answers.{Answers};
ghost use Rattle.model_setup.specs.HeaderPackets.{IsBlockSize};
ghost use Rattle.model_synthesis.specs.declared.constants.TheConstants.{COSINE_COUNT, DECIBEL_COUNT, GREATEST_DECIBEL, SCALE, SLOPE_COUNT};
ghost use Rattle.model_synthesis.specs.Tables.{AreTables, IsSlopeSize, decibel, slopes_before, slope, turn_of, cosq};
ghost use Rattle.model_synthesis.specs.ConstantsFile.{first_past, numbers_of, tables_of, constants_of};

use crate::file::{check_ranges, file_body, read_section};
use crate::turns::{LEAST_EXPONENT, Turn, lay_out_turns};
use half_sums::Transforms;
use model_synthesis::{
    COSINE_COUNT, ConstantsFault, DECIBEL_COUNT, SCALE, SLOPE_COUNT, SMALLEST_SLOPE,
};
use std::alloc::{AllocError, Global};
use std::marker::Model;

/// The decibel values, window slopes and cosines that a synthesis works with.
#[derive(Debug, Drop)]
pub struct Constants {
    /// Slopes and cosines are in units of 2 to the power of minus this.
    scale: u32,
    decibels: Vec<u32>,
    /// The slopes of all sizes, the shortest first.
    slopes: Vec<u32>,
    /// The cosines of a quarter turn, and what the sums of all block sizes are made with.
    transforms: Transforms,
    /// The turns of all block sizes, the shortest first.
    turns: Vec<Turn>,
}

impl Model for Constants {
    ghost use Rattle.std.specs.Prelude.{◌≡◌};
    ghost use Rattle.model_synthesis.specs.Tables.{ConstantTables, AreTables, turns_of};

    ghost Value = { ConstantTables };

    ghost view = { λ a. record {
      scale = a.scale;
      decibels = a.decibels.items;
      slopes = a.slopes.items;
      cosines = a.transforms;
    } };

    ghost invariant = { λ a. AreTables (record {
      scale = a.scale;
      decibels = a.decibels.items;
      slopes = a.slopes.items;
      cosines = a.transforms;
    }) × (a.turns.items ≡ turns_of a.transforms) };
}

/// Where the value at a place of the slope of this size stands. The slopes before it, each half as
/// long as the next, have together as many values as it has, less those of the shortest.
fn slope_place(size: u32, place: u32) -> usize
    requires size { IsSlopeSize size }
    requires place { place < size }
    ensures value { result ≡ slopes_before size + place }
    ensures within { result < SLOPE_COUNT }
{
    (size - SMALLEST_SLOPE + place) as usize
}

/// The constants whose numbers are those behind the word of a right file.
fn constants_in(alloc: Global, body: &[u8]) -> Result<Constants, AllocError>
    requires size { length body.now ≡ 4 * (DECIBEL_COUNT + SLOPE_COUNT + COSINE_COUNT) }
    requires right { first_past body.now ≡ None }
    ensures { IfOk result (λ constants. constants ≡ tables_of (numbers_of body.now)) }
{
    let decibels = read_section(alloc, body, 0, DECIBEL_COUNT)?;
    let slopes = read_section(alloc, body, DECIBEL_COUNT, SLOPE_COUNT)?;
    let cosines = read_section(alloc, body, DECIBEL_COUNT + SLOPE_COUNT, COSINE_COUNT)?;
    let turns = lay_out_turns(alloc, &cosines)?;
    let transforms = Transforms::new(alloc, cosines)?;
    Ok(Constants {
        scale: SCALE,
        decibels,
        slopes,
        transforms,
        turns,
    })
}

impl Constants {
    /// Reads a constants file, or gives the first cause why it is none, in this order: it begins
    /// otherwise than with `VFCONST1`, it hasn't 66,440 bytes, or a number is past its greatest
    /// value, which is 2^30 for a decibel value, and 2^23 for a slope or a cosine.
    pub fn read(alloc: Global, bytes: &[u8]) -> Result<Constants, ConstantsFault>
        ensures read { Answers ConstantsFault.Memory (λ constants. constants) result
            (constants_of bytes.now) }
        ensures right { IfOk result AreTables }
    {
        let body = file_body(bytes)?;
        check_ranges(body)?;
        Ok(constants_in(alloc, body)?)
    }

    /// Slopes and cosines are in units of 2 to the power of minus this.
    pub fn scale(&self) -> u32
        ensures value { result ≡ self.now.scale }
        ensures most { result ≤ SCALE }
        ensures set { result ≡ SCALE }
        ensures right { AreTables self.now }
    {
        self.scale
    }

    /// The decibel value of a height of a curve, in units of 2^-30 (Vorbis I, section 10.1).
    pub fn decibel(&self, height: u8) -> u32
        ensures value { result ≡ decibel self.now height }
        ensures small { result ≤ GREATEST_DECIBEL }
    {
        self.decibels[height as usize]
    }

    /// The value at a place of the slope of this size, half of a window, in units of 2^-23 (Vorbis
    /// I, section 4.3.1).
    pub fn slope(&self, size: u32, place: u32) -> u32
        requires size { IsSlopeSize size }
        requires place { place < size }
        ensures value { result ≡ slope self.now size place }
        ensures small { result ≤ 2 ^ self.now.scale }
    {
        self.slopes[slope_place(size, place)]
    }

    /// The cosines of the odd numbers of steps of one turn, of which a block of this size has four
    /// times its size: at place j that of 2 * j + 1 steps. They are in units of 2^-scale.
    pub fn turn(&self, block: u32) -> &[i32]
        requires block { IsBlockSize block }
        ensures values { result.now ≡ turn_of self.now.cosines block }
        ensures count { length result.now ≡ 2 * block }
        ensures small { All (λ c. unsigned_abs c ≤ 2 ^ self.now.scale) result.now }
    {
        self.turns[(block.ilog2() - LEAST_EXPONENT) as usize].items()
    }

    /// What the half sums of blocks of each size are made with.
    pub fn transforms(&self) -> &Transforms
        ensures { result.now ≡ self.now.cosines }
    {
        &self.transforms
    }

    /// The cosine of an odd number of steps, of which a block of this size has four times its size
    /// in a turn, in units of 2^-scale.
    pub fn cosq(&self, block: u32, t: u64) -> i64
        requires block { IsBlockSize block }
        requires odd { t % 2 ≡ 1 }
        ensures value { result ≡ cosq self.now block t }
        ensures small { unsigned_abs result ≤ 2 ^ self.now.scale }
    {
        let place = t % (4 * u64::from(block)) / 2;
        i64::from(self.turn(block)[place as usize])
    }
}
