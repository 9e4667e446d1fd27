ghost use Rattle.std.specs.Prelude.{◌≡◌, ◌-◌, ◌^◌, ◌<◌, ◌≤◌, ◌++◌, [], length, replicate, IfOk, OnOk};
ghost use Rattle.model_synthesis.specs.Tables.{AreTables, slope};
ghost use Rattle.model_cursor.specs.FrameLists.{values_of};
ghost use Rattle.model_cursor.specs.Splices.{weight, mixed, mixed_frame, mixed_from};

use constants_file::Constants;
use memory::NoMemory;
use model_cursor::Frames;
use model_line::LARGEST_BLOCK;
use model_synthesis::SMALLEST_SLOPE;
use std::alloc::Global;

/// How many values the longest slope has, half as many as the longest block.
const LONGEST_SLOPE: u32 = LARGEST_BLOCK / 2;

/// The value at a place of the slope of so many values. Where no slope has so many, it is that of
/// the next longer one, and 0 where there is none.
fn slope(constants: &Constants, frames: u32, place: u32) -> u32
    requires right { AreTables constants.now }
    requires place { place < frames }
    ensures value { result ≡ slope constants.now frames place }
    ensures small { result ≤ 2 ^ constants.now.scale }
{
    if frames > LONGEST_SLOPE {
        return 0;
    }
    let size = frames.next_power_of_two().max(SMALLEST_SLOPE);
    constants.slope(size, place)
}

/// The weight of the new side in the frame of this number, among so many.
fn weight(constants: &Constants, frames: u32, number: u32) -> u32
    requires { number < frames }
    ensures value { result ≡ weight constants.now frames number }
    ensures small { result ≤ 2 ^ constants.now.scale }
{
    let scale = constants.scale();
    let slope = u64::from(slope(constants, frames, number));
    ((slope * slope) >> scale) as u32
}

/// The old and the new value by the weight of the new one and its rest, rounded down.
fn mixed(constants: &Constants, weight: u32, old: i64, new: i64) -> i64
    requires { weight ≤ 2 ^ constants.now.scale }
    ensures { result ≡ mixed constants.now weight old new }
{
    let scale = constants.scale();
    let rest = (1 << scale) - weight;
    let sum = i128::from(new) * i128::from(weight) + i128::from(old) * i128::from(rest);
    (sum >> scale) as i64
}

/// Adds the values of a frame of the new side, each mixed with that of the same channel of the old
/// one, which is silent in the channels that it lacks.
fn push_mixed(
    constants: &Constants,
    weight: u32,
    old: &[i64],
    new: &[i64],
    values: &mut Vec<i64>,
) -> Result<(), NoMemory>
    requires { weight ≤ 2 ^ constants.now.scale }
    ensures { OnOk result (values.new.items
        ≡ values.old.items ++ mixed_frame constants.now weight old.now new.now) }
{
    for channel in 0..new.len() {
        let before = old.get(channel).copied().unwrap_or(0);
        values.push(mixed(constants, weight, before, new[channel]))?;
    }
    Ok(())
}

/// The values of the frames of the new side, each mixed with the same one of the old side, which is
/// silent behind its last, in a splice of so many frames.
pub fn mix(
    alloc: Global,
    constants: &Constants,
    frames: u32,
    old: &Frames,
    new: &Frames,
) -> Result<Vec<i64>, NoMemory>
    requires { length new.now ≤ frames }
    ensures { IfOk result (λ values. values.items ≡ values_of (mixed_from constants.now frames 0
        (old.now ++ replicate (frames - length old.now) []) new.now)) }
{
    let mut values = Vec::new(alloc);
    for number in 0..new.count() {
        let weight = weight(constants, frames, number as u32);
        let (before, after) = (old.frame(number), new.frame(number));
        push_mixed(constants, weight, before, after, &mut values)?;
    }
    Ok(values)
}
