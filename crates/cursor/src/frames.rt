ghost use Rattle.std.specs.Prelude.{◌≡◌, ◌+◌, ◌*◌, ◌<◌, ◌≤◌, ◌++◌, ℕ, length, drop, IfOk, OnOk};
ghost use Rattle.std.specs.List.{All};
ghost use Rattle.model_line.specs.Origins.{overlap_len};
ghost use Rattle.model_line.specs.Blocks.{len_of, overlap_frame, IsHalfBlock};
ghost use Rattle.model_cursor.specs.FrameLists.{values_of};
ghost use Rattle.cursor.specs.Portions.{portion_frames, frames_from, FitsHalves, FitHalves, HasChannels};

use crate::portions::Portion;
use lap_window::{HalfBlock, overlap};
use memory::{NoMemory, Sequence};
use model_cursor::Frames;
use std::alloc::Global;

/// Adds the values of the frame of this number between two halves, one per channel.
fn push_frame(
    right: &[Sequence<i64>],
    left: &[Sequence<i64>],
    number: u32,
    values: &mut Vec<i64>,
) -> Result<(), NoMemory>
    requires right { IsHalfBlock (length left.now) right.now }
    requires left { IsHalfBlock (length left.now) left.now }
    requires number { number < overlap_len (2 * len_of right.now) (2 * len_of left.now) }
    ensures { OnOk result
        (values.new.items ≡ values.old.items ++ overlap_frame right.now left.now number) }
{
    for channel in 0..left.len() {
        let mut value = [0];
        let (first, second) = (right[channel].items(), left[channel].items());
        overlap(first, second, number, number + 1, &mut value);
        values.push(value[0])?;
    }
    Ok(())
}

/// Adds the values of the frames of a portion between two halves.
fn push_frames(
    right: &HalfBlock,
    left: &HalfBlock,
    portion: Portion,
    values: &mut Vec<i64>,
) -> Result<(), NoMemory>
    requires { FitsHalves right.now left.now portion }
    ensures { OnOk result (values.new.items
        ≡ values.old.items ++ values_of (portion_frames right.now left.now portion)) }
{
    for number in portion.from..portion.to {
        push_frame(right.items(), left.items(), number, values)?;
    }
    Ok(())
}

/// The values of the frames of portions, frame after frame, each portion between the next two
/// halves.
pub fn frames_of(
    alloc: Global,
    portions: &[Portion],
    halves: &[HalfBlock],
) -> Result<Vec<i64>, NoMemory>
    requires { FitHalves portions.now halves.now }
    ensures { IfOk result (λ values. values.items
        ≡ values_of (frames_from portions.now halves.now)) }
{
    let mut values = Vec::new(alloc);
    for (number, portion) in portions.iter().enumerate() {
        let (right, left) = (&halves[2 * number], &halves[2 * number + 1]);
        push_frames(right, left, *portion, &mut values)?;
    }
    Ok(values)
}

/// The halves behind those of so many portions.
pub fn halves_behind(halves: &[HalfBlock], portions: usize) -> &[HalfBlock]
    requires { 2 * portions ≤ length halves.now }
    ensures { result.now ≡ drop (2 * portions) halves.now }
{
    &halves[2 * portions..]
}

/// The frames of portions, of so many channels, each portion between the next two halves.
pub fn run_frames(
    alloc: Global,
    channels: u8,
    portions: &[Portion],
    halves: &[HalfBlock],
) -> Result<Frames, NoMemory>
    requires fit { FitHalves portions.now halves.now }
    requires some { 0 < channels }
    requires each { All (HasChannels channels) (frames_from portions.now halves.now) }
    ensures { IfOk result (λ frames. frames ≡ frames_from portions.now halves.now) }
{
    Ok(Frames::of(channels, frames_of(alloc, portions, halves)?))
}
