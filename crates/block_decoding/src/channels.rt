ghost use Rattle.std.specs.Prelude.{◌≡◌, ◌*◌, length, map, take, drop, IfOk, IfSome};
ghost use Rattle.std.specs.List.{All};
ghost use Rattle.model_fixed.specs.Fixed.{IsWithinLimit};
ghost use Rattle.model_synthesis.specs.Coupling.{AreChannels};
ghost use Rattle.model_synthesis.specs.Spectrum.{IsBin};
ghost use Rattle.model_synthesis.specs.Transform.{IsBlockValue, transformed};
ghost use Rattle.model_synthesis.specs.Windows.{windowed};
ghost use Rattle.model_block.specs.PacketBlocks.{spectrum_of, all_values};
ghost use Rattle.block_decoding.specs.Shapes.{form_of, IsShape, AreHalves};

use crate::curves::Curve;
use constants_file::Constants;
use fixed_synthesis::{shape, transform};
use lap_window::{HalfBlock, window};
use memory::NoMemory;
use residues::Line;
use std::alloc::Global;

/// Which window a block has: whether it, the block before it and the next one are long, and the
/// size of short blocks.
#[derive(Clone, Copy)]
pub struct Shape {
    pub short: u32,
    pub long: bool,
    pub previous: bool,
    pub next: bool,
}

/// Both halves of a block, of each of its channels: values in units of 2^-20.
#[derive(Drop)]
pub struct HalvedBlock {
    /// The first halves.
    pub left: HalfBlock,
    /// The second halves.
    pub right: HalfBlock,
}

/// Writes the spectrum of a channel, which is silent without a curve.
fn write_spectrum(constants: &Constants, residue: &[i64], curve: &Option<Curve>, out: &mut [i64])
    requires curve { IfSome curve.now (λ bins. length bins ≡ length residue.now) }
    requires out { length out.old ≡ length residue.now }
    requires residue { All IsWithinLimit residue.now }
    ensures spectrum { out.new ≡ spectrum_of constants.now residue.now curve.now }
    ensures small { All IsBin out.new }
{
    match curve {
        Some(curve) => shape(constants, residue, curve.items(), out),
        None => out.fill(0),
    }
}

/// Makes the values of a channel from its spectrum, under the window of its block.
fn write_values(constants: &Constants, shape: Shape, spectrum: &[i64], out: &mut [i64])
    requires shape { IsShape shape (length spectrum.now) }
    requires out { length out.old ≡ 2 * length spectrum.now }
    requires bins { All IsBin spectrum.now }
    ensures values { out.new ≡ windowed constants.now (form_of shape (2 * length spectrum.now))
        (transformed constants.now spectrum.now) }
    ensures small { All IsBlockValue out.new }
{
    transform(constants, spectrum, out);
    window(
        constants,
        shape.short,
        shape.long,
        shape.previous,
        shape.next,
        out,
    );
}

/// Makes the values of all channels of a block from their residues, which are not coupled any more,
/// and their curves, both of so many bins (Vorbis I, sections 4.3.6, 4.3.7 and 4.3.1).
pub fn synthesize(
    alloc: Global,
    constants: &Constants,
    shape: Shape,
    residues: &[Line],
    curves: &[Option<Curve>],
    size: usize,
) -> Result<HalvedBlock, NoMemory>
    requires shape { IsShape shape size }
    requires residues { AreChannels size residues.now }
    requires count { length residues.now ≡ length curves.now }
    requires curves { All (λ curve. IfSome curve (λ bins. length bins ≡ size)) curves.now }
    ensures left { IfOk result (λ block. block.left ≡ map (take size)
        (all_values constants.now (form_of shape (2 * size)) residues.now curves.now)) }
    ensures right { IfOk result (λ block. block.right ≡ map (drop size)
        (all_values constants.now (form_of shape (2 * size)) residues.now curves.now)) }
    ensures small { IfOk result (λ block. AreHalves (length curves.now) size block) }
{
    let mut room = vec![in alloc; 0; 3 * size]?;
    let (spectrum, values) = room.split_at_mut(size);
    let mut left = Vec::with_capacity(alloc, curves.len())?;
    let mut right = Vec::with_capacity(alloc, curves.len())?;
    for channel in 0..curves.len() {
        let residue = residues[channel].items();
        write_spectrum(constants, residue, &curves[channel], spectrum);
        write_values(constants, shape, spectrum, values);
        let (first, second) = values.split_at(size);
        left.push(Line::of(first.to_vec(alloc)?))?;
        right.push(Line::of(second.to_vec(alloc)?))?;
    }
    Ok(HalvedBlock {
        left: HalfBlock::of(left),
        right: HalfBlock::of(right),
    })
}
