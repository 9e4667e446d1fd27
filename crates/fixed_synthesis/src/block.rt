ghost use Rattle.std.specs.Prelude.{◌≡◌, ◌≤◌, ◌*◌, length};
ghost use Rattle.std.specs.List.{All};
ghost use Rattle.model_setup.specs.HeaderPackets.{IsBlockSize};
ghost use Rattle.model_synthesis.specs.Spectrum.{IsBin};
ghost use Rattle.model_synthesis.specs.Transform.{IsBlockValue, transformed};

use crate::sums::half_sums;
use crate::unfolding::unfold_sums;
use constants_file::Constants;

/// A block is short where it has at most so many bins: it is worth less memory.
const SHORT_BINS: usize = 128;

/// The most bins of a block.
const MOST_BINS: usize = 4096;

/// Makes the values of a block over memory for half of its sums.
fn transform_over(constants: &Constants, spectrum: &[i64], sums: &mut [i64], out: &mut [i64])
    requires size { IsBlockSize (2 * length spectrum.now) }
    requires sums { length sums.old ≡ length spectrum.now }
    requires out { length out.old ≡ 2 * length spectrum.now }
    requires bins { All IsBin spectrum.now }
    ensures values { out.new ≡ transformed constants.now spectrum.now }
    ensures small { All IsBlockValue out.new }
{
    half_sums(constants, spectrum, sums);
    unfold_sums(sums, constants.scale(), out);
}

/// Makes the values of a short block.
fn transform_short(constants: &Constants, spectrum: &[i64], out: &mut [i64])
    requires size { IsBlockSize (2 * length spectrum.now) }
    requires short { length spectrum.now ≤ SHORT_BINS }
    requires out { length out.old ≡ 2 * length spectrum.now }
    requires bins { All IsBin spectrum.now }
    ensures values { out.new ≡ transformed constants.now spectrum.now }
    ensures small { All IsBlockValue out.new }
{
    let mut sums = [0i64; SHORT_BINS];
    transform_over(constants, spectrum, &mut sums[..spectrum.len()], out);
}

/// Makes the values of any block.
fn transform_long(constants: &Constants, spectrum: &[i64], out: &mut [i64])
    requires size { IsBlockSize (2 * length spectrum.now) }
    requires out { length out.old ≡ 2 * length spectrum.now }
    requires bins { All IsBin spectrum.now }
    ensures values { out.new ≡ transformed constants.now spectrum.now }
    ensures small { All IsBlockValue out.new }
{
    let mut sums = [0i64; MOST_BINS];
    transform_over(constants, spectrum, &mut sums[..spectrum.len()], out);
}

/// Makes the values of a block from the spectrum of a channel, before its window: the inverse
/// transform (Vorbis I, section 4.3.7). The block has two values for each bin, in units of 2^-20 as
/// the bins.
pub fn transform(constants: &Constants, spectrum: &[i64], out: &mut [i64])
    requires size { IsBlockSize (2 * length spectrum.now) }
    requires out { length out.old ≡ 2 * length spectrum.now }
    requires bins { All IsBin spectrum.now }
    ensures values { out.new ≡ transformed constants.now spectrum.now }
    ensures small { All IsBlockValue out.new }
{
    if spectrum.len() <= SHORT_BINS {
        transform_short(constants, spectrum, out);
    } else {
        transform_long(constants, spectrum, out);
    }
}
