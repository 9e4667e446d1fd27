ghost use Rattle.std.specs.Prelude.{◌≡◌, ◌*◌, length};
ghost use Rattle.std.specs.List.{All};
ghost use Rattle.half_sums.specs.HalfSums.{AreHalfSums};
ghost use Rattle.model_setup.specs.HeaderPackets.{IsBlockSize};
ghost use Rattle.model_synthesis.specs.Spectrum.{IsBin};

use constants_file::Constants;

/// Makes half of the sums of a block from the spectrum of a channel, before their division (Vorbis
/// I, section 4.3.7): those of the first quarter of the block, and behind them those of the third.
/// The bins are in units of 2^-20, and the sums in units of 2^-43.
pub fn half_sums(constants: &Constants, spectrum: &[i64], sums: &mut [i64])
    requires size { IsBlockSize (2 * length spectrum.now) }
    requires sums { length sums.old ≡ length spectrum.now }
    requires bins { All IsBin spectrum.now }
    ensures { AreHalfSums constants.now.cosines spectrum.now sums.new }
{
    constants.transforms().half_sums(spectrum, sums);
}
