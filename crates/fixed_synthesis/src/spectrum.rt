ghost use Rattle.std.specs.Prelude.{◌≡◌, ◌≤◌, ◌*ℤ◌, pos, length};
ghost use Rattle.std.specs.List.{All};
ghost use Rattle.model_fixed.specs.Fixed.{IsWithinLimit, clamp, shift_down};
ghost use Rattle.model_synthesis.specs.declared.constants.TheConstants.{GREATEST_DECIBEL};
ghost use Rattle.model_synthesis.specs.declared.limits.TheConstants.{SHAPE_SHIFT, SPECTRUM_LIMIT};
ghost use Rattle.model_synthesis.specs.Spectrum.{IsBin, shaped};

use constants_file::Constants;
use model_synthesis::{SHAPE_SHIFT, SPECTRUM_LIMIT};

/// What bins are limited to, on both sides.
const LIMIT: i64 = SPECTRUM_LIMIT as i64;

/// The bin that a value of a residue and a decibel value make.
fn shaped_bin(value: i64, decibel: u32) -> i64
    requires value { IsWithinLimit value }
    requires decibel { decibel ≤ GREATEST_DECIBEL }
    ensures bin { result ≡ clamp SPECTRUM_LIMIT (shift_down (value *ℤ pos decibel) SHAPE_SHIFT) }
    ensures small { IsBin result }
{
    let product = value * i64::from(decibel);
    (product >> SHAPE_SHIFT).clamp(-LIMIT, LIMIT)
}

/// Multiplies a residue by a floor's curve: the spectrum of a channel, in units of 2^-20, each bin
/// rounded down and limited to 2^27 on both sides (Vorbis I, section 4.3.6).
pub fn shape(constants: &Constants, residue: &[i64], curve: &[u8], out: &mut [i64])
    requires curve { length curve.now ≡ length residue.now }
    requires out { length out.old ≡ length residue.now }
    requires residue { All IsWithinLimit residue.now }
    ensures spectrum { out.new ≡ shaped constants.now residue.now curve.now }
    ensures small { All IsBin out.new }
{
    for k in 0..residue.len() {
        out[k] = shaped_bin(residue[k], constants.decibel(curve[k]));
    }
}
