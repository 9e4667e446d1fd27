ghost use Rattle.std.specs.Prelude.{◌≡◌, ◌<◌, ◌+◌, ◌*◌, [], ◌∷◌, ◌++◌, length, slice_index, OnOk, OnErr, take};
ghost use Rattle.std.specs.List.{flat_map};
ghost use Rattle.hex.specs.Hex.{lower_digits, encode_lower};
ghost use Rattle.model_line.specs.FrameBytes.{sample_bytes};
ghost use Rattle.player_script.specs.Fronts.{IsFrontOf};

use lap_window::pcm;
use memory::NoMemory;

/// The digit of a number below 16 in lower-case hexadecimal.
fn digit(number: u8) -> u8
    requires { number < 16 }
    ensures { result ≡ slice_index lower_digits number }
{
    if number < 10 {
        b'0' + number
    } else {
        b'a' + (number - 10)
    }
}

/// The two bytes of a value's sample, the lower first, in lower-case hexadecimal.
#[tactic(auto, unfolding(hex::specs::Hex::encode_with))]
fn sample_digits(value: i64) -> [u8; 4]
    ensures { result ≡ encode_lower (sample_bytes value) }
{
    let [low, high] = pcm(value).to_le_bytes();
    [
        digit(low / 16),
        digit(low % 16),
        digit(high / 16),
        digit(high % 16),
    ]
}

/// Writes the samples of values behind what `out` has. Where no memory is found, a front of them is
/// there.
pub fn write_samples(values: &[i64], out: &mut Vec<u8>) -> Result<(), NoMemory>
    ensures ok { OnOk result
        (out.new.items ≡ out.old.items ++ encode_lower (flat_map sample_bytes values.now)) }
    ensures err { OnErr result (IsFrontOf out.old.items out.new.items) }
{
    out.try_reserve(values.len().saturating_mul(4))?;
    for value in values {
        out.extend_from_slice(&sample_digits(*value))?;
    }
    Ok(())
}
