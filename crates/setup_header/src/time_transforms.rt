ghost use Rattle.std.specs.Prelude.{◌≡◌, ◌++◌, OnOk, OnErr, replicate};
ghost use Rattle.model_bits.specs.Reading.{leaving};
ghost use Rattle.model_setup.specs.SetupPacket.{each_number, zero_at, times_at};
ghost use Rattle.model_bits.specs.Writing.{in_bits};
ghost use Rattle.setup_fields.specs.Puts.{ArePut, IsFrontOf};

use crate::faults::bad;
use crate::fields::{read_count, read_zero};
use bit_reader::{Bits, BitsOut, NoMemory};
use model_setup::{SetupCause, SetupFault};
use setup_fields::put_number;

/// Reads so many time domain transforms, each of which must be 0.
fn read_each_time_transform(bits: &mut Bits, count: u32) -> Result<(), SetupFault>
    ensures read { each_number (λ number. zero_at 16 (SetupFault.Bad SetupCause.Time number)) count
        bits.old.left ≡ leaving bits.new.left (λ _. replicate count 0) result }
    ensures bytes { bits.new.total ≡ bits.old.total }
{
    for number in 0..count {
        read_zero(bits, 16, bad(SetupCause::Time, number))?;
    }
    Ok(())
}

/// Reads the time domain transforms, which are placeholders, and tells how many there are.
#[tactic(auto, unfolding(model_setup::specs::SetupPacket::times_at))]
pub fn read_time_transforms(bits: &mut Bits) -> Result<u32, SetupFault>
    ensures read { times_at bits.old.left
        ≡ leaving bits.new.left (λ count. replicate count 0) result }
    ensures bytes { bits.new.total ≡ bits.old.total }
{
    let count = read_count(bits, 6)?;
    read_each_time_transform(bits, count)?;
    Ok(count)
}

/// Writes one time domain transform.
pub fn write_time_transforms(out: &mut BitsOut) -> Result<(), NoMemory>
    ensures put { OnOk result (ArePut out.old out.new (in_bits 6 0 ++ in_bits 16 0)) }
    ensures kept { OnErr result (IsFrontOf out.old out.new) }
{
    put_number(out, 6, 0)?;
    put_number(out, 16, 0)
}
