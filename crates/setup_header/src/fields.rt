ghost use Rattle.std.specs.Prelude.{◌≡◌, ◌≤◌, ◌<◌, ◌^◌, IfOk};
ghost use Rattle.model_bits.specs.Reading.{leaving};
ghost use Rattle.model_setup.specs.SetupPacket.{setup_field, count_at, count_if_flagged_at, number_below_at, zero_at};

use crate::faults::END;
use bit_reader::Bits;
use model_setup::SetupFault;

/// Reads a number of so many bits.
pub fn read_field(bits: &mut Bits, width: u32) -> Result<u32, SetupFault>
    requires { width ≤ 32 }
    ensures read { setup_field width bits.old.left ≡ leaving bits.new.left (λ n. n) result }
    ensures below { IfOk result (λ n. n < 2 ^ width) }
    ensures bytes { bits.new.total ≡ bits.old.total }
{
    bits.take(width).ok_or(END)
}

/// Reads a count, which stands there less one.
#[tactic(auto, unfolding(model_setup::specs::SetupPacket::count_at))]
pub fn read_count(bits: &mut Bits, width: u32) -> Result<u32, SetupFault>
    requires { width ≤ 8 }
    ensures read { count_at width bits.old.left ≡ leaving bits.new.left (λ n. n) result }
    ensures some { IfOk result (λ n. 0 < n) }
    ensures few { IfOk result (λ n. n ≤ 2 ^ width) }
    ensures bytes { bits.new.total ≡ bits.old.total }
{
    let n = read_field(bits, width)?;
    Ok(n + 1)
}

/// Reads a count behind a flag; where the flag isn't set, the count is another, 0 or 1.
#[tactic(auto, unfolding(model_setup::specs::SetupPacket::count_if_flagged_at))]
pub fn read_count_if_flagged(bits: &mut Bits, width: u32, other: u32) -> Result<u32, SetupFault>
    requires width { width ≤ 8 }
    requires other { other ≤ 1 }
    ensures read { count_if_flagged_at width other bits.old.left
        ≡ leaving bits.new.left (λ n. n) result }
    ensures least { IfOk result (λ n. other ≤ n) }
    ensures few { IfOk result (λ n. n ≤ 2 ^ width) }
    ensures bytes { bits.new.total ≡ bits.old.total }
{
    let flag = read_field(bits, 1)?;
    if flag == 1 {
        read_count(bits, width)
    } else {
        Ok(other)
    }
}

/// Reads a number that must be below a bound, or the fault is this one.
#[tactic(auto, unfolding(model_setup::specs::SetupPacket::number_below_at))]
pub fn read_number_below(
    bits: &mut Bits,
    width: u32,
    bound: u32,
    fault: SetupFault,
) -> Result<u8, SetupFault>
    requires width { width ≤ 32 }
    requires small { bound ≤ 256 }
    ensures read { number_below_at width bound fault bits.old.left
        ≡ leaving bits.new.left (λ n. n) result }
    ensures below { IfOk result (λ n. n < bound) }
    ensures bytes { bits.new.total ≡ bits.old.total }
{
    let n = read_field(bits, width)?;
    if n >= bound {
        return Err(fault);
    }
    Ok(n as u8)
}

/// Reads a number that must be 0, or the fault is this one.
#[tactic(auto, unfolding(model_setup::specs::SetupPacket::zero_at))]
pub fn read_zero(bits: &mut Bits, width: u32, fault: SetupFault) -> Result<(), SetupFault>
    requires { width ≤ 32 }
    ensures read { zero_at width fault bits.old.left ≡ leaving bits.new.left (λ _. 0) result }
    ensures bytes { bits.new.total ≡ bits.old.total }
{
    let n = read_field(bits, width)?;
    if n != 0 {
        return Err(fault);
    }
    Ok(())
}
