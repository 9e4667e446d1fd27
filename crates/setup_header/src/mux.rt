ghost use Rattle.std.specs.Prelude.{◌≡◌, ◌≤◌, ◌<◌, length, IfOk, OnOk, OnErr};
ghost use Rattle.std.specs.List.{All};
ghost use Rattle.model_bits.specs.Reading.{times};
ghost use Rattle.memory.specs.Answers.{Answers};
ghost use Rattle.model_setup.specs.SetupPacket.{number_below_at, mux_at};
ghost use Rattle.model_writing.specs.SetupWriting.{mux_fields};
ghost use Rattle.setup_fields.specs.Puts.{ArePut, HavePlaces, IsFrontOf};

use crate::fields::read_number_below;
use bit_reader::{Bits, BitsOut, NoMemory};
use model_setup::SetupFault;
use setup_fields::put_bytes;
use std::alloc::Global;

/// Reads the submap of each channel, of so many submaps.
fn read_each_mux(
    alloc: Global,
    bits: &mut Bits,
    channels: u32,
    submaps: u32,
    fault: SetupFault,
) -> Result<Vec<u8>, SetupFault>
    requires { submaps ≤ 256 }
    ensures read { Answers SetupFault.Memory (λ v. (v.items, bits.new.left)) result
        (times channels (number_below_at 4 submaps fault) bits.old.left) }
    ensures count { IfOk result (λ v. length v.items ≡ channels) }
    ensures below { IfOk result (λ v. All (λ submap. submap < submaps) v.items) }
    ensures bytes { bits.new.total ≡ bits.old.total }
{
    let mut mux = Vec::new(alloc);
    for _ in 0..channels {
        let submap = read_number_below(bits, 4, submaps, fault)?;
        mux.push(submap)?;
    }
    Ok(mux)
}

/// Reads the submap of each channel, which is told where there are several.
#[tactic(auto, unfolding(model_setup::specs::SetupPacket::mux_at))]
pub fn read_mux(
    alloc: Global,
    bits: &mut Bits,
    channels: u32,
    submaps: u32,
    fault: SetupFault,
) -> Result<Vec<u8>, SetupFault>
    requires some { 0 < submaps }
    requires few { submaps ≤ 256 }
    ensures read { Answers SetupFault.Memory (λ v. (v.items, bits.new.left)) result
        (mux_at channels submaps fault bits.old.left) }
    ensures count { IfOk result (λ v. length v.items ≡ channels) }
    ensures below { IfOk result (λ v. All (λ submap. submap < submaps) v.items) }
    ensures bytes { bits.new.total ≡ bits.old.total }
{
    if submaps > 1 {
        return read_each_mux(alloc, bits, channels, submaps, fault);
    }
    Ok(vec![in alloc; 0; channels as usize]?)
}

/// Writes the submap of each channel, where there are several.
pub fn write_mux(out: &mut BitsOut, submaps: usize, mux: &[u8]) -> Result<(), NoMemory>
    requires { HavePlaces (mux_fields submaps mux.now) }
    ensures put { OnOk result (ArePut out.old out.new (mux_fields submaps mux.now)) }
    ensures kept { OnErr result (IsFrontOf out.old out.new) }
{
    if submaps > 1 {
        return put_bytes(out, 4, mux);
    }
    Ok(())
}
