ghost use Rattle.std.specs.Prelude.{◌≡◌, ◌≤◌, ◌<◌, IfOk, OnOk, OnErr};
ghost use Rattle.std.specs.List.{All, flat_map};
ghost use Rattle.model_bits.specs.Reading.{leaving, times};
ghost use Rattle.memory.specs.Answers.{Answers};
ghost use Rattle.model_setup.specs.SetupPacket.{coupling_at, couplings_at, IsCoupling};
ghost use Rattle.model_writing.specs.SetupWriting.{coupling_fields};
ghost use Rattle.setup_fields.specs.Puts.{ArePut, HavePlaces, IsFrontOf};

use crate::fields::{read_count_if_flagged, read_number_below};
use bit_reader::{Bits, BitsOut, NoMemory};
use model_setup::{Coupling, SetupFault};
use setup_fields::put_number;
use std::alloc::Global;

/// Reads a coupling step between two of so many channels.
#[tactic(auto, unfolding(model_setup::specs::SetupPacket::coupling_at))]
fn read_coupling(bits: &mut Bits, channels: u32, fault: SetupFault) -> Result<Coupling, SetupFault>
    requires some { 0 < channels }
    requires few { channels ≤ 8 }
    ensures read { coupling_at channels fault bits.old.left
        ≡ leaving bits.new.left (λ coupling. coupling) result }
    ensures coupling { IfOk result (IsCoupling channels) }
    ensures bytes { bits.new.total ≡ bits.old.total }
{
    let width = u32::BITS - (channels - 1).leading_zeros();
    let magnitude = read_number_below(bits, width, channels, fault)?;
    let angle = read_number_below(bits, width, channels, fault)?;
    if angle == magnitude {
        return Err(fault);
    }
    Ok(Coupling { magnitude, angle })
}

/// Reads so many coupling steps.
fn read_each_coupling(
    alloc: Global,
    bits: &mut Bits,
    channels: u32,
    fault: SetupFault,
    count: u32,
) -> Result<Vec<Coupling>, SetupFault>
    requires some { 0 < channels }
    requires few { channels ≤ 8 }
    ensures read { Answers SetupFault.Memory (λ v. (v.items, bits.new.left)) result
        (times count (coupling_at channels fault) bits.old.left) }
    ensures couplings { IfOk result (λ v. All (IsCoupling channels) v.items) }
    ensures bytes { bits.new.total ≡ bits.old.total }
{
    let mut couplings = Vec::new(alloc);
    for _ in 0..count {
        let coupling = read_coupling(bits, channels, fault)?;
        couplings.push(coupling)?;
    }
    Ok(couplings)
}

/// Reads the coupling steps, if there are any.
#[tactic(auto, unfolding(model_setup::specs::SetupPacket::couplings_at))]
pub fn read_couplings(
    alloc: Global,
    bits: &mut Bits,
    channels: u32,
    fault: SetupFault,
) -> Result<Vec<Coupling>, SetupFault>
    requires some { 0 < channels }
    requires few { channels ≤ 8 }
    ensures read { Answers SetupFault.Memory (λ v. (v.items, bits.new.left)) result
        (couplings_at channels fault bits.old.left) }
    ensures couplings { IfOk result (λ v. All (IsCoupling channels) v.items) }
    ensures bytes { bits.new.total ≡ bits.old.total }
{
    let count = read_count_if_flagged(bits, 8, 0)?;
    read_each_coupling(alloc, bits, channels, fault, count)
}

/// Writes a coupling step between two of so many channels.
fn write_coupling(out: &mut BitsOut, channels: u32, coupling: &Coupling) -> Result<(), NoMemory>
    requires { HavePlaces (coupling_fields channels coupling.now) }
    ensures put { OnOk result (ArePut out.old out.new (coupling_fields channels coupling.now)) }
    ensures kept { OnErr result (IsFrontOf out.old out.new) }
{
    let width = u32::BITS - channels.saturating_sub(1).leading_zeros();
    put_number(out, width, u32::from(coupling.magnitude))?;
    put_number(out, width, u32::from(coupling.angle))
}

/// Writes each of these coupling steps.
pub fn write_each_coupling(
    out: &mut BitsOut,
    channels: u32,
    couplings: &[Coupling],
) -> Result<(), NoMemory>
    requires { HavePlaces (flat_map (coupling_fields channels) couplings.now) }
    ensures put { OnOk result
        (ArePut out.old out.new (flat_map (coupling_fields channels) couplings.now)) }
    ensures kept { OnErr result (IsFrontOf out.old out.new) }
{
    for coupling in couplings {
        write_coupling(out, channels, coupling)?;
    }
    Ok(())
}
