ghost use Rattle.std.specs.Prelude.{◌≡◌, ◌≤◌, ◌<◌, length, IfOk, OnOk, OnErr};
ghost use Rattle.std.specs.List.{All, flat_map};
ghost use Rattle.model_bits.specs.Reading.{leaving};
ghost use Rattle.memory.specs.Answers.{Answers};
ghost use Rattle.model_setup.specs.SetupPacket.{each_number, mode_at, modes_at, Mode as ModeFields};
ghost use Rattle.model_writing.specs.SetupWriting.{counted_fields, mode_fields};
ghost use Rattle.setup_fields.specs.Puts.{ArePut, HavePlaces, IsFrontOf};

use crate::faults::bad;
use crate::fields::{read_count, read_field, read_number_below, read_zero};
use bit_reader::{Bits, BitsOut, NoMemory};
use model_setup::{SetupCause, SetupFault};
use setup_fields::{put_count, put_flag, put_number};
use std::alloc::Global;
use std::marker::Model;

/// A mode: whether its blocks are long, and the number of its mapping (Vorbis I, section 4.2.4).
#[derive(Debug, Drop)]
pub struct Mode {
    pub long: bool,
    pub mapping: u8,
}

impl Model for Mode {
    ghost use Rattle.model_setup.specs.SetupPacket.{Mode as ModeFields};

    ghost Value = { ModeFields };

    ghost view = { λ a. record { long = a.long; mapping = a.mapping } };
}

/// Reads the mode of this number, in a setup of so many mappings.
#[tactic(auto, unfolding(model_setup::specs::SetupPacket::mode_at))]
fn read_mode(bits: &mut Bits, mappings: u32, number: u32) -> Result<Mode, SetupFault>
    requires { mappings ≤ 256 }
    ensures read { mode_at mappings number bits.old.left
        ≡ leaving bits.new.left (λ mode. mode) result }
    ensures mapping { IfOk result (λ (mode : ModeFields). mode.mapping < mappings) }
    ensures bytes { bits.new.total ≡ bits.old.total }
{
    let flag = read_field(bits, 1)?;
    read_zero(bits, 16, bad(SetupCause::ModeWindow, number))?;
    read_zero(bits, 16, bad(SetupCause::ModeTransform, number))?;
    let fault = bad(SetupCause::ModeMapping, number);
    let mapping = read_number_below(bits, 8, mappings, fault)?;
    Ok(Mode {
        long: flag == 1,
        mapping,
    })
}

/// Reads so many modes.
fn read_each_mode(
    alloc: Global,
    bits: &mut Bits,
    mappings: u32,
    count: u32,
) -> Result<Vec<Mode>, SetupFault>
    requires { mappings ≤ 256 }
    ensures read { Answers SetupFault.Memory (λ v. (v.items, bits.new.left)) result
        (each_number (mode_at mappings) count bits.old.left) }
    ensures count { IfOk result (λ v. length v.items ≡ count) }
    ensures named { IfOk result (λ v.
        All (λ (mode : ModeFields). mode.mapping < mappings) v.items) }
    ensures bytes { bits.new.total ≡ bits.old.total }
{
    let mut modes = Vec::new(alloc);
    for number in 0..count {
        let mode = read_mode(bits, mappings, number)?;
        modes.push(mode)?;
    }
    Ok(modes)
}

/// Reads the modes of a setup of so many mappings.
#[tactic(auto, unfolding(model_setup::specs::SetupPacket::modes_at))]
pub fn read_modes(alloc: Global, bits: &mut Bits, mappings: u32) -> Result<Vec<Mode>, SetupFault>
    requires { mappings ≤ 256 }
    ensures read { Answers SetupFault.Memory (λ v. (v.items, bits.new.left)) result
        (modes_at mappings bits.old.left) }
    ensures some { IfOk result (λ v. 0 < length v.items) }
    ensures few { IfOk result (λ v. length v.items ≤ 64) }
    ensures named { IfOk result (λ v.
        All (λ (mode : ModeFields). mode.mapping < mappings) v.items) }
    ensures bytes { bits.new.total ≡ bits.old.total }
{
    let count = read_count(bits, 6)?;
    read_each_mode(alloc, bits, mappings, count)
}

/// Writes a mode.
fn write_mode(out: &mut BitsOut, mode: &Mode) -> Result<(), NoMemory>
    requires { HavePlaces (mode_fields mode.now) }
    ensures put { OnOk result (ArePut out.old out.new (mode_fields mode.now)) }
    ensures kept { OnErr result (IsFrontOf out.old out.new) }
{
    put_flag(out, mode.long)?;
    put_number(out, 16, 0)?;
    put_number(out, 16, 0)?;
    put_number(out, 8, u32::from(mode.mapping))
}

/// Writes each of these modes.
fn write_each_mode(out: &mut BitsOut, modes: &[Mode]) -> Result<(), NoMemory>
    requires { HavePlaces (flat_map mode_fields modes.now) }
    ensures put { OnOk result (ArePut out.old out.new (flat_map mode_fields modes.now)) }
    ensures kept { OnErr result (IsFrontOf out.old out.new) }
{
    for mode in modes {
        write_mode(out, mode)?;
    }
    Ok(())
}

/// Writes the modes of a setup.
pub fn write_modes(out: &mut BitsOut, modes: &[Mode]) -> Result<(), NoMemory>
    requires { HavePlaces (counted_fields 6 mode_fields modes.now) }
    ensures put { OnOk result (ArePut out.old out.new (counted_fields 6 mode_fields modes.now)) }
    ensures kept { OnErr result (IsFrontOf out.old out.new) }
{
    put_count(out, 6, modes.len() as u32)?;
    write_each_mode(out, modes)
}
