ghost use Rattle.std.specs.Prelude.{◌≡◌, ◌≤◌, length, IfOk, OnOk, OnErr};
ghost use Rattle.std.specs.List.{All, flat_map};
ghost use Rattle.model_bits.specs.Reading.{leaving, times};
ghost use Rattle.memory.specs.Answers.{Answers};
ghost use Rattle.model_setup.specs.SetupPacket.{submap_at, IsSubmap};
ghost use Rattle.model_writing.specs.SetupWriting.{submap_fields};
ghost use Rattle.setup_fields.specs.Puts.{ArePut, HavePlaces, IsFrontOf};

use crate::faults::bad;
use crate::fields::{read_field, read_number_below};
use bit_reader::{Bits, BitsOut, NoMemory};
use model_setup::{SetupCause, SetupFault};
use setup_fields::put_number;
use std::alloc::Global;
use std::marker::Model;

/// A submap: the floor and the residue of its channels (Vorbis I, section 4.2.4).
#[derive(Debug, Drop)]
pub struct Submap {
    /// The number of the floor.
    pub floor: u8,
    /// The number of the residue.
    pub residue: u8,
}

impl Model for Submap {
    ghost use Rattle.model_setup.specs.SetupPacket.{Submap as SubmapFields};

    ghost Value = { SubmapFields };

    ghost view = { λ a. record { floor = a.floor; residue = a.residue } };
}

/// What the numbers that a mapping names must be below: how many there are of each.
#[derive(Clone, Copy)]
pub struct Bounds {
    pub channels: u32,
    pub floors: u32,
    pub residues: u32,
}

/// Reads a submap of the mapping of this number, behind a placeholder.
#[tactic(auto, unfolding(model_setup::specs::SetupPacket::submap_at))]
fn read_submap(bits: &mut Bits, bounds: Bounds, number: u32) -> Result<Submap, SetupFault>
    requires floors { bounds.floors ≤ 256 }
    requires residues { bounds.residues ≤ 256 }
    ensures read { submap_at bounds.floors bounds.residues number bits.old.left
        ≡ leaving bits.new.left (λ submap. submap) result }
    ensures submap { IfOk result (IsSubmap bounds.floors bounds.residues) }
    ensures bytes { bits.new.total ≡ bits.old.total }
{
    read_field(bits, 8)?;
    let fault = bad(SetupCause::MappingFloor, number);
    let floor = read_number_below(bits, 8, bounds.floors, fault)?;
    let fault = bad(SetupCause::MappingResidue, number);
    let residue = read_number_below(bits, 8, bounds.residues, fault)?;
    Ok(Submap { floor, residue })
}

/// Reads so many submaps of the mapping of this number.
pub fn read_submaps(
    alloc: Global,
    bits: &mut Bits,
    bounds: Bounds,
    number: u32,
    count: u32,
) -> Result<Vec<Submap>, SetupFault>
    requires floors { bounds.floors ≤ 256 }
    requires residues { bounds.residues ≤ 256 }
    ensures read { Answers SetupFault.Memory (λ v. (v.items, bits.new.left)) result
        (times count (submap_at bounds.floors bounds.residues number) bits.old.left) }
    ensures count { IfOk result (λ v. length v.items ≡ count) }
    ensures submaps { IfOk result (λ v. All (IsSubmap bounds.floors bounds.residues) v.items) }
    ensures bytes { bits.new.total ≡ bits.old.total }
{
    let mut submaps = Vec::new(alloc);
    for _ in 0..count {
        let submap = read_submap(bits, bounds, number)?;
        submaps.push(submap)?;
    }
    Ok(submaps)
}

/// Writes a submap, behind a placeholder.
fn write_submap(out: &mut BitsOut, submap: &Submap) -> Result<(), NoMemory>
    requires { HavePlaces (submap_fields submap.now) }
    ensures put { OnOk result (ArePut out.old out.new (submap_fields submap.now)) }
    ensures kept { OnErr result (IsFrontOf out.old out.new) }
{
    put_number(out, 8, 0)?;
    put_number(out, 8, u32::from(submap.floor))?;
    put_number(out, 8, u32::from(submap.residue))
}

/// Writes each of these submaps.
pub fn write_each_submap(out: &mut BitsOut, submaps: &[Submap]) -> Result<(), NoMemory>
    requires { HavePlaces (flat_map submap_fields submaps.now) }
    ensures put { OnOk result (ArePut out.old out.new (flat_map submap_fields submaps.now)) }
    ensures kept { OnErr result (IsFrontOf out.old out.new) }
{
    for submap in submaps {
        write_submap(out, submap)?;
    }
    Ok(())
}
