ghost use Rattle.std.specs.Prelude.{◌≡◌, ◌≤◌, ◌<◌, length, IfOk, OnOk, OnErr};
ghost use Rattle.std.specs.List.{All, flat_map};
ghost use Rattle.memory.specs.Answers.{Answers};
ghost use Rattle.model_setup.specs.SetupPacket.{each_number, mapping_at, mappings_at, IsMapping};
ghost use Rattle.model_writing.specs.SetupWriting.{counted_fields, mapping_fields};
ghost use Rattle.setup_fields.specs.Puts.{ArePut, HavePlaces, IsFrontOf};
ghost use Rattle.setup_header.specs.Setups.{HasFewChannels};

use crate::couplings::{read_couplings, write_each_coupling};
use crate::faults::bad;
use crate::fields::{read_count, read_count_if_flagged, read_zero};
use crate::mux::{read_mux, write_mux};
use crate::submaps::{Bounds, Submap, read_submaps, write_each_submap};
use bit_reader::{Bits, BitsOut, NoMemory};
use model_setup::{Coupling, SetupCause, SetupFault};
use setup_fields::{put_count, put_flagged_count, put_number};
use std::alloc::Global;
use std::marker::Model;

/// A mapping: how the channels of a block are coupled, and which floor and residue each has (Vorbis
/// I, section 4.2.4).
#[derive(Debug, Drop)]
pub struct Mapping {
    couplings: Vec<Coupling>,
    mux: Vec<u8>,
    submaps: Vec<Submap>,
}

impl Model for Mapping {
    ghost use Rattle.model_setup.specs.SetupPacket.{Mapping as MappingFields};

    ghost Value = { MappingFields };

    ghost view = { λ a. record {
      couplings = a.couplings.items;
      mux = a.mux.items;
      submaps = a.submaps.items;
    } };
}

impl Mapping {
    /// The coupling steps, in the order in which they stand in the packet; a decoder undoes the
    /// last one first.
    pub fn couplings(&self) -> &[Coupling]
        ensures { result.now ≡ self.now.couplings }
    {
        &self.couplings
    }

    /// The number of the submap of each channel.
    pub fn mux(&self) -> &[u8]
        ensures { result.now ≡ self.now.mux }
    {
        &self.mux
    }

    /// The submaps.
    pub fn submaps(&self) -> &[Submap]
        ensures { result.now ≡ self.now.submaps }
    {
        &self.submaps
    }
}

/// Reads the mapping of this number.
#[tactic(auto, unfolding(model_setup::specs::SetupPacket::mapping_at))]
fn read_mapping(
    alloc: Global,
    bits: &mut Bits,
    bounds: Bounds,
    number: u32,
) -> Result<Mapping, SetupFault>
    requires some { 0 < bounds.channels }
    requires few { bounds.channels ≤ 8 }
    requires floors { bounds.floors ≤ 256 }
    requires residues { bounds.residues ≤ 256 }
    ensures read { Answers SetupFault.Memory (λ mapping. (mapping, bits.new.left)) result
        (mapping_at bounds.channels bounds.floors bounds.residues number bits.old.left) }
    ensures mapping { IfOk result (IsMapping bounds.channels bounds.floors bounds.residues) }
    ensures bytes { bits.new.total ≡ bits.old.total }
{
    read_zero(bits, 16, bad(SetupCause::MappingKind, number))?;
    let count = read_count_if_flagged(bits, 4, 1)?;
    let fault = bad(SetupCause::MappingCoupling, number);
    let couplings = read_couplings(alloc, bits, bounds.channels, fault)?;
    read_zero(bits, 2, bad(SetupCause::MappingReserved, number))?;
    let fault = bad(SetupCause::MappingMux, number);
    let mux = read_mux(alloc, bits, bounds.channels, count, fault)?;
    let submaps = read_submaps(alloc, bits, bounds, number, count)?;
    Ok(Mapping {
        couplings,
        mux,
        submaps,
    })
}

/// Reads so many mappings.
fn read_each_mapping(
    alloc: Global,
    bits: &mut Bits,
    bounds: Bounds,
    count: u32,
) -> Result<Vec<Mapping>, SetupFault>
    requires some { 0 < bounds.channels }
    requires few { bounds.channels ≤ 8 }
    requires floors { bounds.floors ≤ 256 }
    requires residues { bounds.residues ≤ 256 }
    ensures read { Answers SetupFault.Memory (λ v. (v.items, bits.new.left)) result
        (each_number (mapping_at bounds.channels bounds.floors bounds.residues) count
        bits.old.left) }
    ensures count { IfOk result (λ v. length v.items ≡ count) }
    ensures mappings { IfOk result (λ v.
        All (IsMapping bounds.channels bounds.floors bounds.residues) v.items) }
    ensures bytes { bits.new.total ≡ bits.old.total }
{
    let mut mappings = Vec::new(alloc);
    for number in 0..count {
        let mapping = read_mapping(alloc, bits, bounds, number)?;
        mappings.push(mapping)?;
    }
    Ok(mappings)
}

/// Reads the mappings of a setup.
#[tactic(auto, unfolding(model_setup::specs::SetupPacket::mappings_at))]
pub fn read_mappings(
    alloc: Global,
    bits: &mut Bits,
    bounds: Bounds,
) -> Result<Vec<Mapping>, SetupFault>
    requires some { 0 < bounds.channels }
    requires few { bounds.channels ≤ 8 }
    requires floors { bounds.floors ≤ 256 }
    requires residues { bounds.residues ≤ 256 }
    ensures read { Answers SetupFault.Memory (λ v. (v.items, bits.new.left)) result
        (mappings_at bounds.channels bounds.floors bounds.residues bits.old.left) }
    ensures few { IfOk result (λ v. length v.items ≤ 64) }
    ensures mappings { IfOk result (λ v.
        All (IsMapping bounds.channels bounds.floors bounds.residues) v.items) }
    ensures bytes { bits.new.total ≡ bits.old.total }
{
    let count = read_count(bits, 6)?;
    read_each_mapping(alloc, bits, bounds, count)
}

/// Writes a mapping.
fn write_mapping(out: &mut BitsOut, mapping: &Mapping) -> Result<(), NoMemory>
    requires few { HasFewChannels mapping.now }
    requires fits { HavePlaces (mapping_fields mapping.now) }
    ensures put { OnOk result (ArePut out.old out.new (mapping_fields mapping.now)) }
    ensures kept { OnErr result (IsFrontOf out.old out.new) }
{
    put_number(out, 16, 0)?;
    put_flagged_count(out, 4, 1, mapping.submaps.len() as u32)?;
    put_flagged_count(out, 8, 0, mapping.couplings.len() as u32)?;
    write_each_coupling(out, mapping.mux.len() as u32, &mapping.couplings)?;
    put_number(out, 2, 0)?;
    write_mux(out, mapping.submaps.len(), &mapping.mux)?;
    write_each_submap(out, &mapping.submaps)
}

/// Writes each of these mappings.
fn write_each_mapping(out: &mut BitsOut, mappings: &[Mapping]) -> Result<(), NoMemory>
    requires few { All HasFewChannels mappings.now }
    requires fits { HavePlaces (flat_map mapping_fields mappings.now) }
    ensures put { OnOk result (ArePut out.old out.new (flat_map mapping_fields mappings.now)) }
    ensures kept { OnErr result (IsFrontOf out.old out.new) }
{
    for mapping in mappings {
        write_mapping(out, mapping)?;
    }
    Ok(())
}

/// Writes the mappings of a setup.
pub fn write_mappings(out: &mut BitsOut, mappings: &[Mapping]) -> Result<(), NoMemory>
    requires few { All HasFewChannels mappings.now }
    requires fits { HavePlaces (counted_fields 6 mapping_fields mappings.now) }
    ensures put { OnOk result
        (ArePut out.old out.new (counted_fields 6 mapping_fields mappings.now)) }
    ensures kept { OnErr result (IsFrontOf out.old out.new) }
{
    put_count(out, 6, mappings.len() as u32)?;
    write_each_mapping(out, mappings)
}
