ghost use Rattle.std.specs.Prelude.{◌≡◌, ◌≤◌, ◌<◌, length, Some, IfOk, OnOk, OnErr};
ghost use Rattle.std.specs.List.{All};
ghost use Rattle.model_bits.specs.Bits.{bits_of};
ghost use Rattle.model_bits.specs.Writing.{filled, bits_of_fields};
ghost use Rattle.model_bits.specs.Reading.{leaving};
ghost use Rattle.memory.specs.Answers.{Answers};
ghost use Rattle.model_setup.specs.SetupPacket.{framing_at, setup_at, setup_of, IsSetup};
ghost use Rattle.model_setup.specs.AudioHead.{long_flags_of};
ghost use Rattle.model_writing.specs.SetupWriting.{setup_fields};
ghost use Rattle.setup_fields.specs.Puts.{ArePut, HavePlaces, IsFrontOf};
ghost use Rattle.setup_header.specs.Setups.{mapping_of, AreReadAs, HasFewChannels};

use crate::faults::bad;
use crate::fields::read_field;
use crate::mapping::{Mapping, read_mappings, write_mappings};
use crate::mode::{Mode, read_modes, write_modes};
use crate::parts::{
    read_books, read_floors, read_residues, write_books, write_floors, write_residues,
};
use crate::start::{read_start, write_start};
use crate::submaps::Bounds;
use crate::time_transforms::{read_time_transforms, write_time_transforms};
use bit_reader::{Bits, BitsOut, NoMemory};
use codebooks::Book;
use floor_one::Floor;
use model_setup::{SetupCause, SetupFault};
use residues::Residue;
use setup_fields::put_flag;
use std::alloc::{AllocError, Global};
use std::marker::Model;

/// What stands in a setup packet.
#[derive(Drop)]
struct Parts {
    books: Vec<Book>,
    floors: Vec<Floor>,
    residues: Vec<Residue>,
    mappings: Vec<Mapping>,
    modes: Vec<Mode>,
}

impl Model for Parts {
    ghost use Rattle.model_setup.specs.SetupPacket.{SetupFields};

    ghost Value = { SetupFields };

    ghost view = { λ a. record {
      books = a.books.items;
      floors = a.floors.items;
      residues = a.residues.items;
      mappings = a.mappings.items;
      modes = a.modes.items;
    } };
}

/// The setup of a stream: the codebooks, floors, residues, mappings and modes by which its audio
/// packets are decoded (Vorbis I, section 4.2.4).
#[derive(Drop)]
pub struct Setup {
    parts: Parts,
    // the block flag of each mode
    long_flags: Vec<bool>,
}

impl Model for Setup {
    ghost use Rattle.std.specs.Prelude.{length};
    ghost use Rattle.model_setup.specs.SetupPacket.{SetupFields};
    ghost use Rattle.setup_header.specs.Setups.{IsSetupOf};

    ghost Value = { SetupFields };

    ghost view = { λ a. a.parts };

    ghost invariant = { λ a. IsSetupOf a.parts a.long_flags.items };
}

/// Reads the framing bit, which must be set.
#[tactic(auto, unfolding(model_setup::specs::SetupPacket::framing_at))]
fn read_framing(bits: &mut Bits) -> Result<(), SetupFault>
    ensures read { framing_at bits.old.left ≡ leaving bits.new.left (λ _. 0) result }
    ensures bytes { bits.new.total ≡ bits.old.total }
{
    if read_field(bits, 1)? == 0 {
        return Err(bad(SetupCause::Framing, 0));
    }
    Ok(())
}

/// The block flag of each mode.
fn long_flags(alloc: Global, modes: &[Mode]) -> Result<Vec<bool>, AllocError>
    ensures { IfOk result (λ v. v.items ≡ long_flags_of modes.now) }
{
    modes.iter().map(|mode| mode.long).collect(alloc)
}

/// Reads the parts of a setup of a stream of so many channels.
#[tactic(auto, unfolding(model_setup::specs::SetupPacket::setup_at))]
fn read_parts(alloc: Global, bits: &mut Bits, channels: u8) -> Result<Parts, SetupFault>
    requires some { 1 ≤ channels }
    requires few { channels ≤ 8 }
    ensures read { Answers SetupFault.Memory (λ parts. (parts, bits.new.left)) result
        (setup_at channels bits.old.left) }
    ensures whole { IfOk result (IsSetup channels) }
    ensures bytes { bits.new.total ≡ bits.old.total }
{
    read_start(bits)?;
    let books = read_books(alloc, bits)?;
    read_time_transforms(bits)?;
    let floors = read_floors(alloc, bits, books.len() as u32)?;
    let residues = read_residues(alloc, bits, &books)?;
    let bounds = Bounds {
        channels: u32::from(channels),
        floors: floors.len() as u32,
        residues: residues.len() as u32,
    };
    let mappings = read_mappings(alloc, bits, bounds)?;
    let modes = read_modes(alloc, bits, mappings.len() as u32)?;
    read_framing(bits)?;
    Ok(Parts {
        books,
        floors,
        residues,
        mappings,
        modes,
    })
}

impl Parts {
    /// Writes the parts of a setup.
    fn write(&self, out: &mut BitsOut) -> Result<(), NoMemory>
        requires few { All HasFewChannels self.now.mappings }
        requires fits { HavePlaces (setup_fields self.now) }
        ensures put { OnOk result (ArePut out.old out.new (setup_fields self.now)) }
        ensures kept { OnErr result (IsFrontOf out.old out.new) }
    {
        write_start(out)?;
        write_books(out, &self.books)?;
        write_time_transforms(out)?;
        write_floors(out, &self.floors)?;
        write_residues(out, &self.residues)?;
        write_mappings(out, &self.mappings)?;
        write_modes(out, &self.modes)?;
        put_flag(out, true)
    }
}

/// The bytes of a setup packet, which are read as this setup: the last byte is filled with 0.
pub fn setup_bytes(alloc: Global, setup: &Setup) -> Result<Vec<u8>, NoMemory>
    ensures written { IfOk result (λ v.
        bits_of v.items ≡ filled (bits_of_fields (setup_fields setup.now))) }
    ensures read { IfOk result (λ v. AreReadAs setup.now v.items) }
{
    let mut out = BitsOut::new(alloc);
    setup.parts.write(&mut out)?;
    Ok(out.done())
}

impl Setup {
    /// Reads the setup packet of a stream of 1 to 8 channels. What follows it in the packet is
    /// ignored. The first cause of a refusal in reading order is answered, with the number of its
    /// item, or `Memory`.
    pub fn read(alloc: Global, channels: u8, bytes: &[u8]) -> Result<Setup, SetupFault>
        requires some { 1 ≤ channels }
        requires few { channels ≤ 8 }
        ensures answers { Answers SetupFault.Memory (λ setup. setup) result
            (setup_of channels bytes.now) }
        ensures whole { IfOk result (IsSetup channels) }
    {
        let parts = read_parts(alloc, &mut Bits::new(bytes), channels)?;
        let long_flags = long_flags(alloc, &parts.modes)?;
        Ok(Setup { parts, long_flags })
    }

    /// The codebooks.
    pub fn books(&self) -> &[Book]
        ensures { result.now ≡ self.now.books }
    {
        &self.parts.books
    }

    /// The floors.
    pub fn floors(&self) -> &[Floor]
        ensures { result.now ≡ self.now.floors }
    {
        &self.parts.floors
    }

    /// The residues.
    pub fn residues(&self) -> &[Residue]
        ensures { result.now ≡ self.now.residues }
    {
        &self.parts.residues
    }

    /// The block flag of each mode: whether its blocks are long.
    pub fn long_flags(&self) -> &[bool]
        ensures { result.now ≡ long_flags_of self.now.modes }
    {
        &self.long_flags
    }

    /// The mapping of the mode of this number.
    pub fn mapping(&self, mode: u8) -> &Mapping
        requires { mode < length self.now.modes }
        ensures { mapping_of self.now mode ≡ Some result.now }
    {
        let mode = &self.parts.modes[usize::from(mode)];
        &self.parts.mappings[usize::from(mode.mapping)]
    }
}
