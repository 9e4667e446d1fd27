ghost use Rattle.std.specs.Prelude.{◌≡◌, ◌<◌, ◌*◌, length, map, IfOk, OnOk};
ghost use Rattle.std.specs.List.{All};
ghost use Rattle.model_fixed.specs.Fixed.{IsWithinLimit};
ghost use Rattle.model_setup.specs.ResidueSetup.{FitsBooks};
ghost use Rattle.model_setup.specs.ResidueDecoding.{residue_vectors};
ghost use Rattle.model_setup.specs.SetupPacket.{IsMapping};
ghost use Rattle.model_synthesis.specs.Coupling.{AreChannels};
ghost use Rattle.model_block.specs.PacketParts.{is_flagged, channels_of, replaced, channel_residues};

use bit_reader::Bits;
use codebooks::Book;
use memory::NoMemory;
use residues::{Line, Residue, zero_lines};
use setup_header::{Mapping, Setup};
use std::alloc::Global;

/// The channels of a submap, in their order.
fn channels_of(alloc: Global, mux: &[u8], number: usize) -> Result<Vec<usize>, NoMemory>
    ensures channels { IfOk result (λ v. v.items ≡ channels_of mux.now number) }
    ensures there { IfOk result (λ v. All (λ channel. channel < length mux.now) v.items) }
{
    let mut channels = Vec::new(alloc);
    for channel in 0..mux.len() {
        if usize::from(mux[channel]) == number {
            channels.push(channel)?;
        }
    }
    Ok(channels)
}

/// The flags of some channels.
fn flags_of(alloc: Global, flags: &[bool], channels: &[usize]) -> Result<Vec<bool>, NoMemory>
    requires { All (λ channel. channel < length flags.now) channels.now }
    ensures { IfOk result (λ v. v.items ≡ map (is_flagged flags.now) channels.now) }
{
    let mut some = Vec::with_capacity(alloc, channels.len())?;
    for channel in channels {
        some.push(flags[*channel])?;
    }
    Ok(some)
}

/// Reads the vectors of a residue, of which those that are wanted are read, into lines of so many
/// values.
fn read_lines(
    alloc: Global,
    bits: &mut Bits,
    books: &[Book],
    residue: &Residue,
    wanted: &[bool],
    size: usize,
) -> Result<Vec<Line>, NoMemory>
    requires { FitsBooks books.now residue.now }
    ensures read { IfOk result (λ v. (v.items, bits.new.left)
        ≡ residue_vectors books.now residue.now size wanted.now bits.old.left) }
    ensures count { IfOk result (λ v. length v.items ≡ length wanted.now) }
    ensures sizes { IfOk result (λ v. All (λ line. length line ≡ size) v.items) }
    ensures small { IfOk result (λ v. All (All IsWithinLimit) v.items) }
    ensures bytes { bits.new.total ≡ bits.old.total }
{
    let mut lines = zero_lines(alloc, wanted.len(), size)?;
    residue.decode(alloc, bits, books, wanted, &mut lines)?;
    Ok(lines)
}

/// Puts lines in place of those of some channels, of which there are few.
fn replace(all: &mut [Line], channels: &[usize], mut lines: Vec<Line>)
    requires there { All (λ channel. channel < length all.old) channels.now }
    requires count { length lines.items ≡ length channels.now }
    ensures { all.new ≡ replaced all.old channels.now lines.items }
{
    for channel in channels {
        all[*channel] = lines.remove(0);
    }
}

/// Reads the residues of all channels, submap after submap, into lines of so many values (Vorbis I,
/// section 4.3.4).
pub fn read_residues(
    alloc: Global,
    bits: &mut Bits,
    setup: &Setup,
    mapping: &Mapping,
    wanted: &[bool],
    size: usize,
) -> Result<Vec<Line>, NoMemory>
    requires books { All (FitsBooks setup.now.books) setup.now.residues }
    requires mapping { IsMapping (length mapping.now.mux) (length setup.now.floors)
        (length setup.now.residues) mapping.now }
    requires wanted { length wanted.now ≡ length mapping.now.mux }
    ensures read { IfOk result (λ v. (v.items, bits.new.left)
        ≡ channel_residues setup.now mapping.now size wanted.now bits.old.left) }
    ensures count { IfOk result (λ v. length v.items ≡ length mapping.now.mux) }
    ensures channels { IfOk result (λ v. AreChannels size v.items) }
    ensures bytes { bits.new.total ≡ bits.old.total }
{
    let submaps = mapping.submaps();
    let residues = setup.residues();
    let mut all = zero_lines(alloc, mapping.mux().len(), 0)?;
    for number in 0..submaps.len() {
        let channels = channels_of(alloc, mapping.mux(), number)?;
        let flags = flags_of(alloc, wanted, &channels)?;
        let submap = &submaps[number];
        let residue = &residues[usize::from(submap.residue)];
        let lines = read_lines(alloc, bits, setup.books(), residue, &flags, size)?;
        replace(&mut all, &channels, lines);
    }
    Ok(all)
}
