ghost use Rattle.std.specs.Prelude.{◌≡◌, ◌≤◌, ◌++◌, OnOk, IfOk};
ghost use Rattle.std.specs.List.{All};
ghost use Rattle.model_bits.specs.Bits.{bits_of};
ghost use Rattle.model_bits.specs.Writing.{filled};
ghost use Rattle.model_trial.specs.MadeSetup.{made_setup};
ghost use Rattle.model_trial.specs.MadeFilm.{setup_packet};
ghost use Rattle.film_maker.specs.Drawn.{made_link_of};
ghost use Rattle.film_maker.specs.SetupTables.{IsField, table_bits, book_bits, residue_bits, mapping_bits, setup_bits};

use crate::links::MadeLink;
use crate::packet::packet_of;
use bit_reader::BitsOut;
use memory::{NoMemory, Sequence};
use setup_header::{Setup, SetupFault, setup_bytes};
use std::alloc::Global;

/// A field of a setup packet: a number, and in how many bits it stands.
type Field = (u32, u32);

/// The packet's type, the letters of `vorbis`, and four codebooks.
const START: [Field; 8] = [
    (5, 8),
    (0x76, 8),
    (0x6f, 8),
    (0x72, 8),
    (0x62, 8),
    (0x69, 8),
    (0x73, 8),
    (3, 8),
];

/// What a codebook of one dimension and eight entries begins with, all of them used.
const FLOOR_BOOK: [Field; 5] = [(0x56_4342, 24), (1, 16), (8, 24), (0, 1), (0, 1)];

/// What a codebook of two dimensions and sixteen entries begins with, all of them used.
const PAIR_BOOK: [Field; 5] = [(0x56_4342, 24), (2, 16), (16, 24), (0, 1), (0, 1)];

/// Eight words of three bits.
const EIGHT_WORDS: [Field; 8] = [(2, 5); 8];

/// Sixteen words of four bits.
const SIXTEEN_WORDS: [Field; 16] = [(3, 5); 16];

/// No vectors.
const NO_LOOKUP: [Field; 1] = [(0, 4)];

/// Pairs from a lattice: from -3/4 on in steps of 1/2, 0 to 3 of them.
const LATTICE: [Field; 9] = [
    (1, 4),
    (0xe260_0003, 32),
    (0x6280_0001, 32),
    (15, 4),
    (0, 1),
    (0, 16),
    (1, 16),
    (2, 16),
    (3, 16),
];

/// A codebook of one dimension and four entries, with words of one bit, two, three and three, and
/// with finer values for each entry.
const FINE_BOOK: [Field; 18] = [
    (0x56_4342, 24),
    (1, 16),
    (4, 24),
    (0, 1),
    (0, 1),
    (0, 5),
    (1, 5),
    (2, 5),
    (2, 5),
    (2, 4),
    (0xe240_0001, 32),
    (0x6240_0001, 32),
    (15, 4),
    (0, 1),
    (0, 16),
    (1, 16),
    (2, 16),
    (2, 16),
];

/// One time domain transform, and one floor, of type 1.
const FLOOR_START: [Field; 4] = [(0, 6), (0, 16), (0, 6), (1, 16)];

/// Two partitions of class 0; that class, of three dimensions, without subclasses, with the first
/// book; multiplier 2, and numbers of seven bits for where the points of the curve stand.
const FLOOR: [Field; 14] = [
    (2, 5),
    (0, 4),
    (0, 4),
    (2, 3),
    (0, 2),
    (1, 8),
    (1, 2),
    (7, 4),
    (8, 7),
    (16, 7),
    (32, 7),
    (48, 7),
    (64, 7),
    (96, 7),
];

/// Partitions of eight values, four classes whose words stand in the second book, the passes of
/// each class, and the books of these passes.
const RESIDUE: [Field; 17] = [
    (7, 24),
    (3, 6),
    (1, 8),
    (0, 3),
    (0, 1),
    (1, 3),
    (0, 1),
    (3, 3),
    (0, 1),
    (7, 3),
    (0, 1),
    (2, 8),
    (2, 8),
    (3, 8),
    (2, 8),
    (3, 8),
    (3, 8),
];

/// One mapping with one submap, without coupling steps.
const MAPPING: [Field; 8] = [
    (0, 6),
    (0, 16),
    (0, 1),
    (0, 1),
    (0, 2),
    (0, 8),
    (0, 8),
    (0, 8),
];

/// One mapping with one submap, and with one coupling step of the first channel, the magnitude, and
/// the second, the angle.
const COUPLED_MAPPING: [Field; 11] = [
    (0, 6),
    (0, 16),
    (0, 1),
    (1, 1),
    (0, 8),
    (0, 1),
    (1, 1),
    (0, 2),
    (0, 8),
    (0, 8),
    (0, 8),
];

/// A mode of short blocks and one of long blocks, and the framing bit.
const MODES: [Field; 10] = [
    (1, 6),
    (0, 1),
    (0, 16),
    (0, 16),
    (0, 8),
    (1, 1),
    (0, 16),
    (0, 16),
    (0, 8),
    (1, 1),
];

/// Puts fields, one behind the other.
fn put_fields(out: &mut BitsOut, fields: &[Field]) -> Result<(), NoMemory>
    requires { All IsField fields.now }
    ensures { OnOk result (out.new ≡ out.old ++ table_bits fields.now) }
{
    for (number, width) in fields {
        out.put(*number, *width)?;
    }
    Ok(())
}

/// Puts the start and the four codebooks.
fn put_books(out: &mut BitsOut) -> Result<(), NoMemory>
    ensures { OnOk result (out.new ≡ out.old ++ book_bits) }
{
    put_fields(out, &START)?;
    put_fields(out, &FLOOR_BOOK)?;
    put_fields(out, &EIGHT_WORDS)?;
    put_fields(out, &NO_LOOKUP)?;
    put_fields(out, &PAIR_BOOK)?;
    put_fields(out, &SIXTEEN_WORDS)?;
    put_fields(out, &NO_LOOKUP)?;
    put_fields(out, &PAIR_BOOK)?;
    put_fields(out, &SIXTEEN_WORDS)?;
    put_fields(out, &LATTICE)?;
    put_fields(out, &FINE_BOOK)
}

/// Puts the residue of so many channels: one, of type 2, up to 128 values a channel.
fn put_residue(out: &mut BitsOut, channels: u8) -> Result<(), NoMemory>
    requires { channels ≤ 2 }
    ensures { OnOk result (out.new ≡ out.old ++ residue_bits channels) }
{
    let end = 128 * u32::from(channels);
    put_fields(out, &[(0, 6), (2, 16), (0, 24), (end, 24)])?;
    put_fields(out, &RESIDUE)
}

/// Puts the mapping of so many channels.
fn put_mapping(out: &mut BitsOut, channels: u8) -> Result<(), NoMemory>
    requires some { 1 ≤ channels }
    requires few { channels ≤ 2 }
    ensures { OnOk result (out.new ≡ out.old ++ mapping_bits channels) }
{
    if channels == 2 {
        put_fields(out, &COUPLED_MAPPING)
    } else {
        put_fields(out, &MAPPING)
    }
}

/// Puts the setup of so many channels.
fn put_setup(out: &mut BitsOut, channels: u8) -> Result<(), NoMemory>
    requires some { 1 ≤ channels }
    requires few { channels ≤ 2 }
    ensures { OnOk result (out.new ≡ out.old ++ setup_bits channels) }
{
    put_books(out)?;
    put_fields(out, &FLOOR_START)?;
    put_fields(out, &FLOOR)?;
    put_residue(out, channels)?;
    put_mapping(out, channels)?;
    put_fields(out, &MODES)
}

/// The bytes of the fields of the setup of so many channels.
fn field_bytes(alloc: Global, channels: u8) -> Result<Vec<u8>, NoMemory>
    requires some { 1 ≤ channels }
    requires few { channels ≤ 2 }
    ensures { IfOk result (λ bytes. bits_of bytes.items ≡ filled (setup_bits channels)) }
{
    let mut out = BitsOut::new(alloc);
    put_setup(&mut out, channels)?;
    Ok(out.done())
}

/// Reads these bytes again.
fn read_setup(alloc: Global, channels: u8, bytes: &[u8]) -> Result<Setup, NoMemory>
    requires some { 1 ≤ channels }
    requires few { channels ≤ 2 }
    requires bytes { bits_of bytes.now ≡ filled (setup_bits channels) }
    ensures { IfOk result (λ setup. setup ≡ made_setup channels) }
{
    match Setup::read(alloc, channels, bytes) {
        Ok(setup) => Ok(setup),
        Err(SetupFault::Bad { .. }) => unreachable!(),
        Err(SetupFault::Memory) => Err(NoMemory),
    }
}

/// The setup packet of a link: its fields are put and read, and the setup that is read is stored.
pub fn make_setup(alloc: Global, link: &MadeLink) -> Result<Sequence<u8>, NoMemory>
    requires some { 1 ≤ link.now.channels }
    requires few { link.now.channels ≤ 2 }
    ensures { IfOk result (λ packet. packet ≡ setup_packet (made_link_of link.now)) }
{
    let fields = field_bytes(alloc, link.channels)?;
    let setup = read_setup(alloc, link.channels, &fields)?;
    let bytes = setup_bytes(alloc, &setup)?;
    packet_of(alloc, &bytes)
}
