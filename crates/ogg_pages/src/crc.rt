ghost use Rattle.std.specs.Prelude.{◌≡◌, ◌+◌, ◌*◌, ◌^◌, ◌<◌, ◌≤◌, length, fold, replicate};
ghost use Rattle.model_ogg.specs.Checksum.{with_byte, checksum_of};

use crate::tables::TABLES;
use byteorder::{BigEndian, ByteOrder};

/// The register with this byte at its top, after as many bytes 0 as the table's number and one
/// more.
#[tactic(auto, using(crate::proofs::Rows::table_at))]
fn entry(table: usize, byte: u8) -> u32
    requires { table < 16 }
    ensures { result ≡ fold with_byte (byte * 2 ^ 24) (replicate (table + 1) 0) }
{
    TABLES[table][usize::from(byte)]
}

/// The register after one more byte.
fn byte_added(register: u32, byte: u8) -> u32
    ensures { result ≡ with_byte register byte }
{
    let top = (register >> 24) as u8;
    (register << 8) ^ entry(0, top ^ byte)
}

/// The register after four more bytes. Each byte of the register goes with one of them, and comes
/// to its entry of the table of the bytes that follow it.
fn four_added(register: u32, bytes: &[u8; 4]) -> u32
    ensures { result ≡ fold with_byte register bytes.now }
{
    let tops = (register ^ BigEndian::read_u32(bytes)).to_be_bytes();
    entry(0, tops[3]) ^ entry(1, tops[2]) ^ entry(2, tops[1]) ^ entry(3, tops[0])
}

/// The register after sixteen more bytes. The first four go with the register's, and the others
/// come to their entries alone. The first eight are read as two words, to save loads.
fn sixteen_added(register: u32, bytes: &[u8; 16]) -> u32
    ensures { result ≡ fold with_byte register bytes.now }
{
    let first = (register ^ BigEndian::read_u32(bytes)).to_be_bytes();
    let second = BigEndian::read_u32(&bytes[4..]).to_be_bytes();
    entry(0, bytes[15])
        ^ entry(1, bytes[14])
        ^ entry(2, bytes[13])
        ^ entry(3, bytes[12])
        ^ entry(4, bytes[11])
        ^ entry(5, bytes[10])
        ^ entry(6, bytes[9])
        ^ entry(7, bytes[8])
        ^ entry(8, second[3])
        ^ entry(9, second[2])
        ^ entry(10, second[1])
        ^ entry(11, second[0])
        ^ entry(12, first[3])
        ^ entry(13, first[2])
        ^ entry(14, first[1])
        ^ entry(15, first[0])
}

/// The register after fewer bytes than a step of four takes.
fn few_added(register: u32, bytes: &[u8]) -> u32
    ensures { result ≡ fold with_byte register bytes.now }
{
    let mut sum = register;
    for byte in bytes {
        sum = byte_added(sum, *byte);
    }
    sum
}

/// The register after fewer bytes than a step of sixteen takes.
fn fours_added(register: u32, bytes: &[u8]) -> u32
    ensures { result ≡ fold with_byte register bytes.now }
{
    let mut sum = register;
    let mut rest = bytes;
    while let Some((four, after)) = rest.split_first_chunk::<4>() {
        sum = four_added(sum, four);
        rest = after;
    }
    few_added(sum, rest)
}

/// The register after these bytes.
pub fn bytes_added(register: u32, bytes: &[u8]) -> u32
    ensures { result ≡ fold with_byte register bytes.now }
{
    let mut sum = register;
    let mut rest = bytes;
    while let Some((sixteen, after)) = rest.split_first_chunk::<16>() {
        sum = sixteen_added(sum, sixteen);
        rest = after;
    }
    fours_added(sum, rest)
}

/// As many bytes 0 as the checksum itself has.
static NO_CHECKSUM: [u8; 4] = [0; 4];

/// The checksum of the front of a page, as far as the checksum itself stands in it.
#[tactic(auto, using(crate::proofs::Sums::front_law))]
pub fn front_checksum(front: &[u8]) -> u32
    requires { length front.now ≤ 26 }
    ensures { result ≡ checksum_of front.now }
{
    let (before, own) = front.split_at(front.len().min(22));
    bytes_added(bytes_added(0, before), &NO_CHECKSUM[..own.len()])
}

/// The checksum of a page, of which bytes 22 to 25, the checksum itself, count as 0 (RFC 3533,
/// section 6, field 7).
#[tactic(auto, using(crate::proofs::Sums::front_and_rest))]
pub fn checksum(bytes: &[u8]) -> u32
    ensures { result ≡ checksum_of bytes.now }
{
    let (front, rest) = bytes.split_at(bytes.len().min(26));
    bytes_added(front_checksum(front), rest)
}
