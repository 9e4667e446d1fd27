//! Reads the bits of a packet, and writes bits (Vorbis I, section 2).
#![tactic(auto)]

ghost use Rattle.std.specs.Prelude.{◌≡◌, ◌≤◌, ◌<◌, ◌+◌, ◌*◌, ◌-◌, ◌^◌, ◌/◌, ◌%◌, [], length, take, drop, IfSome, IfNone, Some, None};
ghost use Rattle.model_bits.specs.Bits.{take_bits, bits_of, number_of};

mod bits_out;

pub use bits_out::BitsOut;
use byteorder::{ByteOrder, LittleEndian};
pub use memory::NoMemory;
use std::marker::Model;

/// The bits of a packet that are left to be read, of each byte the lowest first.
#[derive(Drop)]
pub struct Bits<'a> {
    bytes: &'a [u8],
    // how many whole bytes are used up, and how many bits of the byte behind them
    byte: usize,
    bit: u32,
}

impl<'a> Model for Bits<'a> {
    ghost use Rattle.std.specs.Prelude.{◌+◌, ◌*◌, ◌≤◌, ◌<◌, length, drop};
    ghost use Rattle.model_bits.specs.Bits.{BitReader, bits_of};

    ghost Value = { BitReader };

    ghost view = { λ a. record {
      total = 8 * length a.bytes.now;
      left = drop (8 * a.byte + a.bit) (bits_of a.bytes.now);
    } };

    ghost invariant = { λ a. (8 * a.byte + a.bit ≤ 8 * length a.bytes.now) × (a.bit < 8) };
}

impl<'a> Bits<'a> {
    /// A reader of all bits of these bytes.
    pub fn new(bytes: &'a [u8]) -> Bits<'a>
        ensures left { result.left ≡ bits_of bytes.now }
        ensures total { result.total ≡ 8 * length bytes.now }
    {
        Bits {
            bytes,
            byte: 0,
            bit: 0,
        }
    }

    /// How many bits were taken or used up, of a packet whose bits can be counted in a `u64`.
    pub fn at(&self) -> u64
        requires { self.now.total < 2 ^ 64 }
        ensures { result ≡ self.now.total - length self.now.left }
    {
        8 * self.byte as u64 + u64::from(self.bit)
    }

    /// The next bits, 32 at most, as a number, the first of them the lowest, and none is taken.
    /// Where fewer are left than are wanted, zeros follow them.
    pub fn look(&self, count: u32) -> u32
        requires { count ≤ 32 }
        ensures number { result ≡ number_of (take count self.now.left) }
        ensures below { result < 2 ^ count }
    {
        number_at(&self.bytes[self.byte..], self.bit, count)
    }

    /// The next bits, 32 at most, as a number, the first of them the lowest. Where fewer are left
    /// than are wanted, that is the end of the packet (Vorbis I, section 2.1.8): those that are
    /// left are used up, and every later call that wants a bit meets the end again.
    pub fn take(&mut self, count: u32) -> Option<u32>
        requires { count ≤ 32 }
        ensures taken { IfSome result (λ n. take_bits count self.old.left
            ≡ Some (n, self.new.left)) }
        ensures ended { IfNone result ((take_bits count self.old.left ≡ None)
            × (self.new.left ≡ [])) }
        ensures below { IfSome result (λ n. n < 2 ^ count) }
        ensures total { self.new.total ≡ self.old.total }
    {
        let end = self.bit + count;
        if self.bytes.len() - self.byte < end.div_ceil(8) as usize {
            self.finish();
            return None;
        }
        let number = number_at(&self.bytes[self.byte..], self.bit, count);
        self.byte += (end / 8) as usize;
        self.bit = end % 8;
        Some(number)
    }

    /// Uses up the bits that are left: every later call that wants a bit meets the end.
    pub fn finish(&mut self)
        ensures left { self.new.left ≡ [] }
        ensures total { self.new.total ≡ self.old.total }
    {
        self.byte = self.bytes.len();
        self.bit = 0;
    }
}

/// The number that bits of the first bytes make, behind some of the first byte. Where the bytes end
/// before, zeros follow.
fn number_at(bytes: &[u8], skip: u32, count: u32) -> u32
    requires skipped { skip < 8 }
    requires bits { count ≤ 32 }
    ensures number { result ≡ number_of (take count (drop skip (bits_of bytes.now))) }
    ensures below { result < 2 ^ count }
{
    if count <= 8 {
        digits(first_pair(bytes), skip, count)
    } else {
        digits(first_word(bytes), skip, count)
    }
}

/// The number that so many binary digits of a word make, behind the lowest.
fn digits(word: u64, skip: u32, count: u32) -> u32
    requires skipped { skip < 8 }
    requires bits { count ≤ 32 }
    ensures number { result ≡ word / 2 ^ skip % 2 ^ count }
    ensures below { result < 2 ^ count }
{
    let mask = (1 << count) - 1;
    ((word >> skip) & mask) as u32
}

/// The number of the first two bytes, or of all where they are fewer.
fn first_pair(bytes: &[u8]) -> u64
    ensures { result ≡ number_of (bits_of (take 2 bytes.now)) }
{
    match bytes.len() {
        0 => 0,
        1 => LittleEndian::read_uint(bytes, 1),
        _ => u64::from(LittleEndian::read_u16(bytes)),
    }
}

/// The number of the first eight bytes, or of all where they are fewer.
fn first_word(bytes: &[u8]) -> u64
    ensures { result ≡ number_of (bits_of (take 8 bytes.now)) }
{
    match bytes.len() {
        0 => 0,
        len @ 1..8 => LittleEndian::read_uint(bytes, len),
        _ => LittleEndian::read_u64(bytes),
    }
}
