ghost use Rattle.std.specs.Prelude.{◌≡◌, ◌≤◌, ◌<◌, ◌^◌, ◌++◌, [], length, take, slice_index, OnErr, OnOk};
ghost use Rattle.std.specs.Int.{w64, to_le_bytes};
ghost use Rattle.model_bits.specs.Bits.{bits_of, bits_of_number};
ghost use Rattle.model_bits.specs.Writing.{filled};

use memory::NoMemory;
use std::alloc::Global;
use std::marker::Model;

/// Bits that are put one after the other into bytes, into each byte the lowest first (Vorbis I,
/// section 2.1).
#[derive(Drop)]
pub struct BitsOut {
    bytes: Vec<u8>,
    // how many bytes are full, and how many bits were put into the byte behind them, whose other
    // bits are 0
    byte: usize,
    bit: u32,
}

impl Model for BitsOut {
    ghost use Rattle.std.specs.Prelude.{◌≡◌, ◌+◌, ◌/◌, ◌^◌, ◌<◌, ◌++◌, List, Bool, length, take, slice_index};
    ghost use Rattle.model_bits.specs.Bits.{bits_of, bits_of_number};

    ghost Value = { List Bool };

    ghost view = { λ a. bits_of (take a.byte a.bytes.items)
        ++ bits_of_number a.bit (slice_index a.bytes.items a.byte) };

    ghost invariant = { λ a. (length a.bytes.items ≡ a.byte + (a.bit + 7) / 8)
        × (a.bit < 8)
        × (slice_index a.bytes.items a.byte < 2 ^ a.bit) };
}

/// The byte at a place, or 0 behind the last.
fn byte_at(bytes: &[u8], place: usize) -> u8
    ensures { result ≡ slice_index bytes.now place }
{
    bytes.get(place).copied().unwrap_or(0)
}

/// Writes the lowest bytes of a word in place of what stands behind the first bytes. Where no
/// memory is found, the bytes stay.
fn write_behind(bytes: &mut Vec<u8>, first: usize, word: u64, count: usize) -> Result<(), NoMemory>
    requires first { first ≤ length bytes.old.items }
    requires count { count ≤ 8 }
    ensures written { OnOk result (bytes.new.items
        ≡ take first bytes.old.items ++ take count (to_le_bytes w64 word)) }
    ensures stays { OnErr result (bytes.new.items ≡ bytes.old.items) }
{
    bytes.reserve(count)?;
    bytes.truncate(first);
    bytes.extend_from_slice(&word.to_le_bytes()[..count])?;
    Ok(())
}

impl BitsOut {
    /// No bits.
    pub fn new(alloc: Global) -> BitsOut
        ensures { result ≡ [] }
    {
        BitsOut {
            bytes: Vec::new(alloc),
            byte: 0,
            bit: 0,
        }
    }

    /// Puts a number, which has a place in so many bits, behind the bits that were put before.
    /// Where no memory is found, no bit is put.
    pub fn put(&mut self, value: u32, count: u32) -> Result<(), NoMemory>
        requires count { count ≤ 32 }
        requires fits { value < 2 ^ count }
        ensures put { OnOk result (self.new ≡ self.old ++ bits_of_number count value) }
        ensures stays { OnErr result (self.new ≡ self.old) }
    {
        let open = byte_at(&self.bytes, self.byte);
        let word = u64::from(open) + (u64::from(value) << self.bit);
        let end = self.bit + count;
        write_behind(&mut self.bytes, self.byte, word, end.div_ceil(8) as usize)?;
        self.byte += (end / 8) as usize;
        self.bit = end % 8;
        Ok(())
    }

    /// The bytes of all bits that were put, the last of them filled with 0.
    pub fn done(self) -> Vec<u8>
        ensures { bits_of result.items ≡ filled self }
    {
        self.bytes
    }
}
