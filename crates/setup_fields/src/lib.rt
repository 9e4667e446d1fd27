//! Writes fields of a setup packet behind bits that were put before (Vorbis I, section 2.1).
#![tactic(auto)]

ghost use Rattle.std.specs.Prelude.{◌≡◌, ◌≤◌, ◌<◌, ◌-◌, ◌^◌, OnOk, OnErr};
ghost use Rattle.std.specs.List.{flat_map};
ghost use Rattle.model_bits.specs.Writing.{in_bits, flag, count_in_bits, flagged_count, optional_byte};
ghost use Rattle.setup_fields.specs.Puts.{ArePut, HavePlaces, IsFrontOf};

use bit_reader::BitsOut;
pub use bit_reader::NoMemory;

/// Puts a number, which has a place in so many bits. Where no memory is found, no bit is put.
pub fn put_number(out: &mut BitsOut, width: u32, number: u32) -> Result<(), NoMemory>
    requires width { width ≤ 32 }
    requires fits { number < 2 ^ width }
    ensures put { OnOk result (ArePut out.old out.new (in_bits width number)) }
    ensures stays { OnErr result (out.new ≡ out.old) }
{
    out.put(number, width)
}

/// Puts a flag. Where no memory is found, no bit is put.
pub fn put_flag(out: &mut BitsOut, set: bool) -> Result<(), NoMemory>
    ensures put { OnOk result (ArePut out.old out.new (flag set)) }
    ensures stays { OnErr result (out.new ≡ out.old) }
{
    put_number(out, 1, u32::from(set))
}

/// Puts a count, which stands there less one. Where no memory is found, no bit is put.
pub fn put_count(out: &mut BitsOut, width: u32, count: u32) -> Result<(), NoMemory>
    requires width { width ≤ 32 }
    requires fits { count - 1 < 2 ^ width }
    ensures put { OnOk result (ArePut out.old out.new (count_in_bits width count)) }
    ensures stays { OnErr result (out.new ≡ out.old) }
{
    put_number(out, width, count.saturating_sub(1))
}

/// Puts a count behind a flag, which isn't set where it is the other count. Where no memory is
/// found, the flag may be put.
pub fn put_flagged_count(
    out: &mut BitsOut,
    width: u32,
    other: u32,
    count: u32,
) -> Result<(), NoMemory>
    requires width { width ≤ 32 }
    requires fits { HavePlaces (flagged_count width other count) }
    ensures put { OnOk result (ArePut out.old out.new (flagged_count width other count)) }
    ensures kept { OnErr result (IsFrontOf out.old out.new) }
{
    if count == other {
        return put_flag(out, false);
    }
    put_flag(out, true)?;
    put_count(out, width, count)
}

/// Puts the number of a book, where there is one. Where no memory is found, no bit is put.
pub fn put_book(out: &mut BitsOut, book: Option<u8>) -> Result<(), NoMemory>
    ensures put { OnOk result (ArePut out.old out.new (optional_byte book)) }
    ensures stays { OnErr result (out.new ≡ out.old) }
{
    match book {
        Some(book) => put_number(out, 8, u32::from(book)),
        None => Ok(()),
    }
}

/// Puts numbers, each in so many bits. Where no memory is found, the first of them may be put.
pub fn put_bytes(out: &mut BitsOut, width: u32, numbers: &[u8]) -> Result<(), NoMemory>
    requires width { width ≤ 32 }
    requires fits { HavePlaces (flat_map (in_bits width) numbers.now) }
    ensures put { OnOk result (ArePut out.old out.new (flat_map (in_bits width) numbers.now)) }
    ensures kept { OnErr result (IsFrontOf out.old out.new) }
{
    for number in numbers {
        put_number(out, width, u32::from(*number))?;
    }
    Ok(())
}

/// Puts numbers, each in so many bits. Where no memory is found, the first of them may be put.
pub fn put_words(out: &mut BitsOut, width: u32, numbers: &[u16]) -> Result<(), NoMemory>
    requires width { width ≤ 32 }
    requires fits { HavePlaces (flat_map (in_bits width) numbers.now) }
    ensures put { OnOk result (ArePut out.old out.new (flat_map (in_bits width) numbers.now)) }
    ensures kept { OnErr result (IsFrontOf out.old out.new) }
{
    for number in numbers {
        put_number(out, width, u32::from(*number))?;
    }
    Ok(())
}
