ghost use Rattle.std.specs.Prelude.{◌≡◌, ◌≤◌, ◌<◌, ◌+◌, ◌-◌, ◌++◌, length, replicate, IfOk, IfSome, OnOk, OnErr, Ok, Some};
ghost use Rattle.std.specs.List.{All, flat_map};
ghost use Rattle.model_bits.specs.Reading.{times};
ghost use Rattle.memory.specs.Answers.{Answers};
ghost use Rattle.model_setup.specs.BookReading.{field, ilog, length_at, entry_length_at, runs_at, ordered_lengths_at, unordered_lengths_at};
ghost use Rattle.model_writing.specs.SetupWriting.{is_sparse, entry_fields, length_fields};
ghost use Rattle.setup_fields.specs.Puts.{ArePut, HavePlaces, IsFrontOf};
ghost use Rattle.codebooks.specs.Free.{IsLength, IsLengthIfUsed};

use crate::fields::read_field;
use bit_reader::{Bits, BitsOut, NoMemory};
use model_setup::BookFault;
use setup_fields::{put_count, put_flag};
use std::alloc::Global;

/// Reads the length of a codeword.
#[tactic(auto, unfolding(model_setup::specs::BookReading::length_at))]
fn read_length(bits: &mut Bits) -> Result<Option<u8>, BookFault>
    ensures read { Answers BookFault.Memory (λ n. (n, bits.new.left)) result
        (length_at bits.old.left) }
    ensures bytes { bits.new.total ≡ bits.old.total }
    ensures small { IfOk result IsLengthIfUsed }
{
    let n = read_field(bits, 5)?;
    Ok(Some(n as u8 + 1))
}

/// Reads the length of an entry's codeword, behind the flag that a sparse book has for it.
#[tactic(auto, unfolding(model_setup::specs::BookReading::entry_length_at))]
fn read_entry_length(bits: &mut Bits, sparse: u32) -> Result<Option<u8>, BookFault>
    ensures read { Answers BookFault.Memory (λ n. (n, bits.new.left)) result
        (entry_length_at sparse bits.old.left) }
    ensures bytes { bits.new.total ≡ bits.old.total }
    ensures small { IfOk result IsLengthIfUsed }
{
    if sparse == 0 {
        return read_length(bits);
    }
    let used = read_field(bits, 1)?;
    if used == 1 {
        return read_length(bits);
    }
    Ok(None)
}

/// Reads the length of each entry's codeword.
fn read_entry_lengths(
    alloc: Global,
    bits: &mut Bits,
    entries: u32,
    sparse: u32,
) -> Result<Vec<Option<u8>>, BookFault>
    ensures read { Answers BookFault.Memory (λ v. (v.items, bits.new.left)) result
        (times entries (entry_length_at sparse) bits.old.left) }
    ensures count { IfOk result (λ v. length v.items ≡ entries) }
    ensures bytes { bits.new.total ≡ bits.old.total }
    ensures small { IfOk result (λ v. All IsLengthIfUsed v.items) }
{
    let mut lengths = Vec::new(alloc);
    for _ in 0..entries {
        let len = read_entry_length(bits, sparse)?;
        lengths.push(len)?;
    }
    Ok(lengths)
}

/// Reads the lengths of a book that doesn't have them in order.
#[tactic(auto, unfolding(model_setup::specs::BookReading::unordered_lengths_at))]
pub fn read_unordered_lengths(
    alloc: Global,
    bits: &mut Bits,
    entries: u32,
) -> Result<Vec<Option<u8>>, BookFault>
    ensures read { Answers BookFault.Memory (λ v. (v.items, bits.new.left)) result
        (unordered_lengths_at entries bits.old.left) }
    ensures count { IfOk result (λ v. length v.items ≡ entries) }
    ensures bytes { bits.new.total ≡ bits.old.total }
    ensures small { IfOk result (λ v. All IsLengthIfUsed v.items) }
{
    let sparse = read_field(bits, 1)?;
    read_entry_lengths(alloc, bits, entries, sparse)
}

/// How many of the remaining entries have the next length.
fn read_run(bits: &mut Bits, remain: u32) -> Result<u32, BookFault>
    ensures field { Answers BookFault.Memory (λ n. (n, bits.new.left)) result
        (field (ilog remain) bits.old.left) }
    ensures bytes { bits.new.total ≡ bits.old.total }
{
    read_field(bits, 32 - remain.leading_zeros())
}

/// Adds so many entries of one length.
fn push_run(lengths: &mut Vec<Option<u8>>, len: u8, run: u32) -> Result<(), BookFault>
    ensures { Answers BookFault.Memory (λ _. lengths.new.items) result
        (Ok (lengths.old.items ++ replicate run (Some len))) }
{
    for _ in 0..run {
        lengths.push(Some(len))?;
    }
    Ok(())
}

/// Reads the lengths in rising order, run by run, from this one on.
fn read_runs(
    alloc: Global,
    bits: &mut Bits,
    first: u8,
    entries: u32,
) -> Result<Vec<Option<u8>>, BookFault>
    requires { IsLength first }
    ensures read { Answers BookFault.Memory (λ v. (v.items, bits.new.left)) result
        (runs_at (33 - first) first entries bits.old.left) }
    ensures count { IfOk result (λ v. length v.items ≡ entries) }
    ensures bytes { bits.new.total ≡ bits.old.total }
    ensures small { IfOk result (λ v. All IsLengthIfUsed v.items) }
{
    let mut lengths = Vec::new(alloc);
    let mut len = first;
    let mut remain = entries;
    while remain > 0 {
        if len > 32 {
            return Err(BookFault::Tree);
        }
        let run = read_run(bits, remain)?;
        if run > remain {
            return Err(BookFault::Tree);
        }
        push_run(&mut lengths, len, run)?;
        remain -= run;
        len += 1;
    }
    Ok(lengths)
}

/// Reads the lengths of a book that has them in rising order.
#[tactic(auto, unfolding(model_setup::specs::BookReading::ordered_lengths_at))]
pub fn read_ordered_lengths(
    alloc: Global,
    bits: &mut Bits,
    entries: u32,
) -> Result<Vec<Option<u8>>, BookFault>
    ensures read { Answers BookFault.Memory (λ v. (v.items, bits.new.left)) result
        (ordered_lengths_at entries bits.old.left) }
    ensures count { IfOk result (λ v. length v.items ≡ entries) }
    ensures bytes { bits.new.total ≡ bits.old.total }
    ensures small { IfOk result (λ v. All IsLengthIfUsed v.items) }
{
    let first = read_field(bits, 5)?;
    read_runs(alloc, bits, first as u8 + 1, entries)
}

/// Whether an entry is unused.
fn is_sparse(lengths: &[Option<u8>]) -> bool
    ensures { result ≡ is_sparse lengths.now }
{
    lengths.iter().any(|len| len.is_none())
}

/// Writes the length of an entry's codeword, behind the flag that a sparse book has for it.
fn write_entry_length(out: &mut BitsOut, sparse: bool, len: Option<u8>) -> Result<(), NoMemory>
    requires { HavePlaces (entry_fields sparse len) }
    ensures put { OnOk result (ArePut out.old out.new (entry_fields sparse len)) }
    ensures kept { OnErr result (IsFrontOf out.old out.new) }
{
    match (sparse, len) {
        (true, None) => put_flag(out, false),
        (true, Some(len)) => {
            put_flag(out, true)?;
            put_count(out, 5, u32::from(len))
        }
        (false, None) => Ok(()),
        (false, Some(len)) => put_count(out, 5, u32::from(len)),
    }
}

/// Writes the length of each entry's codeword.
fn write_entry_lengths(
    out: &mut BitsOut,
    sparse: bool,
    lengths: &[Option<u8>],
) -> Result<(), NoMemory>
    requires { HavePlaces (flat_map (entry_fields sparse) lengths.now) }
    ensures put { OnOk result
        (ArePut out.old out.new (flat_map (entry_fields sparse) lengths.now)) }
    ensures kept { OnErr result (IsFrontOf out.old out.new) }
{
    for len in lengths {
        write_entry_length(out, sparse, *len)?;
    }
    Ok(())
}

/// Writes the lengths of a book, not in order, and sparse exactly where an entry is unused.
pub fn write_lengths(out: &mut BitsOut, lengths: &[Option<u8>]) -> Result<(), NoMemory>
    requires { HavePlaces (length_fields lengths.now) }
    ensures put { OnOk result (ArePut out.old out.new (length_fields lengths.now)) }
    ensures kept { OnErr result (IsFrontOf out.old out.new) }
{
    let sparse = is_sparse(lengths);
    put_flag(out, false)?;
    put_flag(out, sparse)?;
    write_entry_lengths(out, sparse, lengths)
}
