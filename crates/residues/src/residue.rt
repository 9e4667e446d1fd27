ghost use Rattle.std.specs.Prelude.{◌≡◌, ◌≤◌, ◌<◌, ◌^◌, length, IfOk, OnOk, OnErr, IfSome};
ghost use Rattle.std.specs.List.{All, flat_map};
ghost use Rattle.model_bits.specs.Reading.{times, each};
ghost use Rattle.memory.specs.Answers.{Answers};
ghost use Rattle.model_setup.specs.ResidueSetup.{FitsBooks, Serves, has_values};
ghost use Rattle.model_setup.specs.ResidueReading.{pass_flags_at, pass_book_at, cascade_at, cascades_at, residue_at};
ghost use Rattle.model_bits.specs.Writing.{optional_byte};
ghost use Rattle.model_writing.specs.SetupWriting.{residue_type, pass_flags, cascade_fields, residue_fields};
ghost use Rattle.setup_fields.specs.Puts.{ArePut, HavePlaces, IsFrontOf};

use crate::fields::{read_class_book, read_field, read_value_book};
use bit_reader::{Bits, BitsOut, NoMemory};
use codebooks::Book;
use model_setup::{ResidueFault, ResidueKind};
use setup_fields::{put_book, put_count, put_flag, put_number};
use std::alloc::Global;
use std::marker::Model;

/// The books of a class in the eight passes, where it has one.
pub type Cascade = [Option<u8>; 8];

/// A residue: how the values of a spectrum are read from a packet, in partitions, in up to eight
/// passes (Vorbis I, section 8). Its fields have the standard's names beside them.
#[derive(Debug, Drop)]
pub struct Residue {
    pub(crate) kind: ResidueKind,
    // residue_begin and residue_end
    pub(crate) begin: u32,
    pub(crate) end: u32,
    // residue_partition_size
    pub(crate) partition_size: u32,
    // residue_classbook
    pub(crate) class_book: u8,
    // residue_books: of each class in the eight passes
    pub(crate) cascades: Vec<Cascade>,
}

impl Model for Residue {
    ghost use Rattle.model_setup.specs.ResidueSetup.{ResidueSetup};

    ghost Value = { ResidueSetup };

    ghost view = { λ a. record {
      kind = a.kind;
      begin = a.begin;
      end = a.end;
      partition_size = a.partition_size;
      class_book = a.class_book;
      cascades =
          a.cascades.items;
    } };
}

/// Reads in which passes a class has a book: bit k stands for pass k.
#[tactic(auto, unfolding(model_setup::specs::ResidueReading::pass_flags_at))]
fn read_pass_flags(bits: &mut Bits) -> Result<u8, ResidueFault>
    ensures read { Answers ResidueFault.Memory (λ n. (n, bits.new.left)) result
        (pass_flags_at bits.old.left) }
    ensures bytes { bits.new.total ≡ bits.old.total }
{
    let low = read_field(bits, 3)?;
    let flag = read_field(bits, 1)?;
    let high = if flag == 1 { read_field(bits, 5)? } else { 0 };
    Ok((8 * high + low) as u8)
}

/// Reads the book of a class in a pass, if it has one there.
#[tactic(auto, unfolding(model_setup::specs::ResidueReading::pass_book_at))]
fn read_pass_book(
    bits: &mut Bits,
    books: &[Book],
    flags: u8,
    pass: u32,
) -> Result<Option<u8>, ResidueFault>
    requires { pass < 8 }
    ensures read { Answers ResidueFault.Memory (λ n. (n, bits.new.left)) result
        (pass_book_at books.now flags pass bits.old.left) }
    ensures bytes { bits.new.total ≡ bits.old.total }
    ensures serves { IfOk result (λ named. IfSome named (Serves has_values books.now)) }
{
    if (flags >> pass) % 2 == 0 {
        return Ok(None);
    }
    let number = read_value_book(bits, books)?;
    Ok(Some(number))
}

/// Reads the books of a class that has some in the passes of these flags.
#[tactic(auto, unfolding(model_setup::specs::ResidueReading::cascade_at))]
fn read_cascade(bits: &mut Bits, books: &[Book], flags: u8) -> Result<Cascade, ResidueFault>
    ensures read { Answers ResidueFault.Memory (λ a. (a, bits.new.left)) result
        (cascade_at books.now flags bits.old.left) }
    ensures passes { IfOk result (λ a. length a ≡ 8) }
    ensures bytes { bits.new.total ≡ bits.old.total }
    ensures serves { IfOk result (All (λ named. IfSome named (Serves has_values books.now))) }
{
    let mut cascade = [None; 8];
    for pass in 0..8 {
        cascade[pass as usize] = read_pass_book(bits, books, flags, pass)?;
    }
    Ok(cascade)
}

/// Reads the flags of so many classes.
fn read_all_flags(alloc: Global, bits: &mut Bits, classes: u32) -> Result<Vec<u8>, ResidueFault>
    ensures read { Answers ResidueFault.Memory (λ v. (v.items, bits.new.left)) result
        (times classes pass_flags_at bits.old.left) }
    ensures bytes { bits.new.total ≡ bits.old.total }
    ensures count { IfOk result (λ v. length v.items ≡ classes) }
{
    let mut all = Vec::new(alloc);
    for _ in 0..classes {
        let flags = read_pass_flags(bits)?;
        all.push(flags)?;
    }
    Ok(all)
}

/// Reads the books of the classes that have some in the passes of these flags.
fn read_each_cascade(
    alloc: Global,
    bits: &mut Bits,
    books: &[Book],
    all_flags: &[u8],
) -> Result<Vec<Cascade>, ResidueFault>
    ensures read { Answers ResidueFault.Memory (λ v. (v.items, bits.new.left)) result
        (each (cascade_at books.now) all_flags.now bits.old.left) }
    ensures bytes { bits.new.total ≡ bits.old.total }
    ensures count { IfOk result (λ v. length v.items ≡ length all_flags.now) }
    ensures passes { IfOk result (λ v. All (λ cascade. length cascade ≡ 8) v.items) }
    ensures serves { IfOk result (λ v.
        All (All (λ named. IfSome named (Serves has_values books.now))) v.items) }
{
    let mut cascades = Vec::new(alloc);
    for flags in all_flags {
        let cascade = read_cascade(bits, books, *flags)?;
        cascades.push(cascade)?;
    }
    Ok(cascades)
}

/// Reads the books of so many classes.
#[tactic(auto, unfolding(model_setup::specs::ResidueReading::cascades_at))]
fn read_cascades(
    alloc: Global,
    bits: &mut Bits,
    books: &[Book],
    classes: u32,
) -> Result<Vec<Cascade>, ResidueFault>
    ensures read { Answers ResidueFault.Memory (λ v. (v.items, bits.new.left)) result
        (cascades_at books.now classes bits.old.left) }
    ensures bytes { bits.new.total ≡ bits.old.total }
    ensures count { IfOk result (λ v. length v.items ≡ classes) }
    ensures passes { IfOk result (λ v. All (λ cascade. length cascade ≡ 8) v.items) }
    ensures serves { IfOk result (λ v.
        All (All (λ named. IfSome named (Serves has_values books.now))) v.items) }
{
    let all_flags = read_all_flags(alloc, bits, classes)?;
    read_each_cascade(alloc, bits, books, &all_flags)
}

/// In which passes a class has a book: bit k stands for pass k.
fn pass_flags(cascade: &Cascade) -> u32
    ensures flags { result ≡ pass_flags cascade.now }
    ensures below { result < 2 ^ 8 }
{
    let mut flags = 0;
    for pass in (0..8).rev() {
        flags = 2 * flags + u32::from(cascade[pass].is_some());
    }
    flags
}

/// Writes in which passes a class has a book.
fn write_pass_flags(out: &mut BitsOut, cascade: &Cascade) -> Result<(), NoMemory>
    ensures put { OnOk result (ArePut out.old out.new (cascade_fields cascade.now)) }
    ensures kept { OnErr result (IsFrontOf out.old out.new) }
{
    let flags = pass_flags(cascade);
    let high = flags / 8;
    put_number(out, 3, flags % 8)?;
    if high == 0 {
        return put_flag(out, false);
    }
    put_flag(out, true)?;
    put_number(out, 5, high)
}

/// Writes in which passes each class has a book.
fn write_all_flags(out: &mut BitsOut, cascades: &[Cascade]) -> Result<(), NoMemory>
    ensures put { OnOk result (ArePut out.old out.new (flat_map cascade_fields cascades.now)) }
    ensures kept { OnErr result (IsFrontOf out.old out.new) }
{
    for cascade in cascades {
        write_pass_flags(out, cascade)?;
    }
    Ok(())
}

/// Writes the books of a class.
fn write_cascade(out: &mut BitsOut, cascade: &Cascade) -> Result<(), NoMemory>
    ensures put { OnOk result (ArePut out.old out.new (flat_map optional_byte cascade.now)) }
    ensures kept { OnErr result (IsFrontOf out.old out.new) }
{
    for book in cascade {
        put_book(out, *book)?;
    }
    Ok(())
}

/// Writes the books of each class.
fn write_cascades(out: &mut BitsOut, cascades: &[Cascade]) -> Result<(), NoMemory>
    ensures put { OnOk result
        (ArePut out.old out.new (flat_map (flat_map optional_byte) cascades.now)) }
    ensures kept { OnErr result (IsFrontOf out.old out.new) }
{
    for cascade in cascades {
        write_cascade(out, cascade)?;
    }
    Ok(())
}

impl Residue {
    /// The type of the residue, 0 to 2.
    pub fn kind(&self) -> u32
        ensures { result ≡ residue_type self.now.kind }
    {
        match self.kind {
            ResidueKind::Spread => 0,
            ResidueKind::InRow => 1,
            ResidueKind::Interleaved => 2,
        }
    }

    /// Writes the residue behind the bits that were put before, without its type. Where no memory
    /// is found, what was put before stays in front.
    pub fn write(&self, out: &mut BitsOut) -> Result<(), NoMemory>
        requires { HavePlaces (residue_fields self.now) }
        ensures put { OnOk result (ArePut out.old out.new (residue_fields self.now)) }
        ensures kept { OnErr result (IsFrontOf out.old out.new) }
    {
        put_number(out, 24, self.begin)?;
        put_number(out, 24, self.end)?;
        put_count(out, 24, self.partition_size)?;
        put_count(out, 6, self.cascades.len() as u32)?;
        put_number(out, 8, u32::from(self.class_book))?;
        write_all_flags(out, &self.cascades)?;
        write_cascades(out, &self.cascades)
    }

    /// Reads a residue of a type, 0 to 2, in a setup of these books. The first cause of a refusal
    /// in reading order is answered, or `Memory`; the bits are of no use then (Vorbis I, section
    /// 8.6.1).
    #[tactic(auto, unfolding(model_setup::specs::ResidueReading::residue_at))]
    pub fn read(
        alloc: Global,
        bits: &mut Bits,
        kind: u16,
        books: &[Book],
    ) -> Result<Residue, ResidueFault>
        ensures read { Answers ResidueFault.Memory (λ r. (r, bits.new.left)) result
            (residue_at kind books.now bits.old.left) }
        ensures bytes { bits.new.total ≡ bits.old.total }
        ensures fits { IfOk result (FitsBooks books.now) }
    {
        let kind = match kind {
            0 => ResidueKind::Spread,
            1 => ResidueKind::InRow,
            2 => ResidueKind::Interleaved,
            _ => return Err(ResidueFault::Kind),
        };
        let begin = read_field(bits, 24)?;
        let end = read_field(bits, 24)?;
        let partition_size = read_field(bits, 24)? + 1;
        let classes = read_field(bits, 6)? + 1;
        let class_book = read_class_book(bits, books, classes)?;
        let cascades = read_cascades(alloc, bits, books, classes)?;
        Ok(Residue {
            kind,
            begin,
            end,
            partition_size,
            class_book,
            cascades,
        })
    }
}
