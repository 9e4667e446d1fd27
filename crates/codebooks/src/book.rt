ghost use Rattle.std.specs.Prelude.{◌≡◌, ◌≤◌, ◌<◌, ◌+◌, length, take, drop, [], Some, None, IfSome, IfNone, IfOk, OnOk, OnErr, OnSome, IsSome, is_some};
ghost use Rattle.std.specs.List.{All};
ghost use Rattle.model_fixed.specs.Fixed.{IsWithinLimit};
ghost use Rattle.memory.specs.Answers.{Answers};
ghost use Rattle.model_setup.specs.Codewords.{book_words, entry_at};
ghost use Rattle.model_setup.specs.Vectors.{vector_at};
ghost use Rattle.model_setup.specs.BookReading.{front_at, length_list_at, lengths_at, book_at, multiplicands_of};
ghost use Rattle.model_writing.specs.SetupWriting.{book_fields};
ghost use Rattle.setup_fields.specs.Puts.{ArePut, HavePlaces, IsFrontOf};
ghost use Rattle.codebooks.specs.Free.{IsLengthIfUsed};
ghost use Rattle.codebooks.specs.Books.{IsTree};
ghost use Rattle.codebooks.specs.Layouts.{AreLaid};
ghost use Rattle.codebooks.specs.Tables.{IsWholeIfSome};
ghost use Rattle.codebooks.specs.FirstValues.{first_values_of};

use crate::fields::read_field;
use crate::lengths::{read_ordered_lengths, read_unordered_lengths, write_lengths};
use crate::lookup::{VectorTable, read_lookup, write_lookup};
use crate::word_table::WordTable;
use bit_reader::{Bits, BitsOut, NoMemory};
use model_setup::{BookFault, Budget, DIMENSION_LIMIT, ENTRY_LIMIT};
use setup_fields::put_number;
use std::alloc::{AllocError, Global};
use std::marker::Model;

/// The most values that the vectors of a book may be for all of them to be laid out when it is
/// read: 64 KiB of them.
const MOST_LAID_OUT: u64 = 8192;

/// What every codebook begins with: the letters "BCV".
const SYNC: u32 = 0x56_4342;

/// A codebook: how entries and their vectors are read from a packet (Vorbis I, section 3).
#[derive(Drop)]
pub struct Book {
    dimensions: u16,
    lengths: Vec<Option<u8>>,
    words: WordTable,
    table: Option<VectorTable>,
    /// The vectors of all entries one after the other, where they are few values; else none.
    vectors: Vec<i64>,
}

impl Model for Book {
    ghost use Rattle.model_setup.specs.Codebook.{Codebook};
    ghost use Rattle.codebooks.specs.Books.{IsBook};

    ghost Value = { Codebook };

    ghost view = { λ a. record {
      dimensions = a.dimensions;
      lengths = a.lengths.items;
      lookup = a.table;
    } };

    ghost invariant = { λ a. IsBook a.dimensions a.lengths.items a.words a.table
        a.vectors.items };
}

/// Reads the dimensions and the number of entries, which may be at most so many.
#[tactic(auto, unfolding(model_setup::specs::BookReading::front_at))]
fn read_front(bits: &mut Bits, most: u32) -> Result<(u16, u32), BookFault>
    ensures read { Answers BookFault.Memory (λ f. (f, bits.new.left)) result
        (front_at most bits.old.left) }
    ensures bytes { bits.new.total ≡ bits.old.total }
    ensures few { IfOk result (λ f. f.1 < ENTRY_LIMIT) }
    ensures within { IfOk result (λ f. f.1 ≤ most) }
{
    let sync = read_field(bits, 24)?;
    if sync != SYNC {
        return Err(BookFault::Sync);
    }
    let dimensions = read_field(bits, 16)?;
    let entries = read_field(bits, 24)?;
    if entries > most {
        return Err(BookFault::Limit);
    }
    Ok((dimensions as u16, entries))
}

/// Reads the lengths of the codewords.
#[tactic(auto, unfolding(model_setup::specs::BookReading::length_list_at))]
fn read_lengths(alloc: Global, bits: &mut Bits, entries: u32) -> Result<Vec<Option<u8>>, BookFault>
    ensures read { Answers BookFault.Memory (λ v. (v.items, bits.new.left)) result
        (length_list_at entries bits.old.left) }
    ensures bytes { bits.new.total ≡ bits.old.total }
    ensures count { IfOk result (λ v. length v.items ≡ entries) }
    ensures small { IfOk result (λ v. All IsLengthIfUsed v.items) }
{
    let ordered = read_field(bits, 1)?;
    if ordered == 1 {
        read_ordered_lengths(alloc, bits, entries)
    } else {
        read_unordered_lengths(alloc, bits, entries)
    }
}

/// Reads the lengths of the codewords, which must make a whole tree, and gives the words.
#[tactic(auto, unfolding(model_setup::specs::BookReading::lengths_at))]
fn read_tree(
    alloc: Global,
    bits: &mut Bits,
    entries: u32,
) -> Result<(Vec<Option<u8>>, WordTable), BookFault>
    requires { entries < ENTRY_LIMIT }
    ensures read { Answers BookFault.Memory (λ t. (t.0.items, bits.new.left)) result
        (lengths_at entries bits.old.left) }
    ensures bytes { bits.new.total ≡ bits.old.total }
    ensures count { IfOk result (λ t. length t.0.items ≡ entries) }
    ensures tree { IfOk result (λ t. IsTree t.0.items t.1) }
{
    let lengths = read_lengths(alloc, bits, entries)?;
    let words = WordTable::new(alloc, &lengths)?;
    Ok((lengths, words))
}

/// How many multiplicands a book holds.
fn multiplicands_of(table: &Option<VectorTable>) -> usize
    ensures { result ≡ multiplicands_of table.now }
{
    match table {
        Some(table) => table.len(),
        None => 0,
    }
}

/// The vectors of all entries, one after the other, where they are few values.
fn lay_out(
    alloc: Global,
    table: &Option<VectorTable>,
    dimensions: u16,
    entries: u32,
) -> Result<Vec<i64>, AllocError>
    requires { IsWholeIfSome dimensions entries table.now }
    ensures { IfOk result (λ v. AreLaid dimensions entries table.now v.items) }
{
    match table {
        Some(table) if u64::from(entries) * u64::from(dimensions) <= MOST_LAID_OUT => {
            table.vectors(alloc, usize::from(dimensions), entries)
        }
        _ => Ok(Vec::new(alloc)),
    }
}

/// Writes the values that stand from a place on.
fn copy_from(values: &[i64], first: usize, out: &mut [i64])
    requires { first + length out.old ≤ length values.now }
    ensures { out.new ≡ take (length out.old) (drop first values.now) }
{
    out.copy_from_slice(&values[first..first + out.len()]);
}

impl Book {
    /// Reads a codebook, and takes its entries and multiplicands from the budget. The first cause
    /// of a refusal in reading order is answered; neither the bits nor the budget are of use then.
    #[tactic(auto, unfolding(model_setup::specs::BookReading::book_at))]
    pub fn read(alloc: Global, bits: &mut Bits, budget: &mut Budget) -> Result<Book, BookFault>
        ensures read { Answers BookFault.Memory (λ b. ((b, budget.new), bits.new.left)) result
            (book_at budget.old bits.old.left) }
        ensures bytes { bits.new.total ≡ bits.old.total }
    {
        let (dimensions, entries) = read_front(bits, budget.entries)?;
        let (lengths, words) = read_tree(alloc, bits, entries)?;
        let table = read_lookup(
            alloc,
            bits,
            u32::from(dimensions),
            entries,
            budget.multiplicands,
        )?;
        let vectors = lay_out(alloc, &table, dimensions, entries)?;
        budget.entries -= entries;
        budget.multiplicands -= multiplicands_of(&table) as u32;
        Ok(Book {
            dimensions,
            lengths,
            words,
            table,
            vectors,
        })
    }

    /// Writes the codebook behind the bits that were put before: not ordered, sparse exactly where
    /// an entry is unused, and with multiplicands of 16 bits. Where no memory is found, what was
    /// put before stays in front.
    pub fn write(&self, out: &mut BitsOut) -> Result<(), NoMemory>
        requires { HavePlaces (book_fields self.now) }
        ensures put { OnOk result (ArePut out.old out.new (book_fields self.now)) }
        ensures kept { OnErr result (IsFrontOf out.old out.new) }
    {
        put_number(out, 24, SYNC)?;
        put_number(out, 16, u32::from(self.dimensions))?;
        put_number(out, 24, self.lengths.len() as u32)?;
        write_lengths(out, &self.lengths)?;
        write_lookup(out, &self.table)
    }

    /// How many values the vector of an entry has.
    pub fn dimensions(&self) -> u32
        ensures dimensions { result ≡ self.now.dimensions }
        ensures below { result < DIMENSION_LIMIT }
    {
        u32::from(self.dimensions)
    }

    /// How many entries the book has, used or not.
    pub fn entries(&self) -> u32
        ensures entries { result ≡ length self.now.lengths }
        ensures below { result < ENTRY_LIMIT }
    {
        self.lengths.len() as u32
    }

    /// Whether entries have vectors.
    pub fn has_lookup(&self) -> bool
        ensures { result ≡ is_some self.now.lookup }
    {
        self.table.is_some()
    }

    /// Reads the entry whose codeword is next. `None` is the end of the packet, also where no
    /// entry is used: the bits are used up then.
    #[tactic(auto, unfolding(model_setup::specs::Codewords::entry_at))]
    pub fn entry(&self, bits: &mut Bits) -> Option<u32>
        ensures found { IfSome result (λ e. entry_at self.now.lengths bits.old.left
            ≡ Some (e, bits.new.left)) }
        ensures below { IfSome result (λ e. e < length self.now.lengths) }
        ensures small { IfSome result (λ e. e < ENTRY_LIMIT) }
        ensures ended { IfNone result (entry_at self.now.lengths bits.old.left ≡ None) }
        ensures finished { IfNone result (bits.new.left ≡ []) }
        ensures bytes { bits.new.total ≡ bits.old.total }
    {
        self.words.read_entry(bits)
    }

    /// Reads an entry and writes its vector, in units of 2^-16. `None` is the end of the packet:
    /// nothing is written then, and the bits are used up.
    pub fn vector(&self, bits: &mut Bits, out: &mut [i64]) -> Option<()>
        requires lookup { IsSome self.now.lookup }
        requires room { length out.old ≡ self.now.dimensions }
        ensures found { OnSome result (vector_at self.now bits.old.left
            ≡ Some (out.new, bits.new.left)) }
        ensures ended { IfNone result (vector_at self.now bits.old.left ≡ None) }
        ensures finished { IfNone result (bits.new.left ≡ []) }
        ensures bytes { bits.new.total ≡ bits.old.total }
        ensures kept { IfNone result (out.new ≡ out.old) }
        ensures small { OnSome result (All IsWithinLimit out.new) }
    {
        self.first_values(bits, out)
    }

    /// Reads an entry and writes the first values of its vector, as many as there is room for, in
    /// units of 2^-16. `None` is the end of the packet: nothing is written then, and the bits are
    /// used up.
    #[tactic(auto, unfolding(model_setup::specs::Vectors::vector_at))]
    pub fn first_values(&self, bits: &mut Bits, out: &mut [i64]) -> Option<()>
        requires lookup { IsSome self.now.lookup }
        requires room { length out.old ≤ self.now.dimensions }
        ensures found { OnSome result
            (first_values_of (length out.old) (vector_at self.now bits.old.left)
            ≡ Some (out.new, bits.new.left)) }
        ensures ended { IfNone result (vector_at self.now bits.old.left ≡ None) }
        ensures finished { IfNone result (bits.new.left ≡ []) }
        ensures bytes { bits.new.total ≡ bits.old.total }
        ensures kept { IfNone result (out.new ≡ out.old) }
        ensures small { OnSome result (All IsWithinLimit out.new) }
    {
        let entry = self.entry(bits)?;
        let dimensions = usize::from(self.dimensions);
        if !self.vectors.is_empty() {
            copy_from(&self.vectors, entry as usize * dimensions, out);
        } else if let Some(table) = &self.table {
            table.fill(entry, dimensions, out);
        }
        Some(())
    }
}
