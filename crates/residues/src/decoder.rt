ghost use Rattle.std.specs.Prelude.{◌≡◌, ◌≤◌, ◌<◌, ◌^◌, ◌+◌, ◌*◌, length, ℕ, replicate, IfOk};
ghost use Rattle.std.specs.List.{All};
ghost use Rattle.std.specs.Int.{div_ceil};
ghost use Rattle.model_fixed.specs.Fixed.{IsWithinLimit};
ghost use Rattle.model_setup.specs.ResidueSetup.{FitsBooks};
ghost use Rattle.model_setup.specs.ResidueDecoding.{group_size};
ghost use Rattle.model_setup.specs.declared.residue.ResidueKind.TheVariants.{Interleaved};
ghost use Rattle.residues.specs.Decoders.{IsDecoder, HasLines, most_values, vectors_of, with_run};

use crate::Line;
use crate::adding::{Run, add_across, add_to_line};
use crate::residue::Residue;
use bit_reader::Bits;
use codebooks::Book;
use memory::NoMemory;
use model_setup::ResidueKind;
use std::alloc::Global;
use std::ops::Range;

/// What a decoding reads by: the residue, the books and their figures.
#[derive(Clone, Copy)]
pub struct Decoder<'a> {
    pub residue: &'a Residue,
    pub books: &'a [Book],
    /// Which vectors are wanted.
    pub wanted: &'a [bool],
    /// How many values a line has.
    pub line_size: usize,
    /// How many values a vector has.
    pub size: usize,
    /// How many partitions a vector has.
    pub partitions: usize,
    /// How many classes a class word names: the standard's classwords_per_codeword.
    pub classwords: usize,
}

/// The memory that a decoding takes before its first bit.
#[derive(Drop)]
pub struct Memory {
    /// The class of each partition: a row for each vector.
    pub classes: Vec<u8>,
    /// The values of a reading.
    pub values: Vec<i64>,
}

/// What a decoding works on.
#[derive(Drop)]
pub struct Workspace<'a, 'b> {
    /// The bits of the packet.
    pub bits: &'a mut Bits<'b>,
    /// The lines that the vectors are decoded into.
    pub lines: &'a mut [Line],
    /// The class of each partition: a row for each vector.
    pub classes: &'a mut [u8],
    /// Room for the values of a reading.
    pub values: &'a mut [i64],
}

impl Decoder<'_> {
    /// The memory for a decoding: no class is read yet.
    #[tactic(auto, unfolding(crate::specs::Decoders::most_values))]
    pub fn take_memory(&self, alloc: Global) -> Result<Memory, NoMemory>
        requires { IsDecoder self.now }
        ensures classes { IfOk result (λ m. m.classes.items
            ≡ replicate (length self.now.wanted.now * self.now.partitions) 0) }
        ensures values { IfOk result (λ m. length m.values.items
            ≡ most_values self.now.residue.now self.now.size) }
    {
        let residue = self.residue;
        let count = self
            .wanted
            .len()
            .checked_mul(self.partitions)
            .ok_or(NoMemory)?;
        Ok(Memory {
            classes: vec![in alloc; 0; count]?,
            values: vec![in alloc; 0; (residue.partition_size as usize).min(self.size)]?,
        })
    }

    /// Where the values of a partition begin.
    pub fn first_of(&self, partition: usize) -> usize
        requires decoder { IsDecoder self.now }
        requires partition { partition < self.now.partitions }
        ensures first { result ≡ self.now.residue.now.begin + partition
            * self.now.residue.now.partition_size }
        ensures within { result + self.now.residue.now.partition_size ≤ self.now.size }
        ensures below { result < 2 ^ 24 }
    {
        let residue = self.residue;
        residue.begin as usize + partition * residue.partition_size as usize
    }

    /// The partitions of a group.
    pub fn group_partitions(&self, group: usize) -> Range<usize>
        requires decoder { IsDecoder self.now }
        requires group { group < div_ceil self.now.partitions self.now.classwords }
        ensures start { result.start ≡ group * self.now.classwords }
        ensures end { result.end ≡ result.start
            + group_size self.now.partitions self.now.classwords group }
        ensures within { result.end ≤ self.now.partitions }
    {
        let first = group * self.classwords;
        first..self.partitions.min(first + self.classwords)
    }

    /// Adds values to those of a vector at the places of a run.
    pub fn add(&self, lines: &mut [Line], vector: usize, run: Run, values: &[i64])
        requires lines { HasLines self.now lines.old }
        requires vector { vector < length self.now.wanted.now }
        requires some { 0 < run.count }
        requires within { (j : ℕ) → j < run.count → run.first + j * run.stride < self.now.size }
        requires interleaved { self.now.residue.now.kind ≡ Interleaved → run.stride ≡ 1 }
        requires enough { run.count ≤ length values.now }
        requires values { All IsWithinLimit values.now }
        ensures added { vectors_of self.now lines.new
            ≡ with_run (vectors_of self.now lines.old) vector run values.now }
        ensures lines { HasLines self.now lines.new }
    {
        let residue = self.residue;
        match residue.kind {
            ResidueKind::Interleaved => add_across(
                lines,
                self.line_size,
                run.first,
                run.count,
                values,
            ),
            ResidueKind::Spread | ResidueKind::InRow => add_to_line(
                &mut lines[vector],
                run,
                values,
            ),
        }
    }
}

impl Residue {
    /// What a decoding reads by, over vectors of so many values.
    pub fn decoder<'a>(
        &'a self,
        books: &'a [Book],
        wanted: &'a [bool],
        line_size: usize,
        size: usize,
    ) -> Decoder<'a>
        requires { FitsBooks books.now self.now }
        ensures decoder { IsDecoder result }
        ensures residue { result.residue.now ≡ self.now }
        ensures books { result.books.now ≡ books.now }
        ensures wanted { result.wanted.now ≡ wanted.now }
        ensures line_size { result.line_size ≡ line_size }
        ensures size { result.size ≡ size }
    {
        let covered = (self.end as usize)
            .min(size)
            .saturating_sub(self.begin as usize);
        Decoder {
            residue: self,
            books,
            wanted,
            line_size,
            size,
            partitions: covered / self.partition_size as usize,
            classwords: books[usize::from(self.class_book)].dimensions() as usize,
        }
    }
}
