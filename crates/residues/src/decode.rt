ghost use Rattle.std.specs.Prelude.{◌≡◌, length, OnOk, OnErr};
ghost use Rattle.std.specs.List.{All, list_any};
ghost use Rattle.model_fixed.specs.Fixed.{IsWithinLimit};
ghost use Rattle.model_setup.specs.ResidueSetup.{FitsBooks};
ghost use Rattle.model_setup.specs.ResidueDecoding.{residue_vectors};
ghost use Rattle.residues.specs.Layout.{line_size, AreZero};

use crate::Line;
use crate::decoder::Workspace;
use crate::residue::Residue;
use bit_reader::Bits;
use codebooks::Book;
use memory::NoMemory;
use model_setup::ResidueKind;
use std::alloc::Global;

/// How many values each of the lines has.
fn size_of_line(lines: &[Line]) -> usize
    ensures { result ≡ line_size lines.now }
{
    lines.first().map_or(0, |line| line.items().len())
}

/// Whether one of them is wanted.
fn is_any(wanted: &[bool]) -> bool
    ensures { result ≡ list_any (λ w. w) wanted.now }
{
    wanted.contains(&true)
}

impl Residue {
    /// Decodes the vectors of a packet, of which those that are wanted are read, and writes them
    /// over the lines, in units of 2^-16. Interleaved vectors are all read where one of them is
    /// wanted. The books are those of the setup; the lines are as many as `wanted` tells of, all
    /// of one size and 0. The end of the packet ends the decoding; what was decoded before it is
    /// kept. It takes its memory before its first bit: where none is found, neither lines nor bits
    /// have changed (Vorbis I, section 8.6.2).
    pub fn decode(
        &self,
        alloc: Global,
        bits: &mut Bits,
        books: &[Book],
        wanted: &[bool],
        vectors: &mut [Line],
    ) -> Result<(), NoMemory>
        requires books { FitsBooks books.now self.now }
        requires wanted { length wanted.now ≡ length vectors.old }
        requires sizes { All (λ line. length line ≡ line_size vectors.old) vectors.old }
        requires zero { AreZero vectors.old }
        ensures decoded { OnOk result ((vectors.new, bits.new.left)
            ≡ residue_vectors books.now self.now (line_size vectors.old) wanted.now bits.old.left) }
        ensures sizes { OnOk result
            (All (λ line. length line ≡ line_size vectors.old) vectors.new) }
        ensures small { All (All IsWithinLimit) vectors.new }
        ensures bytes { bits.new.total ≡ bits.old.total }
        ensures kept_vectors { OnErr result (vectors.new ≡ vectors.old) }
        ensures kept_bits { OnErr result (bits.new ≡ bits.old) }
    {
        let line_size = size_of_line(vectors);
        let any_wanted = [is_any(wanted)];
        let (wanted, size) = match self.kind {
            ResidueKind::Interleaved => (
                any_wanted.as_slice(),
                line_size.saturating_mul(vectors.len()),
            ),
            ResidueKind::Spread | ResidueKind::InRow => (wanted, line_size),
        };
        let decoder = self.decoder(books, wanted, line_size, size);
        let mut memory = decoder.take_memory(alloc)?;
        let mut workspace = Workspace {
            bits,
            lines: vectors,
            classes: &mut memory.classes,
            values: &mut memory.values,
        };
        // what was read before the end of the packet stays
        let _ended = decoder.read_passes(&mut workspace);
        Ok(())
    }
}
