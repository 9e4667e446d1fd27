ghost use Rattle.std.specs.Prelude.{◌≡◌, ◌≤◌, ◌<◌, ◌^◌, ◌+◌, ◌∷◌, [], length, true, is_some, slice_index_or};
ghost use Rattle.std.specs.List.{flat_map};
ghost use Rattle.std.specs.Int.{div_ceil};
ghost use Rattle.model_setup.specs.ResidueSetup.{has_values};
ghost use Rattle.model_setup.specs.ResidueDecoding.{Part, each_wanted, group_partitions, after_reading};
ghost use Rattle.residues.specs.Decoders.{HasRoom, Leads, LeadsBy, readings_of};

use crate::adding::{reading_count, run_of};
use crate::decoder::{Decoder, Workspace};
use codebooks::Book;

impl Decoder<'_> {
    /// Reads an entry and adds its values at the places of a reading. `None` is the end of the
    /// packet, here and above.
    #[tactic(auto, unfolding(crate::specs::Decoders::most_values))]
    fn read_entry(
        &self,
        workspace: &mut Workspace,
        book: &Book,
        first: usize,
        vector: usize,
        reading: usize,
    ) -> Option<()>
        requires room { HasRoom self.now workspace.old }
        requires vector { vector < length self.now.wanted.now }
        requires book { has_values book.now ≡ true }
        requires within { first + self.now.residue.now.partition_size ≤ self.now.size }
        requires first { first < 2 ^ 24 }
        requires reading { reading < length (readings_of self.now book.now first) }
        ensures { LeadsBy (after_reading book.now vector) self.now
            (slice_index_or (readings_of self.now book.now first) reading [] ∷ []) workspace.old
            workspace.new (is_some result) }
    {
        let residue = self.residue;
        let run = run_of(
            residue.kind,
            first,
            residue.partition_size as usize,
            book.dimensions() as usize,
            reading,
        );
        let values = &mut workspace.values[..run.count];
        book.first_values(workspace.bits, values)?;
        self.add(workspace.lines, vector, run, values);
        Some(())
    }

    /// Reads what a book adds to a partition of a vector.
    fn read_values(
        &self,
        workspace: &mut Workspace,
        book: &Book,
        first: usize,
        vector: usize,
    ) -> Option<()>
        requires room { HasRoom self.now workspace.old }
        requires vector { vector < length self.now.wanted.now }
        requires book { has_values book.now ≡ true }
        requires within { first + self.now.residue.now.partition_size ≤ self.now.size }
        requires first { first < 2 ^ 24 }
        ensures { LeadsBy (after_reading book.now vector) self.now
            (readings_of self.now book.now first) workspace.old workspace.new (is_some result) }
    {
        let residue = self.residue;
        let count = reading_count(
            residue.kind,
            residue.partition_size as usize,
            book.dimensions() as usize,
        );
        for reading in 0..count {
            self.read_entry(workspace, book, first, vector, reading)?;
        }
        Some(())
    }

    /// Reads what a pass adds to a partition of a vector.
    fn read_part(
        &self,
        workspace: &mut Workspace,
        pass: usize,
        partition: usize,
        vector: usize,
    ) -> Option<()>
        requires room { HasRoom self.now workspace.old }
        requires pass { pass < 8 }
        requires partition { partition < self.now.partitions }
        requires vector { vector < length self.now.wanted.now }
        ensures { Leads self.now (Part pass partition vector ∷ []) workspace.old workspace.new
            (is_some result) }
    {
        let residue = self.residue;
        let class = workspace.classes[vector * self.partitions + partition];
        match residue.cascades[usize::from(class)][pass] {
            Some(number) => self.read_values(
                workspace,
                &self.books[usize::from(number)],
                self.first_of(partition),
                vector,
            ),
            None => Some(()),
        }
    }

    /// Reads what a pass adds to a partition of each wanted vector.
    fn read_partition(&self, workspace: &mut Workspace, pass: usize, partition: usize) -> Option<()>
        requires room { HasRoom self.now workspace.old }
        requires pass { pass < 8 }
        requires partition { partition < self.now.partitions }
        ensures { Leads self.now (each_wanted self.now.wanted.now (Part pass partition))
            workspace.old workspace.new (is_some result) }
    {
        for vector in 0..self.wanted.len() {
            if self.wanted[vector] {
                self.read_part(workspace, pass, partition, vector)?;
            }
        }
        Some(())
    }

    /// Reads what a pass adds to the partitions of a group.
    pub fn read_partitions(
        &self,
        workspace: &mut Workspace,
        pass: usize,
        group: usize,
    ) -> Option<()>
        requires room { HasRoom self.now workspace.old }
        requires pass { pass < 8 }
        requires group { group < div_ceil self.now.partitions self.now.classwords }
        ensures { Leads self.now
            (flat_map (λ partition. each_wanted self.now.wanted.now (Part pass partition))
            (group_partitions self.now.partitions self.now.classwords group)) workspace.old
            workspace.new (is_some result) }
    {
        let partitions = self.group_partitions(group);
        for partition in partitions.start..partitions.end {
            self.read_partition(workspace, pass, partition)?;
        }
        Some(())
    }
}
