ghost use Rattle.std.specs.Prelude.{◌≡◌, ◌≤◌, ◌<◌, ◌^◌, ◌+◌, ◌∷◌, [], length, is_some};
ghost use Rattle.std.specs.Int.{div_ceil};
ghost use Rattle.model_setup.specs.ResidueDecoding.{Word, each_wanted, words_of_group, overwritten, classes_in};
ghost use Rattle.residues.specs.Decoders.{HasRoom, Leads};

use crate::decoder::{Decoder, Workspace};

/// A class word: a number of as many digits as it names classes, in the base of the classes.
#[derive(Clone, Copy)]
struct ClassWord {
    number: u32,
    base: u32,
    classwords: usize,
}

/// Splits a class word into the first of its classes: the last class is the lowest digit.
fn split_word(classes: &mut [u8], word: ClassWord)
    requires some { 0 < word.base }
    requires few { word.base ≤ 64 }
    requires number { word.number < 2 ^ 24 }
    requires classwords { word.classwords < 2 ^ 16 }
    requires within { length classes.old ≤ word.classwords }
    ensures { classes.new
        ≡ classes_in word.base word.classwords (length classes.old) word.number }
{
    let count = classes.len();
    let past = word.base.saturating_pow((word.classwords - count) as u32);
    let mut rest = word.number / past;
    for k in 0..count {
        classes[count - 1 - k] = (rest % word.base) as u8;
        rest /= word.base;
    }
}

/// Writes the first of a class word's classes for so many partitions, from a place on.
fn write_word(classes: &mut [u8], first: usize, count: usize, word: ClassWord)
    requires room { first + count ≤ length classes.old }
    requires some { 0 < word.base }
    requires few { word.base ≤ 64 }
    requires number { word.number < 2 ^ 24 }
    requires classwords { word.classwords < 2 ^ 16 }
    requires within { count ≤ word.classwords }
    ensures { classes.new
        ≡ overwritten classes.old first (classes_in word.base word.classwords count word.number) }
{
    split_word(&mut classes[first..first + count], word);
}

impl Decoder<'_> {
    /// Reads the class word of a vector for a group. `None` is the end of the packet, here and
    /// above.
    fn read_word(&self, workspace: &mut Workspace, group: usize, vector: usize) -> Option<()>
        requires room { HasRoom self.now workspace.old }
        requires group { group < div_ceil self.now.partitions self.now.classwords }
        requires vector { vector < length self.now.wanted.now }
        ensures { Leads self.now (Word group vector ∷ []) workspace.old workspace.new
            (is_some result) }
    {
        let residue = self.residue;
        let book = &self.books[usize::from(residue.class_book)];
        let number = book.entry(workspace.bits)?;
        let word = ClassWord {
            number,
            base: residue.cascades.len() as u32,
            classwords: self.classwords,
        };
        let partitions = self.group_partitions(group);
        write_word(
            workspace.classes,
            vector * self.partitions + partitions.start,
            partitions.end - partitions.start,
            word,
        );
        Some(())
    }

    /// Reads the class words of a group.
    fn read_words(&self, workspace: &mut Workspace, group: usize) -> Option<()>
        requires room { HasRoom self.now workspace.old }
        requires group { group < div_ceil self.now.partitions self.now.classwords }
        ensures { Leads self.now (each_wanted self.now.wanted.now (Word group)) workspace.old
            workspace.new (is_some result) }
    {
        for vector in 0..self.wanted.len() {
            if self.wanted[vector] {
                self.read_word(workspace, group, vector)?;
            }
        }
        Some(())
    }

    /// Reads the class words of a group, which stand in the first pass alone.
    pub fn read_words_in(&self, workspace: &mut Workspace, pass: usize, group: usize) -> Option<()>
        requires room { HasRoom self.now workspace.old }
        requires group { group < div_ceil self.now.partitions self.now.classwords }
        ensures { Leads self.now (words_of_group self.now.wanted.now pass group) workspace.old
            workspace.new (is_some result) }
    {
        if pass == 0 {
            self.read_words(workspace, group)
        } else {
            Some(())
        }
    }
}
