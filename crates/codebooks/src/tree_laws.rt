ghost use Rattle.codebooks.specs.TreeLaws.{WordsAreSeparate, TreesAreFull, EntriesAreRead};

/// A law: of any two words of a book, neither codeword begins the other (Vorbis I, section 3.2.1).
pub fn words_are_separate()
    ensures { WordsAreSeparate }
{}

/// A law: where more than one entry is used, the codewords make a full tree: each number below 2^32
/// is one of a word's, so that whatever bits come begin with a codeword.
pub fn trees_are_full()
    ensures { TreesAreFull }
{}

/// A law: a book with a used entry reads an entry wherever 32 bits are left.
pub fn entries_are_read()
    ensures { EntriesAreRead }
{}
