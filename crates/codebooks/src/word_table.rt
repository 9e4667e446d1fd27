ghost use Rattle.std.specs.Prelude.{◌≡◌, ◌≤◌, ◌<◌, ◌^◌, [], length, List, IfSome, IfNone, IfOk, Some, None};
ghost use Rattle.std.specs.List.{All, AllPairs, Contains};
ghost use Rattle.std.specs.List.Sorted.{IsPermutation};
ghost use Rattle.std.specs.Option.{ok_or};
ghost use Rattle.memory.specs.Answers.{Answers};
ghost use Rattle.model_setup.specs.declared.book.Word.{Word};
ghost use Rattle.model_setup.specs.Codewords.{book_words, entry_by, IsPlaced, AreApart};
ghost use Rattle.codebooks.specs.Books.{IsTree, words_or_none};
ghost use Rattle.codebooks.specs.Free.{IsLengthIfUsed, claims};
ghost use Rattle.codebooks.specs.Looks.{IsRising, SameOrApart, Finds, IsBegun, NoneBegins};
ghost use Rattle.codebooks.specs.WordTables.{ArePlaces};

use crate::words::{codewords, size_of};
use bit_reader::Bits;
use model_setup::{BookFault, ENTRY_LIMIT, Word};
use std::alloc::{AllocError, Global};
use std::marker::Model;

/// The most bits of a codeword that are found by one look: the table has 2^10 places at most.
const MOST_WIDTH: u32 = 10;

/// What bits begin with: the entry of their codeword, and how many bits that has. It has 0 where
/// the codeword is longer than the table's bits.
#[derive(Clone, Copy)]
struct Place {
    entry: u32,
    len: u8,
}

/// Whether a number is one of a word's.
fn has_number(word: &Word, number: u32) -> bool
    ensures { result ≡ claims number word.now }
{
    let end = u64::from(word.start) + size_of(u32::from(word.len));
    word.start <= number && u64::from(number) < end
}

/// The word that has the number, among words in order of their intervals.
fn bisect(words: &[Word], number: u32) -> Option<Word>
    requires rising { IsRising words.now }
    requires apart { SameOrApart words.now }
    ensures { Finds words.now number result }
{
    let count = words.partition_point(|w| w.start <= number);
    if count == 0 {
        return None;
    }
    let word = words[count - 1];
    if has_number(&word, number) {
        Some(word)
    } else {
        None
    }
}

/// How many bits a table of these words looks at: as many as the longest has, 10 at most.
fn table_width(words: &[Word]) -> u32
    ensures some { 0 < result }
    ensures few { result ≤ MOST_WIDTH }
{
    let longest = words.iter().map(|w| w.len).max();
    u32::from(longest.unwrap_or(1)).clamp(1, MOST_WIDTH)
}

/// Writes what a word's codeword stands for at each number of the table that begins with it. Where
/// the codeword is longer than the table's bits, there is none.
fn write_places(places: &mut [Place], width: u32, word: &Word)
    requires few { width ≤ MOST_WIDTH }
    requires placed { IsPlaced word.now }
    requires count { length places.old ≡ 2 ^ width }
    ensures count { length places.new ≡ 2 ^ width }
    ensures places { (words : List Word) → Contains words word.now
        → ArePlaces words width places.old → ArePlaces words width places.new }
{
    let len = u32::from(word.len);
    if len > width {
        return;
    }
    let place = Place {
        entry: word.entry,
        len: word.len,
    };
    let first = word.start.reverse_bits() as usize;
    let step = 1usize << len;
    for i in 0..1usize << (width - len) {
        places[first + i * step] = place;
    }
}

/// What the table of so many bits holds: a place for each number that they can be, the first of
/// them the lowest.
fn places_of(alloc: Global, words: &[Word], width: u32) -> Result<Vec<Place>, AllocError>
    requires few { width ≤ MOST_WIDTH }
    requires placed { All IsPlaced words.now }
    ensures { IfOk result (λ v. ArePlaces words.now width v.items) }
{
    let mut places = vec![in alloc; Place { entry: 0, len: 0 }; 1usize << width]?;
    for word in words {
        write_places(&mut places, width, word);
    }
    Ok(places)
}

/// The codewords of a book in order of their intervals, with a table of the short ones.
#[derive(Drop)]
pub struct WordTable {
    words: Vec<Word>,
    /// How many bits the table looks at.
    width: u32,
    places: Vec<Place>,
}

impl Model for WordTable {
    ghost use Rattle.std.specs.Prelude.{List};
    ghost use Rattle.model_setup.specs.declared.book.Word.{Word};
    ghost use Rattle.codebooks.specs.WordTables.{IsWordTable};

    ghost Value = { List Word };

    ghost view = { λ a. a.words.items };

    ghost invariant = { λ a. IsWordTable a.words.items a.width a.places.items };
}

impl WordTable {
    /// The codewords of a book whose entries have these lengths.
    pub fn new(alloc: Global, lengths: &[Option<u8>]) -> Result<WordTable, BookFault>
        requires count { length lengths.now < ENTRY_LIMIT }
        requires small { All IsLengthIfUsed lengths.now }
        ensures tree { IfOk result (λ t. IsTree lengths.now t) }
        ensures words { Answers BookFault.Memory (λ _. words_or_none (book_words lengths.now))
            result (ok_or (book_words lengths.now) BookFault.Tree) }
    {
        let words = codewords(alloc, lengths)?;
        let width = table_width(&words);
        let places = places_of(alloc, &words, width)?;
        Ok(WordTable {
            words,
            width,
            places,
        })
    }

    /// Reads the entry whose codeword is next. At the end of the packet, and where there are no
    /// codewords, the bits are used up.
    pub fn read_entry(&self, bits: &mut Bits) -> Option<u32>
        ensures found { (book : List Word) → IsPermutation book self.now → AllPairs AreApart book
            → IfSome result (λ e. entry_by book bits.old.left ≡ Some (e, bits.new.left)) }
        ensures ended { (book : List Word) → IsPermutation book self.now → AllPairs AreApart book
            → IfNone result (entry_by book bits.old.left ≡ None) }
        ensures finished { IfNone result (bits.new.left ≡ []) }
        ensures bytes { bits.new.total ≡ bits.old.total }
    {
        match self.words.as_slice() {
            [] => {
                bits.finish();
                None
            }
            [word] => {
                bits.take(1)?;
                Some(word.entry)
            }
            _ => self.look_up(bits),
        }
    }

    /// Reads the entry by the place of the table that the next bits name.
    fn look_up(&self, bits: &mut Bits) -> Option<u32>
        ensures found { IfSome result (λ e. IsBegun self.now bits.old.left e bits.new.left) }
        ensures ended { IfNone result (NoneBegins self.now bits.old.left) }
        ensures finished { IfNone result (bits.new.left ≡ []) }
        ensures bytes { bits.new.total ≡ bits.old.total }
    {
        let place = self.places[bits.look(self.width) as usize];
        if place.len == 0 {
            return self.look_far(bits);
        }
        bits.take(u32::from(place.len))?;
        Some(place.entry)
    }

    /// Reads the entry by a bisect for the number that the next 32 bits make, the first of them the
    /// highest.
    fn look_far(&self, bits: &mut Bits) -> Option<u32>
        ensures found { IfSome result (λ e. IsBegun self.now bits.old.left e bits.new.left) }
        ensures ended { IfNone result (NoneBegins self.now bits.old.left) }
        ensures finished { IfNone result (bits.new.left ≡ []) }
        ensures bytes { bits.new.total ≡ bits.old.total }
    {
        let number = bits.look(32).reverse_bits();
        let Some(word) = bisect(&self.words, number) else {
            bits.finish();
            return None;
        };
        bits.take(u32::from(word.len))?;
        Some(word.entry)
    }
}
