ghost use Rattle.std.specs.Prelude.{◌≡◌, ◌≤◌, ◌<◌, ◌^◌, length, IfOk};
ghost use Rattle.memory.specs.Answers.{Answers};
ghost use Rattle.model_setup.specs.ResidueReading.{residue_field, serving_book_at};
ghost use Rattle.model_setup.specs.ResidueSetup.{names_classes, has_values, Serves};

use bit_reader::Bits;
use codebooks::Book;
use model_setup::ResidueFault;

/// Reads a number of so many bits.
pub fn read_field(bits: &mut Bits, count: u32) -> Result<u32, ResidueFault>
    requires { count ≤ 32 }
    ensures field { Answers ResidueFault.Memory (λ n. (n, bits.new.left)) result
        (residue_field count bits.old.left) }
    ensures bytes { bits.new.total ≡ bits.old.total }
    ensures below { IfOk result (λ n. n < 2 ^ count) }
{
    bits.take(count).ok_or(ResidueFault::End)
}

/// Whether a book's entries name the classes of as many partitions as it has dimensions.
fn names_classes(book: &Book, classes: u32) -> bool
    ensures { result ≡ names_classes classes book.now }
{
    let dimensions = book.dimensions();
    let entries = book.entries();
    match classes.checked_pow(dimensions) {
        Some(words) => dimensions > 0 && words <= entries,
        None => false,
    }
}

/// Whether a book's entries have values.
fn has_values(book: &Book) -> bool
    ensures { result ≡ has_values book.now }
{
    book.has_lookup() && book.dimensions() > 0
}

/// Reads the number of a book for class words, of so many classes.
#[tactic(auto, unfolding(model_setup::specs::ResidueReading::serving_book_at))]
pub fn read_class_book(bits: &mut Bits, books: &[Book], classes: u32) -> Result<u8, ResidueFault>
    ensures read { Answers ResidueFault.Memory (λ n. (n, bits.new.left)) result
        (serving_book_at (names_classes classes) books.now bits.old.left) }
    ensures bytes { bits.new.total ≡ bits.old.total }
    ensures serves { IfOk result (Serves (names_classes classes) books.now) }
{
    let number = read_field(bits, 8)?;
    match books.get(number as usize) {
        Some(book) if names_classes(book, classes) => Ok(number as u8),
        _ => Err(ResidueFault::Book),
    }
}

/// Reads the number of a book for values.
#[tactic(auto, unfolding(model_setup::specs::ResidueReading::serving_book_at))]
pub fn read_value_book(bits: &mut Bits, books: &[Book]) -> Result<u8, ResidueFault>
    ensures read { Answers ResidueFault.Memory (λ n. (n, bits.new.left)) result
        (serving_book_at has_values books.now bits.old.left) }
    ensures bytes { bits.new.total ≡ bits.old.total }
    ensures serves { IfOk result (Serves has_values books.now) }
{
    let number = read_field(bits, 8)?;
    match books.get(number as usize) {
        Some(book) if has_values(book) => Ok(number as u8),
        _ => Err(ResidueFault::Book),
    }
}
