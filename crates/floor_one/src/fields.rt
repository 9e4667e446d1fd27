ghost use Rattle.std.specs.Prelude.{◌≡◌, ◌≤◌, ◌<◌, ◌^◌, IfOk, IfSome};
ghost use Rattle.model_bits.specs.Reading.{leaving};
ghost use Rattle.model_setup.specs.FloorReading.{floor_field, book_number_at, subclass_book_at};

use bit_reader::Bits;
use model_setup::FloorFault;

/// Reads a number of so many bits.
pub fn read_field(bits: &mut Bits, count: u32) -> Result<u32, FloorFault>
    requires { count ≤ 32 }
    ensures field { floor_field count bits.old.left ≡ leaving bits.new.left (λ n. n) result }
    ensures below { IfOk result (λ n. n < 2 ^ count) }
    ensures bytes { bits.new.total ≡ bits.old.total }
{
    bits.take(count).ok_or(FloorFault::End)
}

/// Reads the number of a book, which must be one of so many.
#[tactic(auto, unfolding(model_setup::specs::FloorReading::book_number_at))]
pub fn read_book(bits: &mut Bits, books: u32) -> Result<u8, FloorFault>
    ensures read { book_number_at books bits.old.left ≡ leaving bits.new.left (λ n. n) result }
    ensures below { IfOk result (λ n. n < books) }
    ensures bytes { bits.new.total ≡ bits.old.total }
{
    let book = read_field(bits, 8)?;
    if book >= books {
        return Err(FloorFault::Book);
    }
    Ok(book as u8)
}

/// Reads the number of a subclass's book, if it has one, which must be one of so many.
#[tactic(auto, unfolding(model_setup::specs::FloorReading::subclass_book_at))]
pub fn read_subclass_book(bits: &mut Bits, books: u32) -> Result<Option<u8>, FloorFault>
    ensures read { subclass_book_at books bits.old.left ≡ leaving bits.new.left (λ n. n) result }
    ensures below { IfOk result (λ named. IfSome named (λ n. n < books)) }
    ensures bytes { bits.new.total ≡ bits.old.total }
{
    let number = read_field(bits, 8)?;
    if number > books {
        return Err(FloorFault::Book);
    }
    Ok((number as u8).checked_sub(1))
}
