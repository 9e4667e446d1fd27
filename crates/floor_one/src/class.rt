ghost use Rattle.std.specs.Prelude.{◌≡◌, ◌≤◌, ◌<◌, length, IfOk, OnOk, OnErr, IfSome, is_some, nat_lt};
ghost use Rattle.std.specs.List.{All, flat_map};
ghost use Rattle.model_bits.specs.Reading.{leaving, times};
ghost use Rattle.model_setup.specs.FloorSetup.{IsFloorClass, NamesBooks};
ghost use Rattle.model_setup.specs.FloorReading.{master_at, class_at, subclass_book_at};
ghost use Rattle.model_writing.specs.SetupWriting.{subclass_book_fields, class_fields};
ghost use Rattle.setup_fields.specs.Puts.{ArePut, HavePlaces, IsFrontOf};

use crate::fields::{read_book, read_field, read_subclass_book};
use arrayvec::ArrayVec;
use bit_reader::{Bits, BitsOut, NoMemory};
use model_setup::FloorFault;
use setup_fields::{put_book, put_count, put_number};
use std::marker::Model;

/// A class of a floor's partitions (Vorbis I, section 7.2.2).
#[derive(Debug, Default, Drop)]
pub struct Class {
    pub dimensions: u8,
    pub subclass_bits: u8,
    pub master: Option<u8>,
    pub books: ArrayVec<Option<u8>, 8>,
}

impl Model for Class {
    ghost use Rattle.model_setup.specs.FloorSetup.{FloorClass};

    ghost Value = { FloorClass };

    ghost view = { λ a. record {
      dimensions = a.dimensions;
      subclass_bits = a.subclass_bits;
      master = a.master;
      books = a.books.items;
    } };
}

/// Reads the book of the class words, where there are subclasses.
#[tactic(auto, unfolding(model_setup::specs::FloorReading::master_at))]
fn read_master(bits: &mut Bits, books: u32, subclass_bits: u32) -> Result<Option<u8>, FloorFault>
    ensures read { master_at books subclass_bits bits.old.left
        ≡ leaving bits.new.left (λ n. n) result }
    ensures below { IfOk result (λ named. IfSome named (λ n. n < books)) }
    ensures named { IfOk result (λ named. is_some named ≡ nat_lt 0 subclass_bits) }
    ensures bytes { bits.new.total ≡ bits.old.total }
{
    if subclass_bits == 0 {
        return Ok(None);
    }
    let book = read_book(bits, books)?;
    Ok(Some(book))
}

/// Reads the books of so many subclasses.
fn read_subclass_books(
    bits: &mut Bits,
    books: u32,
    count: u32,
) -> Result<ArrayVec<Option<u8>, 8>, FloorFault>
    requires { count ≤ 8 }
    ensures read { times count (subclass_book_at books) bits.old.left
        ≡ leaving bits.new.left (λ v. v.items) result }
    ensures count { IfOk result (λ v. length v.items ≡ count) }
    ensures below { IfOk result (λ v. All (λ named. IfSome named (λ n. n < books)) v.items) }
    ensures bytes { bits.new.total ≡ bits.old.total }
{
    let mut found = ArrayVec::new();
    for _ in 0..count {
        let book = read_subclass_book(bits, books)?;
        found.push(book);
    }
    Ok(found)
}

/// Reads a class, in a setup of so many books.
#[tactic(auto, unfolding(model_setup::specs::FloorReading::class_at))]
pub fn read_class(bits: &mut Bits, books: u32) -> Result<Class, FloorFault>
    ensures read { class_at books bits.old.left ≡ leaving bits.new.left (λ a. a) result }
    ensures class { IfOk result IsFloorClass }
    ensures books { IfOk result (NamesBooks books) }
    ensures bytes { bits.new.total ≡ bits.old.total }
{
    let dimensions = read_field(bits, 3)? + 1;
    let subclass_bits = read_field(bits, 2)?;
    let master = read_master(bits, books, subclass_bits)?;
    let subclass_books = read_subclass_books(bits, books, 1 << subclass_bits)?;
    Ok(Class {
        dimensions: dimensions as u8,
        subclass_bits: subclass_bits as u8,
        master,
        books: subclass_books,
    })
}

/// Writes the book of a subclass, or that it has none.
fn write_subclass_book(out: &mut BitsOut, book: Option<u8>) -> Result<(), NoMemory>
    requires { HavePlaces (subclass_book_fields book) }
    ensures put { OnOk result (ArePut out.old out.new (subclass_book_fields book)) }
    ensures kept { OnErr result (IsFrontOf out.old out.new) }
{
    match book {
        Some(book) => put_number(out, 8, u32::from(book) + 1),
        None => put_number(out, 8, 0),
    }
}

/// Writes the books of subclasses.
fn write_subclass_books(out: &mut BitsOut, books: &[Option<u8>]) -> Result<(), NoMemory>
    requires { HavePlaces (flat_map subclass_book_fields books.now) }
    ensures put { OnOk result (ArePut out.old out.new (flat_map subclass_book_fields books.now)) }
    ensures kept { OnErr result (IsFrontOf out.old out.new) }
{
    for book in books {
        write_subclass_book(out, *book)?;
    }
    Ok(())
}

impl Class {
    /// Writes the class.
    pub fn write(&self, out: &mut BitsOut) -> Result<(), NoMemory>
        requires { HavePlaces (class_fields self.now) }
        ensures put { OnOk result (ArePut out.old out.new (class_fields self.now)) }
        ensures kept { OnErr result (IsFrontOf out.old out.new) }
    {
        put_count(out, 3, u32::from(self.dimensions))?;
        put_number(out, 2, u32::from(self.subclass_bits))?;
        put_book(out, self.master)?;
        write_subclass_books(out, &self.books)
    }
}
