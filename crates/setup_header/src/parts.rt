ghost use Rattle.std.specs.Prelude.{◌≡◌, ◌≤◌, ◌<◌, ◌+◌, length, IfOk, ◌++◌, OnOk, OnErr};
ghost use Rattle.std.specs.List.{All, flat_map};
ghost use Rattle.model_bits.specs.Reading.{leaving, repeat};
ghost use Rattle.memory.specs.Answers.{Answers};
ghost use Rattle.model_setup.specs.FloorSetup.{IsFloor, FloorNamesBooks};
ghost use Rattle.model_setup.specs.ResidueSetup.{FitsBooks};
ghost use Rattle.model_setup.specs.SetupPacket.{each_number, next_book_at, books_at, numbered_floor_at, floors_at, numbered_residue_at, residues_at};
ghost use Rattle.model_writing.specs.SetupWriting.{counted_fields, book_fields};
ghost use Rattle.setup_fields.specs.Puts.{ArePut, HavePlaces, IsFrontOf};
ghost use Rattle.setup_header.specs.Parts.{numbered_floor_fields, numbered_residue_fields};

use crate::faults::{bad, book_fault, floor_fault, residue_fault};
use crate::fields::{read_count, read_field};
use bit_reader::{Bits, BitsOut, NoMemory};
use codebooks::{Book, Budget};
use floor_one::Floor;
use model_setup::{BOOK_BUDGET, SetupCause, SetupFault};
use residues::Residue;
use setup_fields::{put_count, put_number};
use std::alloc::Global;

/// Reads the codebook of this number, and takes what it holds from the budget.
#[tactic(auto, unfolding(model_setup::specs::SetupPacket::next_book_at))]
fn read_book(
    alloc: Global,
    bits: &mut Bits,
    number: u32,
    budget: &mut Budget,
) -> Result<Book, SetupFault>
    ensures read { Answers SetupFault.Memory
        (λ book. ((book, (number + 1, budget.new)), bits.new.left)) result
        (next_book_at (number, budget.old) bits.old.left) }
    ensures bytes { bits.new.total ≡ bits.old.total }
{
    Book::read(alloc, bits, budget).map_err(|fault| book_fault(number, fault))
}

/// Reads so many codebooks, which share the budget.
fn read_each_book(
    alloc: Global,
    bits: &mut Bits,
    count: u32,
    budget: &mut Budget,
) -> Result<Vec<Book>, SetupFault>
    ensures read { Answers SetupFault.Memory
        (λ v. ((v.items, (count, budget.new)), bits.new.left)) result
        (repeat count next_book_at (0, budget.old) bits.old.left) }
    ensures count { IfOk result (λ v. length v.items ≡ count) }
    ensures bytes { bits.new.total ≡ bits.old.total }
{
    let mut books = Vec::new(alloc);
    for number in 0..count {
        let book = read_book(alloc, bits, number, budget)?;
        books.push(book)?;
    }
    Ok(books)
}

/// Reads the codebooks of a setup.
#[tactic(auto, unfolding(model_setup::specs::SetupPacket::books_at))]
pub fn read_books(alloc: Global, bits: &mut Bits) -> Result<Vec<Book>, SetupFault>
    ensures read { Answers SetupFault.Memory (λ v. (v.items, bits.new.left)) result
        (books_at bits.old.left) }
    ensures few { IfOk result (λ v. length v.items ≤ 256) }
    ensures bytes { bits.new.total ≡ bits.old.total }
{
    let count = read_count(bits, 8)?;
    let mut budget = Budget {
        entries: BOOK_BUDGET,
        multiplicands: BOOK_BUDGET,
    };
    read_each_book(alloc, bits, count, &mut budget)
}

/// Reads the floor of this number, in a setup of so many books. Only floors of type 1 are accepted.
#[tactic(auto, unfolding(model_setup::specs::SetupPacket::numbered_floor_at))]
fn read_floor(bits: &mut Bits, books: u32, number: u32) -> Result<Floor, SetupFault>
    ensures read { numbered_floor_at books number bits.old.left
        ≡ leaving bits.new.left (λ floor. floor) result }
    ensures floor { IfOk result IsFloor }
    ensures books { IfOk result (FloorNamesBooks books) }
    ensures bytes { bits.new.total ≡ bits.old.total }
{
    let cause = match read_field(bits, 16)? {
        0 => SetupCause::FloorZero,
        1 => return Floor::read(bits, books).map_err(|fault| floor_fault(number, fault)),
        _ => SetupCause::FloorKind,
    };
    Err(bad(cause, number))
}

/// Reads so many floors.
fn read_each_floor(
    alloc: Global,
    bits: &mut Bits,
    books: u32,
    count: u32,
) -> Result<Vec<Floor>, SetupFault>
    ensures read { Answers SetupFault.Memory (λ v. (v.items, bits.new.left)) result
        (each_number (numbered_floor_at books) count bits.old.left) }
    ensures count { IfOk result (λ v. length v.items ≡ count) }
    ensures floors { IfOk result (λ v. All IsFloor v.items) }
    ensures books { IfOk result (λ v. All (FloorNamesBooks books) v.items) }
    ensures bytes { bits.new.total ≡ bits.old.total }
{
    let mut floors = Vec::new(alloc);
    for number in 0..count {
        let floor = read_floor(bits, books, number)?;
        floors.push(floor)?;
    }
    Ok(floors)
}

/// Reads the floors of a setup of so many books.
#[tactic(auto, unfolding(model_setup::specs::SetupPacket::floors_at))]
pub fn read_floors(alloc: Global, bits: &mut Bits, books: u32) -> Result<Vec<Floor>, SetupFault>
    ensures read { Answers SetupFault.Memory (λ v. (v.items, bits.new.left)) result
        (floors_at books bits.old.left) }
    ensures few { IfOk result (λ v. length v.items ≤ 64) }
    ensures floors { IfOk result (λ v. All IsFloor v.items) }
    ensures books { IfOk result (λ v. All (FloorNamesBooks books) v.items) }
    ensures bytes { bits.new.total ≡ bits.old.total }
{
    let count = read_count(bits, 6)?;
    read_each_floor(alloc, bits, books, count)
}

/// Reads the residue of this number, in a setup of these books.
#[tactic(auto, unfolding(model_setup::specs::SetupPacket::numbered_residue_at))]
fn read_residue(
    alloc: Global,
    bits: &mut Bits,
    books: &[Book],
    number: u32,
) -> Result<Residue, SetupFault>
    ensures read { Answers SetupFault.Memory (λ residue. (residue, bits.new.left)) result
        (numbered_residue_at books.now number bits.old.left) }
    ensures fits { IfOk result (FitsBooks books.now) }
    ensures bytes { bits.new.total ≡ bits.old.total }
{
    let kind = read_field(bits, 16)?;
    Residue::read(alloc, bits, kind as u16, books).map_err(|fault| residue_fault(number, fault))
}

/// Reads so many residues.
fn read_each_residue(
    alloc: Global,
    bits: &mut Bits,
    books: &[Book],
    count: u32,
) -> Result<Vec<Residue>, SetupFault>
    ensures read { Answers SetupFault.Memory (λ v. (v.items, bits.new.left)) result
        (each_number (numbered_residue_at books.now) count bits.old.left) }
    ensures count { IfOk result (λ v. length v.items ≡ count) }
    ensures fit { IfOk result (λ v. All (FitsBooks books.now) v.items) }
    ensures bytes { bits.new.total ≡ bits.old.total }
{
    let mut residues = Vec::new(alloc);
    for number in 0..count {
        let residue = read_residue(alloc, bits, books, number)?;
        residues.push(residue)?;
    }
    Ok(residues)
}

/// Reads the residues of a setup of these books.
#[tactic(auto, unfolding(model_setup::specs::SetupPacket::residues_at))]
pub fn read_residues(
    alloc: Global,
    bits: &mut Bits,
    books: &[Book],
) -> Result<Vec<Residue>, SetupFault>
    ensures read { Answers SetupFault.Memory (λ v. (v.items, bits.new.left)) result
        (residues_at books.now bits.old.left) }
    ensures few { IfOk result (λ v. length v.items ≤ 64) }
    ensures fit { IfOk result (λ v. All (FitsBooks books.now) v.items) }
    ensures bytes { bits.new.total ≡ bits.old.total }
{
    let count = read_count(bits, 6)?;
    read_each_residue(alloc, bits, books, count)
}

/// Writes each of these codebooks.
fn write_each_book(out: &mut BitsOut, books: &[Book]) -> Result<(), NoMemory>
    requires { HavePlaces (flat_map book_fields books.now) }
    ensures put { OnOk result (ArePut out.old out.new (flat_map book_fields books.now)) }
    ensures kept { OnErr result (IsFrontOf out.old out.new) }
{
    for book in books {
        book.write(out)?;
    }
    Ok(())
}

/// Writes the codebooks of a setup.
pub fn write_books(out: &mut BitsOut, books: &[Book]) -> Result<(), NoMemory>
    requires { HavePlaces (counted_fields 8 book_fields books.now) }
    ensures put { OnOk result
        (ArePut out.old out.new (counted_fields 8 book_fields books.now)) }
    ensures kept { OnErr result (IsFrontOf out.old out.new) }
{
    put_count(out, 8, books.len() as u32)?;
    write_each_book(out, books)
}

/// Writes a floor, behind its type.
fn write_floor(out: &mut BitsOut, floor: &Floor) -> Result<(), NoMemory>
    requires { HavePlaces (numbered_floor_fields floor.now) }
    ensures put { OnOk result (ArePut out.old out.new (numbered_floor_fields floor.now)) }
    ensures kept { OnErr result (IsFrontOf out.old out.new) }
{
    put_number(out, 16, 1)?;
    floor.write(out)
}

/// Writes each of these floors.
fn write_each_floor(out: &mut BitsOut, floors: &[Floor]) -> Result<(), NoMemory>
    requires { HavePlaces (flat_map numbered_floor_fields floors.now) }
    ensures put { OnOk result (ArePut out.old out.new (flat_map numbered_floor_fields floors.now)) }
    ensures kept { OnErr result (IsFrontOf out.old out.new) }
{
    for floor in floors {
        write_floor(out, floor)?;
    }
    Ok(())
}

/// Writes the floors of a setup.
pub fn write_floors(out: &mut BitsOut, floors: &[Floor]) -> Result<(), NoMemory>
    requires { HavePlaces (counted_fields 6 numbered_floor_fields floors.now) }
    ensures put { OnOk result
        (ArePut out.old out.new (counted_fields 6 numbered_floor_fields floors.now)) }
    ensures kept { OnErr result (IsFrontOf out.old out.new) }
{
    put_count(out, 6, floors.len() as u32)?;
    write_each_floor(out, floors)
}

/// Writes a residue, behind its type.
fn write_residue(out: &mut BitsOut, residue: &Residue) -> Result<(), NoMemory>
    requires { HavePlaces (numbered_residue_fields residue.now) }
    ensures put { OnOk result (ArePut out.old out.new (numbered_residue_fields residue.now)) }
    ensures kept { OnErr result (IsFrontOf out.old out.new) }
{
    put_number(out, 16, residue.kind())?;
    residue.write(out)
}

/// Writes each of these residues.
fn write_each_residue(out: &mut BitsOut, residues: &[Residue]) -> Result<(), NoMemory>
    requires { HavePlaces (flat_map numbered_residue_fields residues.now) }
    ensures put { OnOk result
        (ArePut out.old out.new (flat_map numbered_residue_fields residues.now)) }
    ensures kept { OnErr result (IsFrontOf out.old out.new) }
{
    for residue in residues {
        write_residue(out, residue)?;
    }
    Ok(())
}

/// Writes the residues of a setup.
pub fn write_residues(out: &mut BitsOut, residues: &[Residue]) -> Result<(), NoMemory>
    requires { HavePlaces (counted_fields 6 numbered_residue_fields residues.now) }
    ensures put { OnOk result
        (ArePut out.old out.new (counted_fields 6 numbered_residue_fields residues.now)) }
    ensures kept { OnErr result (IsFrontOf out.old out.new) }
{
    put_count(out, 6, residues.len() as u32)?;
    write_each_residue(out, residues)
}
