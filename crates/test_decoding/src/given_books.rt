//! The codebooks of the tests of floors and residues.

use bit_reader::Bits;
use codebooks::{Book, Budget};
use std::alloc::Global;
use std::test::Fail;

/// The book that these bytes are.
pub fn read_book(alloc: Global, bytes: &[u8]) -> Result<Book, Fail> {
    let mut budget = Budget {
        entries: 1000,
        multiplicands: 1000,
    };
    Ok(Book::read(alloc, &mut Bits::new(bytes), &mut budget)?)
}
