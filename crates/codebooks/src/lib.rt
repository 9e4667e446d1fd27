//! Codebooks: their codewords, and the vectors of their entries (Vorbis I, sections 3 and 9.2.3).
#![tactic(auto)]

mod book;
mod fields;
mod fixed;
mod lengths;
mod lookup;
mod tree_laws;
mod word_table;
mod words;

pub use book::Book;
pub use model_setup::{BookFault, Budget};
pub use tree_laws::{entries_are_read, trees_are_full, words_are_separate};
