//! The tests of the crates that read packets, books, floors and residues. They stand above those
//! crates, so that each of those is proved once, without tests.
#![tactic(auto)]

#[cfg(test)]
mod bits;
#[cfg(test)]
mod books;
#[cfg(test)]
mod floors;
#[cfg(test)]
mod given_books;
#[cfg(test)]
mod head_fields;
#[cfg(test)]
mod residue_vectors;
