//! Half of the sums of a block's transform, exact, in n log n steps.
//!
//! The cosines of the sums, taken at the powers of one number in place of each number in turn, make
//! the sums one product of two polynomials modulo x^n + 1: that of the bins, and one that is laid
//! out once for each block size. A bin and a sum have a place for each power, with a sign.
#![tactic(auto)]

mod block;
mod exchange;
mod lanes;
mod making;
mod places;
mod silence;
mod transforms;

pub use block::{Block, SHORT_LEVELS};
pub use places::Place;
pub use transforms::Transforms;

#[cfg(test)]
mod tests;
