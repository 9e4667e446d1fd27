//! From residues and floors to the values of a block, in whole numbers: coupling, the product with
//! the curve, and the transform (Vorbis I, sections 4.3.5 to 4.3.7). No call takes memory.
#![tactic(auto)]

mod block;
mod coupling;
mod spectrum;
mod sums;
mod unfolding;

pub use block::transform;
pub use coupling::{uncouple, uncouple_all};
pub use spectrum::shape;
pub use sums::half_sums;
pub use unfolding::unfold_sums;

#[cfg(test)]
mod tests;
