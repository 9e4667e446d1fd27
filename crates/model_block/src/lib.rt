//! Definitions of the block of one audio packet, and of any block of a film.
#![tactic(auto)]

mod sizes;

pub use sizes::BlockSizes;
