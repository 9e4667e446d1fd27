//! Residues: the values of a packet's spectrum before its floors shape them (Vorbis I, section 8).
#![tactic(auto)]

mod adding;
mod class_words;
mod decode;
mod decoder;
mod fields;
mod laws;
mod lines;
mod partitions;
mod passes;
mod residue;

pub use laws::{none_wanted_stays_silent, nothing_outside_the_range, unwanted_stays_silent};
pub use lines::{Line, zero_lines};
pub use memory::NoMemory;
pub use model_setup::{ResidueFault, ResidueKind};
pub use residue::Residue;
