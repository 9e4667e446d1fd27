//! Decodes the packet of a block: from its floors, residues and coupling to the values of its
//! channels under their window (Vorbis I, section 4.3). Whole numbers alone.
#![tactic(auto)]

mod block;
mod channels;
mod curves;
mod head;
mod submap_residues;
mod wanted;

pub use block::{HalvedBlock, decode};
pub use lap_window::HalfBlock;
pub use memory::NoMemory;
pub use model_block::BlockSizes;

#[cfg(test)]
mod tests;
