//! Puts windows on blocks, overlaps the halves of neighbouring blocks, and makes samples of 16 bits
//! of what they give.
#![tactic(auto)]

mod frames;
mod halves;
mod samples;
mod windows;

pub use frames::overlap;
pub use halves::HalfBlock;
pub use samples::pcm;
pub use windows::window;

#[cfg(test)]
mod tests;
