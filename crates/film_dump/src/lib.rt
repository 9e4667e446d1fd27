//! Writes the line of a film as samples of 16 bits, frame after frame, into a sink.
#![tactic(auto)]

mod fault;
mod frames;
mod kept;
mod line;
mod puts;

pub use fault::DumpFault;
pub use film_blocks::Reel;
pub use line::dump;
pub use puts::PUT_SIZE;
