//! Opens a film: accepts it, or finds the first fault that refuses it, and knows of each link the
//! numbers of its stream, its setup and its entries, and the index of the film's line. Decodes any
//! block of a film alone, from its packet, the setup of its link and the constants.
#![tactic(auto)]

mod block;
mod decoding;
mod ends;
mod film;
mod headers;
mod held;
mod links;
mod places;
mod reel;
mod rows;

pub use block::Block;
pub use constants_file::Constants;
pub use film::Film;
pub use film_index::Index;
pub use lap_window::HalfBlock;
pub use memory::NoMemory;
pub use model_line::{FilmFault, Half, LinkCounts, LinkFacts, MOST_CHANNELS, MOST_ENTRIES};
pub use reel::Reel;
pub use setup_header::Setup;

#[cfg(test)]
mod tests;
