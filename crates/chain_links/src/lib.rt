//! Finds the links of a chained Ogg file, and of each link the Vorbis stream that is played (RFC
//! 3533, section 4).
#![tactic(auto)]

mod chain;
mod vorbis;

pub use chain::{links, pages_in};
pub use model_ogg::{LinkFault, LinkPages, MOST_LINKS, PageRef};
pub use vorbis::begins_vorbis;
