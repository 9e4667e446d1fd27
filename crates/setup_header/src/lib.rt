//! Reads the setup packet of a Vorbis stream and the heads of its audio packets (Vorbis I, sections
//! 4.2.4 and 4.3.1).
#![tactic(auto)]

mod couplings;
mod faults;
mod fields;
mod laws;
mod mapping;
mod mode;
mod mux;
mod packet_head;
mod parts;
mod setup;
mod start;
mod submaps;
mod time_transforms;

pub use bit_reader::NoMemory;
pub use laws::head_goes_by_places;
pub use mapping::Mapping;
pub use model_setup::{Coupling, PacketHead, SetupCause, SetupFault};
pub use packet_head::{block_head, head};
pub use setup::{Setup, setup_bytes};
pub use submaps::Submap;
