//! Finds the packets of one stream of an Ogg file, and the losses among them (RFC 3533, sections 5
//! and 6). What a page does to them is said by six rules, which comments cite by number; they stand
//! at the head of `specs/Entries.antt` of `model_ogg`.
#![tactic(auto)]

mod entry;
mod fault;
mod front;
mod join;
mod kept;
mod list;
mod page;
mod pieces;
mod segments;
mod stream;
mod walk;

pub use entry::Entry;
pub use fault::EntryFault;
pub use front::Front;
pub use join::joined;
pub use kept::KeptEntry;
pub use memory::NoMemory;
pub use model_ogg::{Mark, PageRef};
pub use pieces::{Piece, Pieces};
pub use stream::{kept_packets, packets};
pub use walk::stream_len;
