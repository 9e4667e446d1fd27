//! What the header packets of a Vorbis stream say: definitions that the contracts of the crates
//! above cite, and the plain data that both share (Vorbis I, sections 3 to 5).
#![tactic(auto)]

ghost use Rattle.model_setup.specs.Leftmost.{IdentNamesLeftmost, CommentNamesLeftmost};

mod book;
mod codeword_laws;
mod floor;
mod head;
mod residue;
mod setup;

pub use book::{BookFault, Budget, DIMENSION_LIMIT, ENTRY_LIMIT, LookupKind, Word};
pub use codeword_laws::{codewords_are_apart, codewords_are_intervals, root_is_greatest};
pub use floor::{Final, FloorFault, MOST_POINTS};
pub use head::{CommentCause, IdentCause, IdentFields, StartCause};
pub use residue::{ResidueFault, ResidueKind};
pub use setup::{BOOK_BUDGET, Coupling, PacketHead, SetupCause, SetupFault};

/// A law: what makes an identification packet, or refuses it, goes by its fields at their places.
/// All are right, or the cause is that of the leftmost that is missing or wrong (Vorbis I, section
/// 4.2.2).
pub fn ident_names_leftmost()
    ensures { IdentNamesLeftmost }
{}

/// A law: what makes a comment packet, or refuses it, goes by its fields, which stand where the
/// packet's own lengths say. All are right, or the cause is that of the leftmost that is missing or
/// wrong (Vorbis I, section 5.2.1).
pub fn comment_names_leftmost()
    ensures { CommentNamesLeftmost }
{}
