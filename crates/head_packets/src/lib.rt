//! Reads the identification and the comment packet of a Vorbis stream (Vorbis I, sections 4.2 and
//! 5).
#![tactic(auto)]

mod comments;
mod identification;
mod start;

pub use comments::comment;
pub use identification::ident;
pub use model_setup::{CommentCause, IdentCause, IdentFields};
