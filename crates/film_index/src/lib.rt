//! The index of a film's line: where its frames and gaps come from, computed from the sizes of
//! blocks and the marks of pages alone.
#![tactic(auto)]

mod cuts;
mod film;
mod listing;
#[cfg(test)]
mod tests;
mod walk;

pub use film::Index;
pub use model_line::{
    GapKind, Half, Item, LARGEST_BLOCK, LinkFacts, LinkRows, MOST_ENTRIES, Row, RowKind, Rows, Span,
};
pub use model_ogg::{MOST_LINKS, Mark};
