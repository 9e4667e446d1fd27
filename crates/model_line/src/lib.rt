//! The links of a film and why it is refused; its line: what decoding each link from its first
//! block on gives, with its gaps, without what the granule positions cut off at the front and at
//! the end; and what an index of it says.
#![tactic(auto)]

mod film;
mod item;
mod laws;
mod row;
mod rows;
mod trim;

pub use film::{FilmFault, LinkCounts, MOST_CHANNELS};
pub use item::{Half, Item, LinkFacts, Span};
pub use laws::{
    blocks_are_counted, cuts_apart, frames_go, gaps_are_missing, gaps_stay, line_by_halves,
    line_by_index, one_index, spans_add_up, spans_fit, spans_of_links, starts_never_fall,
};
pub use row::{GapKind, LARGEST_BLOCK, LinkRows, MOST_ENTRIES, Row, RowKind};
pub use rows::{Rows, RowsIter};
pub use trim::{Cuts, Marked, Stretch};
