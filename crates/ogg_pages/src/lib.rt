//! Finds the pages of an Ogg file, and writes pages (RFC 3533, section 6).
#![tactic(auto)]

mod checksums;
mod crc;
mod leap_tables;
mod leaps;
mod page_out;
mod parts;
mod ring;
mod scanner;
mod tables;

pub use crc::checksum;
pub use memory::NoMemory;
pub use model_ogg::PageRef;
pub use page_out::{PageOut, page_bytes};
pub use parts::{body, laces, segment_place};
pub use scanner::{next_page, scan};
