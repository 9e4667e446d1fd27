ghost use Rattle.std.specs.Prelude.{◌≡◌, ◌+◌, ◌<◌, ◌++◌, ◌^◌, length, IfOk};
ghost use Rattle.film_blocks.specs.Places.{block_place, block_places};

use memory::NoMemory;
use model_line::{Row, RowKind, Rows};
use std::alloc::Global;

/// How many header packets stand before a link's other entries.
pub const HEADER_COUNT: u32 = 3;

/// Adds the place of a row, if it is a block.
fn push_place(places: &mut Vec<u32>, row: &Row, place: u32) -> Result<(), NoMemory>
    ensures { IfOk result (λ _. places.new.items
        ≡ places.old.items ++ block_place place row.now) }
{
    if matches!(row.kind, RowKind::Block { .. }) {
        places.push(place)?;
    }
    Ok(())
}

/// The places of the rows that are blocks, where the first row has this place.
pub fn block_places(alloc: Global, rows: &Rows, first: u32) -> Result<Vec<u32>, NoMemory>
    requires { first + length rows.now < 2 ^ 32 }
    ensures { IfOk result (λ places. places.items ≡ block_places first rows.now) }
{
    let mut places = Vec::with_capacity(alloc, rows.len())?;
    let mut place = first;
    for row in rows.iter() {
        push_place(&mut places, &row, place)?;
        place += 1;
    }
    Ok(places)
}
