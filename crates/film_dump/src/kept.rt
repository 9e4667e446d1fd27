ghost use Rattle.std.specs.Prelude.{◌≡◌, ◌<◌, length, slice_get, Some, IfOk, IfSome, option_map};
ghost use Rattle.model_line.specs.Acceptance.{FilmLink};
ghost use Rattle.model_line.specs.PacketRows.{block_packets};
ghost use Rattle.film_blocks.specs.KeyedBlocks.{keyed_block};
ghost use Rattle.film_dump.specs.Kept.{IsKept};

use film_blocks::{Block, Reel, Setup};
use memory::NoMemory;
use std::alloc::Global;

/// A block that was decoded, and the setup of its link, which has this number.
#[derive(Drop)]
pub struct Kept {
    pub link: u32,
    pub setup: Setup,
    pub block: Block,
}

/// The setup of a link: the kept one, where it is of this link, or else read again.
fn setup_of(alloc: Global, reel: &Reel, kept: Option<Kept>, link: u32) -> Result<Setup, NoMemory>
    requires link { link < length reel.now.film.links }
    requires kept { IfSome kept (IsKept reel.now.constants reel.now.film.links) }
    ensures { IfOk result (λ setup. option_map (λ (l : FilmLink). l.setup)
        (slice_get reel.now.film.links link) ≡ Some setup) }
{
    match kept {
        Some(kept) if kept.link == link => {
            let Kept { setup, .. } = kept;
            Ok(setup)
        }
        _ => reel.film.setup(alloc, link),
    }
}

/// A block with the setup of its link. The block that is kept is not decoded again, nor is a kept
/// setup read again for a block of its link.
pub fn decoded(
    alloc: Global,
    reel: &Reel,
    kept: Option<Kept>,
    number: u32,
) -> Result<Kept, NoMemory>
    requires block { number < length (block_packets reel.now.film.links) }
    requires kept { IfSome kept (IsKept reel.now.constants reel.now.film.links) }
    ensures kept { IfOk result (IsKept reel.now.constants reel.now.film.links) }
    ensures block { IfOk result (λ kept. kept.block
        ≡ keyed_block reel.now.constants reel.now.film.links number) }
{
    match kept {
        Some(kept) if kept.block.key() == number => Ok(kept),
        kept => {
            let link = reel.film.block_link(number);
            let setup = setup_of(alloc, reel, kept, link)?;
            let block = reel.block(alloc, number, &setup)?;
            Ok(Kept { link, setup, block })
        }
    }
}
