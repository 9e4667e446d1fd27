ghost use Rattle.std.specs.Prelude.{◌≡◌, ◌<◌, length, slice_get, Some, IfOk, option_map};
ghost use Rattle.model_line.specs.Acceptance.{FilmLink};
ghost use Rattle.model_line.specs.PacketRows.{block_packets};
ghost use Rattle.film_blocks.specs.KeyedBlocks.{HasHalves, channels_of_block, keyed_block, link_of_block};

use crate::block::Block;
use crate::film::Film;
use block_decoding::HalvedBlock;
use constants_file::Constants;
use memory::NoMemory;
use setup_header::Setup;
use std::alloc::Global;

/// A film, and the constants by which its blocks are made.
#[derive(Drop)]
pub struct Reel {
    pub film: Film,
    pub constants: Constants,
}

impl Reel {
    /// Decodes a block of the film from its packet alone, by the setup of its link. It may be any
    /// block, in any order of calls.
    ///
    /// # Errors
    ///
    /// Only where no memory was found.
    pub fn block(&self, alloc: Global, block: u32, setup: &Setup) -> Result<Block, NoMemory>
        requires block { block < length (block_packets self.now.film.links) }
        requires setup { option_map (λ (l : FilmLink). l.setup) (slice_get self.now.film.links
            (link_of_block self.now.film.links block)) ≡ Some setup.now }
        ensures value { IfOk result (λ made. made
            ≡ keyed_block self.now.constants self.now.film.links block) }
        ensures halves { IfOk result
            (HasHalves (channels_of_block self.now.film.links block)) }
    {
        let HalvedBlock { left, right } = self
            .film
            .decode_block(alloc, &self.constants, setup, block)?;
        Ok(Block::of(block, left, right))
    }
}
