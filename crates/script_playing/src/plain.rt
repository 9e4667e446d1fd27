ghost use Rattle.std.specs.Prelude.{length};
ghost use Rattle.model_line.specs.PacketRows.{block_packets};
ghost use Rattle.model_report.specs.FilmHalves.{film_halves};

use cursor::{Blocks, HalfBlock, Need};
use film_blocks::Reel;
use memory::NoMemory;
use std::alloc::Global;
use std::marker::Model;
use std::sync::ledger::{Blank, Ledger};
use vf_outside::Steps;

/// The halves of a film's blocks. Each is made anew where it is fetched: the setup of the block's
/// link is read, and the block is decoded. Nothing is kept but the count of fetches.
#[derive(Drop)]
pub struct PlainBlocks<'a, L: Ledger> {
    reel: &'a Reel,
    fetches: Steps<L>,
}

impl<'a, L: Ledger> Model for PlainBlocks<'a, L> {
    ghost use Rattle.script_playing.specs.PlainHalves.{PlainHalves};

    ghost Value = { PlainHalves };

    ghost view = { λ b. record {
      tables = b.reel.now.constants;
      links = b.reel.now.film.links;
      fetches = b.fetches;
    } };
}

impl<'a, L: Ledger> PlainBlocks<'a, L> {
    ghost use Rattle.std.specs.Prelude.{◌≡◌, ◌<◌};

    /// The halves of the blocks of a film, of which none was fetched yet. Fetches are counted in a
    /// ledger of their own, which may have any number of parts but 0. It takes no memory.
    pub fn new(reel: &'a Reel, blank: Blank) -> PlainBlocks<'a, L>
        requires name { blank.name ≡ L.name }
        requires parts { blank.parts ≡ L.parts }
        requires some { 0 < blank.parts }
        ensures { result ≡ record {
          tables = reel.now.constants;
          links = reel.now.film.links;
          fetches = 0;
        } }
    {
        PlainBlocks {
            reel,
            fetches: Steps::new(blank),
        }
    }
}

impl<L: Ledger> Blocks for PlainBlocks<'_, L> {
    ghost count = { λ b. length (block_packets b.links) };

    ghost half_of = { λ b need. film_halves b.tables b.links need };

    ghost fetches = { λ b. b.fetches };

    fn fetch(&mut self, alloc: Global, need: Need) -> Result<HalfBlock, NoMemory> {
        self.fetches.tick();
        let film = &self.reel.film;
        let setup = film.setup(alloc, film.block_link(need.block))?;
        let block = self.reel.block(alloc, need.block, &setup)?;
        block.half(alloc, need.half)
    }
}
