ghost use Rattle.std.specs.Prelude.{◌≡◌, ◌<◌, ◌+◌, ℕ, IfOk};
ghost use Rattle.block_cache.specs.Meanings.{Meaning};
ghost use Rattle.block_cache.specs.FilmMeanings.{film_meaning};

use film_blocks::{Block, NoMemory, Reel, Setup};
use std::alloc::Global;
use std::marker::Model;
use std::sync::ledger::{Blank, Ledger};
use vf_outside::Steps;

/// What blocks are decoded by. It means a link and a value for each block and a setup for each
/// link, which no call changes.
pub trait Maker {
    /// The links, the setups and the blocks.
    ghost meaning: { Self → Meaning };

    /// How many blocks were made.
    ghost made: { Self → ℕ };

    /// Which works the maker has on loan, by the name of the loan; any number if it has none.
    ghost loan: { Self → ℕ };

    /// The link of a block.
    fn link(&self, block: u32) -> u32
        requires { block < (meaning self.now).blocks }
        ensures link { result ≡ (meaning self.now).link block }
        ensures within { result < (meaning self.now).links };

    /// The setup of a link.
    ///
    /// # Errors
    ///
    /// Only where no memory was found.
    fn setup(&mut self, alloc: Global, link: u32) -> Result<Setup, NoMemory>
        requires { link < (meaning self.old).links }
        ensures setup { IfOk result (λ setup. setup ≡ (meaning self.old).setup link) }
        ensures meaning { meaning self.new ≡ meaning self.old }
        ensures made { made self.new ≡ made self.old }
        ensures loan { loan self.new ≡ loan self.old };

    /// A block, by the setup of its link. Each call counts as a block made, whatever it answers.
    ///
    /// # Errors
    ///
    /// Only where no memory was found.
    fn block(&mut self, alloc: Global, block: u32, setup: &Setup) -> Result<Block, NoMemory>
        requires block { block < (meaning self.old).blocks }
        requires setup { setup.now
            ≡ (meaning self.old).setup ((meaning self.old).link block) }
        ensures value { IfOk result (λ value. value ≡ (meaning self.old).block block) }
        ensures meaning { meaning self.new ≡ meaning self.old }
        ensures made { made self.new ≡ made self.old + 1 }
        ensures loan { loan self.new ≡ loan self.old };
}

/// A maker of the blocks of a film, by its constants.
#[derive(Drop)]
pub struct ReelMaker<'a, L: Ledger> {
    reel: &'a Reel,
    made: Steps<L>,
}

impl<'a, L: Ledger> Model for ReelMaker<'a, L> {
    ghost use Rattle.block_cache.specs.FilmMeanings.{FilmMaker};

    ghost Value = { FilmMaker };

    ghost view = { λ m. record {
      tables = m.reel.now.constants;
      links = m.reel.now.film.links;
      made = m.made;
    } };
}

impl<'a, L: Ledger> ReelMaker<'a, L> {
    /// A maker that has made no block yet. It counts in a ledger of its own, which may have any
    /// number of parts but 0. It takes no memory.
    pub fn new(reel: &'a Reel, blank: Blank) -> ReelMaker<'a, L>
        requires name { blank.name ≡ L.name }
        requires parts { blank.parts ≡ L.parts }
        requires some { 0 < blank.parts }
        ensures { result ≡ record {
          tables = reel.now.constants;
          links = reel.now.film.links;
          made = 0;
        } }
    {
        ReelMaker {
            reel,
            made: Steps::new(blank),
        }
    }
}

impl<L: Ledger> Maker for ReelMaker<'_, L> {
    ghost meaning = { λ m. film_meaning m.tables m.links };

    ghost made = { λ m. m.made };

    ghost loan = { λ _. 0 };

    fn link(&self, block: u32) -> u32 {
        self.reel.film.block_link(block)
    }

    fn setup(&mut self, alloc: Global, link: u32) -> Result<Setup, NoMemory> {
        self.reel.film.setup(alloc, link)
    }

    fn block(&mut self, alloc: Global, block: u32, setup: &Setup) -> Result<Block, NoMemory> {
        self.made.tick();
        self.reel.block(alloc, block, setup)
    }
}
