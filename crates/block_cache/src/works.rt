ghost use Rattle.std.specs.Prelude.{◌≡◌, ◌<◌, ◌+◌, ℕ, length, slice_get, Some, IfOk, option_map};
ghost use Rattle.model_line.specs.Acceptance.{FilmLink};
ghost use Rattle.model_line.specs.PacketRows.{block_packets};
ghost use Rattle.film_blocks.specs.KeyedBlocks.{keyed_block, link_of_block};
ghost use Rattle.block_cache.specs.FilmMeanings.{Values, AreLikeBlocks, with_blocks};
ghost use Rattle.block_cache.specs.LikeBlocks.{like_blocks};

use crate::maker::Maker;
use film_blocks::{Block, NoMemory, Reel, Setup};
use std::alloc::Global;
use std::marker::Model;
use std::sync::ledger::{Blank, Ledger};
use vf_outside::Steps;

/// What decodes the blocks of any reel. It means a value for each block of a reel, which no call
/// changes.
pub trait Works {
    /// The blocks of each reel.
    ghost values: { Self → Values };

    /// How many blocks were made.
    ghost made: { Self → ℕ };

    /// A block of a reel, by the setup of its link. Each call counts as a block made, whatever it
    /// answers.
    ///
    /// # Errors
    ///
    /// Only where no memory was found.
    fn block(
        &mut self,
        alloc: Global,
        reel: &Reel,
        block: u32,
        setup: &Setup,
    ) -> Result<Block, NoMemory>
        requires block { block < length (block_packets reel.now.film.links) }
        requires setup { option_map (λ (l : FilmLink). l.setup) (slice_get reel.now.film.links
            (link_of_block reel.now.film.links block)) ≡ Some setup.now }
        ensures value { IfOk result (λ value. value
            ≡ values self.old reel.now.constants reel.now.film.links block) }
        ensures values { values self.new ≡ values self.old }
        ensures made { made self.new ≡ made self.old + 1 };

    // Each block has the key, the channels and the size of the film's.
    ghost likes: { (works : Self) → AreLikeBlocks (values works) };
}

/// Works that decode a reel's blocks as they are.
#[derive(Drop)]
pub struct ReelWorks<L: Ledger> {
    made: Steps<L>,
}

impl<L: Ledger> Model for ReelWorks<L> {
    ghost use Rattle.std.specs.Prelude.{ℕ};

    ghost Value = { ℕ };

    ghost view = { λ w. w.made };
}

impl<L: Ledger> ReelWorks<L> {
    /// Works that have made no block yet. They count in a ledger of their own, which may have any
    /// number of parts but 0. It takes no memory.
    pub fn new(blank: Blank) -> ReelWorks<L>
        requires name { blank.name ≡ L.name }
        requires parts { blank.parts ≡ L.parts }
        requires some { 0 < blank.parts }
        ensures { result ≡ 0 }
    {
        ReelWorks {
            made: Steps::new(blank),
        }
    }
}

impl<L: Ledger> Works for ReelWorks<L> {
    ghost values = { λ _. keyed_block };

    ghost made = { λ w. w };

    ghost likes = { λ _. like_blocks };

    fn block(
        &mut self,
        alloc: Global,
        reel: &Reel,
        block: u32,
        setup: &Setup,
    ) -> Result<Block, NoMemory> {
        self.made.tick();
        reel.block(alloc, block, setup)
    }
}

/// A maker with the links and the setups of a film, whose blocks are those of works that it has on
/// loan.
#[derive(Drop)]
pub struct WorksMaker<'a, 'b, W: Works> {
    works: &'a mut W,
    reel: &'b Reel,
}

impl<'a, 'b, W: Works> WorksMaker<'a, 'b, W> {
    /// A maker by these works. It takes no memory.
    pub fn new(reel: &'b Reel, works: &'a mut W) -> WorksMaker<'a, 'b, W>
        ensures reel { result.reel.now ≡ reel.now }
        ensures works { result.works ≡ works.entry }
    {
        WorksMaker { works, reel }
    }

    /// Ends the loan: the works have the values and the count of the maker. It takes no memory.
    pub fn end(self)
        ensures { self.exit.0.now ≡ self.entry.works.now }
    {
        let WorksMaker { works: _, reel: _ } = self;
    }
}

impl<W: Works> Maker for WorksMaker<'_, '_, W> {
    ghost meaning = { λ m. with_blocks m.reel.now.film.links
        (W.values m.works.now m.reel.now.constants m.reel.now.film.links) };

    ghost made = { λ m. W.made m.works.now };

    ghost loan = { λ m. m.works.ghost_name };

    fn link(&self, block: u32) -> u32 {
        self.reel.film.block_link(block)
    }

    fn setup(&mut self, alloc: Global, link: u32) -> Result<Setup, NoMemory> {
        self.reel.film.setup(alloc, link)
    }

    fn block(&mut self, alloc: Global, block: u32, setup: &Setup) -> Result<Block, NoMemory> {
        self.works.block(alloc, self.reel, block, setup)
    }
}
