ghost use Rattle.std.specs.Prelude.{◌≡◌, ◌<◌, ◌^◌, length, map, Some, IfOk, vec_len, option_map};
ghost use Rattle.std.specs.List.{slice_get};
ghost use Rattle.memory.specs.Answers.{Answers};
ghost use Rattle.model_line.specs.Acceptance.{FilmLink, film_of};
ghost use Rattle.model_line.specs.Blocks.{left_half, right_half};
ghost use Rattle.model_line.specs.PacketRows.{rows_of, block_packets};
ghost use Rattle.model_line.specs.Index.{Indexes};
ghost use Rattle.model_synthesis.specs.Tables.{ConstantTables};
ghost use Rattle.model_block.specs.FilmBlocks.{film_block};
ghost use Rattle.model_film.specs.FilmLines.{film_line};
ghost use Rattle.model_film.specs.Laws.{line_of_items, Agrees};
ghost use Rattle.block_decoding.specs.Setups.{IsOfLink};
ghost use Rattle.block_decoding.specs.Shapes.{IsHalved};
ghost use Rattle.film_blocks.specs.KeyedBlocks.{channels_of_block, link_of_block};

use crate::decoding::decode_in_link;
use crate::ends::{block_ends, first_block, link_at};
use crate::held::{HeldLink, read_setup};
use crate::links::{ReadLinks, read_links};
use block_decoding::HalvedBlock;
use chain_links::links;
use constants_file::Constants;
use film_index::Index;
use memory::NoMemory;
use model_line::{FilmFault, LinkCounts};
use ogg_pages::scan;
use setup_header::Setup;
use std::alloc::Global;
use std::marker::Model;

/// A film that is accepted: its bytes, the numbers of its links, the places of their packets and
/// blocks, and the index of its line. It keeps no packet and no setup.
#[derive(Drop)]
pub struct Film {
    bytes: Vec<u8>,
    links: Vec<HeldLink>,
    /// For each link, how many blocks the film has up to and with it.
    ends: Vec<u32>,
    index: Index,
}

impl Model for Film {
    ghost use Rattle.film_blocks.specs.Opened.{Opened};

    ghost Value = { Opened };

    ghost use Rattle.film_blocks.specs.Held.{links_in};
    ghost use Rattle.film_blocks.specs.Films.{IsFilm};

    ghost view = { λ f. record {
      links = links_in f.bytes.items f.links.items;
      index = f.index;
    } };

    ghost invariant = { λ f. IsFilm f.bytes.items f.links.items f.ends.items f.index };
}

impl Film {
    /// Opens a film of these bytes, fewer than 2^32. Each link's setup is read, and none is kept.
    ///
    /// # Errors
    ///
    /// The first fault in the order that stands at the head of model_line's `specs/Acceptance`:
    /// `NoLink`, `NoVorbis` and `TooManyLinks` by the film's links; then for each link in order
    /// `TooManyPackets`, `HeadMissing`, `Ident`, `Channels`, `Comment`, `Setup`. `Memory` where no
    /// memory was found. A film that is refused gives its bytes up.
    ///
    /// By any constants, the frames of the index's spans, each made of the right half of a block
    /// and the left half of the next, are the line of the film: what decoding each link from its
    /// first packet on gives, trimmed (Vorbis I, section 4.3.8).
    pub fn open(alloc: Global, bytes: Vec<u8>) -> Result<Film, FilmFault>
        requires { vec_len bytes < 2 ^ 32 }
        ensures film { Answers FilmFault.Memory (λ film. film.links) result (film_of bytes.items) }
        ensures index { IfOk result (λ film. Indexes (map rows_of film.links) film.index) }
        ensures line { IfOk result (λ film. (tables : ConstantTables)
            → line_of_items tables film.links film.index.items ≡ film_line tables film.links) }
        ensures agrees { IfOk result (λ film. (tables : ConstantTables)
            → Agrees tables film.links film.index.items) }
    {
        let pages = scan(alloc, &bytes)?;
        let links = links(alloc, &bytes, &pages)?;
        let ReadLinks { held, rows } = read_links(alloc, &bytes, &pages, &links)?;
        let ends = block_ends(alloc, &held)?;
        let index = Index::build(alloc, rows)?;
        Ok(Film {
            bytes,
            links: held,
            ends,
            index,
        })
    }

    /// The index of the film's line, which has the facts of each link.
    pub fn index(&self) -> &Index
        ensures value { result.now ≡ self.now.index }
        ensures links { length self.now.index.links ≡ length self.now.links }
    {
        &self.index
    }

    /// The numbers of the stream of a link.
    pub fn counts(&self, link: u32) -> LinkCounts
        requires { link < length self.now.links }
        ensures { option_map (λ (l : FilmLink). l.counts) (slice_get self.now.links link)
            ≡ Some result }
    {
        self.links[link as usize].counts
    }

    /// The link of a block. Blocks are numbered from 0 over all links in order.
    pub fn block_link(&self, block: u32) -> u32
        requires { block < length (block_packets self.now.links) }
        ensures value { result ≡ link_of_block self.now.links block }
        ensures within { result < length self.now.links }
    {
        link_at(&self.ends, block) as u32
    }

    /// How many blocks the film has.
    pub fn blocks(&self) -> u32
        ensures { result ≡ length (block_packets self.now.links) }
    {
        self.index.blocks()
    }

    /// The setup of a link, which is read again.
    ///
    /// # Errors
    ///
    /// Only where no memory was found.
    pub fn setup(&self, alloc: Global, link: u32) -> Result<Setup, NoMemory>
        requires { link < length self.now.links }
        ensures setup { IfOk result (λ setup. option_map (λ (l : FilmLink). l.setup)
            (slice_get self.now.links link) ≡ Some setup) }
        ensures whole { IfOk result IsOfLink }
    {
        let held = &self.links[link as usize];
        read_setup(alloc, &self.bytes, held)
    }

    /// Decodes a block by the setup of its link.
    pub(crate) fn decode_block(
        &self,
        alloc: Global,
        constants: &Constants,
        setup: &Setup,
        block: u32,
    ) -> Result<HalvedBlock, NoMemory>
        requires block { block < length (block_packets self.now.links) }
        requires setup { option_map (λ (l : FilmLink). l.setup) (slice_get self.now.links
            (link_of_block self.now.links block)) ≡ Some setup.now }
        ensures left { IfOk result (λ halves. halves.left
            ≡ left_half (film_block constants.now self.now.links block)) }
        ensures right { IfOk result (λ halves. halves.right
            ≡ right_half (film_block constants.now self.now.links block)) }
        ensures halves { IfOk result (IsHalved (channels_of_block self.now.links block)) }
    {
        let link = link_at(&self.ends, block);
        let number = block - first_block(&self.ends, link);
        decode_in_link(
            alloc,
            constants,
            setup,
            &self.bytes,
            &self.links[link],
            number,
        )
    }
}
