ghost use Rattle.std.specs.Prelude.{◌≡◌, ◌+◌, ◌-◌, ◌<◌, ◌≤◌, ◌++◌, length, map, IfOk, OnOk, Some};
ghost use Rattle.std.specs.List.{slice_get};
ghost use Rattle.model_line.specs.Decode.{frame_count};
ghost use Rattle.model_line.specs.Lines.{link_line, line};
ghost use Rattle.model_line.specs.Origins.{entries_of, number_behind, numbered_entries, numbered_links, origins, starts_from, listed};
ghost use Rattle.model_line.specs.Index.{facts_of, facts_from, all_behind, Indexes};
ghost use Rattle.film_index.specs.Bounds.{FitsLink, FitsIndex, rows_in};
ghost use Rattle.film_index.specs.Listings.{IsListing, HasRoom, HasGrown};
ghost use Rattle.film_index.specs.Items.{AreIndexItems};

use crate::listing::Listing;
use crate::walk::Sizes;
use memory::NoMemory;
use model_line::{Item, LinkFacts, LinkRows, MOST_ENTRIES};
use std::alloc::Global;
use std::marker::Model;

/// The index of a film's line: where its frames and gaps come from, known from the sizes of blocks
/// and the marks of pages alone.
#[derive(Drop)]
pub struct Index {
    items: Vec<Item>,
    /// For each item, how many frames stand before it.
    starts: Vec<u64>,
    /// How many frames the items have.
    total: u64,
    links: Vec<LinkFacts>,
    blocks: u32,
}

impl Model for Index {
    ghost use Rattle.std.specs.Prelude.{◌≡◌, ◌≤◌, length};
    ghost use Rattle.model_ogg.specs.declared.link.TheConstants.{MOST_LINKS};
    ghost use Rattle.model_line.specs.Decode.{frame_count};
    ghost use Rattle.model_line.specs.Origins.{starts_from, listed};
    ghost use Rattle.model_line.specs.Index.{Indexed};
    ghost use Rattle.film_index.specs.Items.{AreIndexItems};

    ghost Value = { Indexed };

    ghost view = { λ a. record {
      items = a.items.items;
      links = a.links.items;
      blocks = a.blocks;
    } };

    ghost invariant = { λ a. (a.starts.items ≡ starts_from 0 a.items.items)
        × (a.total ≡ frame_count (listed a.items.items))
        × (length a.links.items ≤ MOST_LINKS)
        × AreIndexItems (record {
          items = a.items.items;
          links = a.links.items;
          blocks = a.blocks;
        }) };
}

/// How many entries links have.
fn entry_count(links: &[LinkRows]) -> usize
    requires { rows_in links.now ≤ MOST_ENTRIES }
    ensures { result ≡ rows_in links.now }
{
    links.iter().map(|link| link.rows.len()).sum()
}

/// Adds the line of a link of this number, and gives its facts.
fn add_link(listing: &mut Listing, number: u32, link: &LinkRows) -> Result<LinkFacts, NoMemory>
    requires sizes { FitsLink link.now }
    requires right { IsListing
        (listing.old.counts.blocks - 1) listing.old.lists listing.old.counts }
    requires room { HasRoom listing.old.counts (length link.now.rows) }
    ensures facts { IfOk result (λ facts. facts ≡ facts_of number link.now) }
    ensures right { OnOk result (IsListing
        (listing.new.counts.blocks - 1) listing.new.lists listing.new.counts) }
    ensures listed { OnOk result (listed listing.new.lists.items.items
        ≡ listed listing.old.lists.items.items ++ link_line number origins
        (numbered_entries listing.old.counts.blocks (entries_of link.now))) }
    ensures blocks { OnOk result (listing.new.counts.blocks
        ≡ number_behind listing.old.counts.blocks (entries_of link.now)) }
    ensures grown { OnOk result
        (HasGrown listing.old.counts listing.new.counts (length link.now.rows)) }
{
    let frames = listing.counts.total;
    let gaps = listing.counts.gaps;
    let sizes = Sizes {
        short: link.short,
        long: link.long,
    };
    listing.add_rows(number, sizes, &link.rows)?;
    Ok(LinkFacts {
        channels: link.channels,
        rate: link.rate,
        short: link.short,
        long: link.long,
        frames: listing.counts.total - frames,
        gaps: listing.counts.gaps - gaps,
    })
}

/// Adds the lines of all links, and gives the facts of each.
fn add_links(
    alloc: Global,
    listing: &mut Listing,
    links: &[LinkRows],
) -> Result<Vec<LinkFacts>, NoMemory>
    requires fits { FitsIndex links.now }
    requires right { IsListing
        (listing.old.counts.blocks - 1) listing.old.lists listing.old.counts }
    requires room { HasRoom listing.old.counts (rows_in links.now) }
    ensures facts { IfOk result (λ facts. facts.items ≡ facts_from 0 links.now) }
    ensures right { OnOk result (IsListing
        (listing.new.counts.blocks - 1) listing.new.lists listing.new.counts) }
    ensures listed { OnOk result (listed listing.new.lists.items.items
        ≡ listed listing.old.lists.items.items ++ line origins 0
        (numbered_links listing.old.counts.blocks (map entries_of links.now))) }
    ensures blocks { OnOk result (listing.new.counts.blocks
        ≡ all_behind listing.old.counts.blocks (map entries_of links.now)) }
    ensures room { OnOk result (HasRoom listing.new.counts 0) }
{
    let mut facts = Vec::new(alloc);
    for (number, link) in links.iter().enumerate() {
        facts.push(add_link(listing, number as u32, link)?)?;
    }
    Ok(facts)
}

impl Index {
    /// The index of the line of a film with these links, which have at most `MOST_ENTRIES` entries
    /// together. The time taken grows with the number of entries, and no memory is taken but for
    /// the lists that the index gives.
    pub fn build(alloc: Global, links: Vec<LinkRows>) -> Result<Index, NoMemory>
        requires { FitsIndex links.items }
        ensures { IfOk result (λ index. Indexes links.items index) }
    {
        let mut listing = Listing::with_capacity(alloc, entry_count(&links))?;
        let facts = add_links(alloc, &mut listing, &links)?;
        Ok(Index {
            items: listing.lists.items,
            starts: listing.lists.starts,
            total: listing.counts.total,
            links: facts,
            blocks: listing.counts.blocks,
        })
    }

    /// The line's frames, as spans, and its gaps, in order.
    pub fn items(&self) -> &[Item]
        ensures value { result.now ≡ self.now.items }
        ensures right { AreIndexItems self.now }
    {
        &self.items
    }

    /// For each item, how many frames of the line stand before it.
    pub fn starts(&self) -> &[u64]
        ensures { result.now ≡ starts_from 0 self.now.items }
    {
        &self.starts
    }

    /// How many frames the line has.
    pub fn total(&self) -> u64
        ensures { result ≡ frame_count (listed self.now.items) }
    {
        self.total
    }

    /// The facts of a link.
    pub fn link(&self, link: u32) -> LinkFacts
        requires { link < length self.now.links }
        ensures { slice_get self.now.links link ≡ Some result }
    {
        self.links[link as usize]
    }

    /// How many links the film has.
    pub fn links(&self) -> u32
        ensures { result ≡ length self.now.links }
    {
        self.links.len() as u32
    }

    /// How many blocks the film has.
    pub fn blocks(&self) -> u32
        ensures { result ≡ self.now.blocks }
    {
        self.blocks
    }
}
