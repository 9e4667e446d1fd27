ghost use Rattle.std.specs.Prelude.{◌≡◌, ◌+◌, ◌-◌, ◌<◌, ◌≤◌, ◌^◌, ◌⊎◌, [], ◌∷◌, ◌++◌, length, map, min, IfOk, IfSome, OnOk};
ghost use Rattle.std.specs.List.{range_with_len};
ghost use Rattle.model_line.specs.Decode.{frame, gap, items_given, frames_given, previous_after};
ghost use Rattle.model_line.specs.Trim.{trimmed, NeverMeet};
ghost use Rattle.model_line.specs.Lines.{link_line};
ghost use Rattle.model_line.specs.Origins.{frame_numbers, kind_of, entry_of, kind_at, number_after, number_behind, numbered_entries, origin, origins, span_origins, listed};
ghost use Rattle.film_index.specs.Bounds.{most_overlap, FitSizes, FitsSize};
ghost use Rattle.film_index.specs.Listings.{IsListing, HasRoom, HasGrown, before};

use crate::cuts::cuts;
use crate::walk::{Sizes, Walk};
use memory::NoMemory;
use model_line::{Cuts, GapKind, Item, RowKind, Rows, Span};
use std::alloc::Global;

/// Items in order.
#[derive(Drop)]
pub struct Lists {
    pub items: Vec<Item>,
    /// For each item, how many frames stand before it.
    pub starts: Vec<u64>,
}

/// What is counted of items.
#[derive(Clone, Copy)]
pub struct Counts {
    /// How many frames the items have.
    pub total: u64,
    /// How many gaps the items have.
    pub gaps: u32,
    /// The number of the next block.
    pub blocks: u32,
}

/// The items of a line as far as they are known. What is counted stands apart, so that a loop can
/// keep it in registers.
#[derive(Drop)]
pub struct Listing {
    pub lists: Lists,
    pub counts: Counts,
}

/// A link of a line: its number, the sizes of its blocks and which of its frames are cut off.
#[derive(Clone, Copy)]
struct CutLink {
    number: u32,
    sizes: Sizes,
    cuts: Cuts,
}

/// How many of the `count` frames of two blocks have numbers below this one, where the first has
/// the number `first`.
fn within(number: u64, first: u64, count: u32) -> u32
    ensures { result ≡ min (number - first) count }
{
    number.saturating_sub(first).min(u64::from(count)) as u32
}

impl Lists {
    /// Adds an item before which so many frames stand.
    fn push(&mut self, item: Item, start: u64) -> Result<(), NoMemory>
        ensures items { OnOk result (self.new.items.items ≡ self.old.items.items ++ item ∷ []) }
        ensures starts { OnOk result
            (self.new.starts.items ≡ self.old.starts.items ++ start ∷ []) }
    {
        self.starts.push(start)?;
        self.items.push(item)?;
        Ok(())
    }

    /// Adds a gap.
    fn add_gap(&mut self, counts: &mut Counts, link: u32, kind: GapKind) -> Result<(), NoMemory>
        requires right { IsListing (counts.old.blocks - 1) self.old counts.old }
        requires room { HasRoom counts.old 1 }
        ensures right { OnOk result (IsListing (counts.new.blocks - 1) self.new counts.new) }
        ensures listed { OnOk result
            (listed self.new.items.items ≡ listed self.old.items.items ++ gap link kind ∷ []) }
        ensures blocks { OnOk result (counts.new.blocks ≡ counts.old.blocks) }
        ensures grown { OnOk result (HasGrown counts.old counts.new 1) }
    {
        self.push(Item::Gap { link, kind }, counts.total)?;
        counts.gaps += 1;
        Ok(())
    }

    /// Adds the frames from one number to another between the last block and the next, if there
    /// are any.
    fn add_span(
        &mut self,
        counts: &mut Counts,
        link: u32,
        from: u32,
        to: u32,
    ) -> Result<(), NoMemory>
        requires right { IsListing (counts.old.blocks - 1) self.old counts.old }
        requires room { HasRoom counts.old 1 }
        requires some { from < to → 0 < counts.old.blocks }
        requires most { to ≤ most_overlap }
        ensures right { OnOk result (IsListing counts.new.blocks self.new counts.new) }
        ensures listed { OnOk result (listed self.new.items.items ≡ listed self.old.items.items
            ++ span_origins link (counts.old.blocks - 1) from to) }
        ensures blocks { OnOk result (counts.new.blocks ≡ counts.old.blocks) }
        ensures grown { OnOk result (HasGrown counts.old counts.new 1) }
    {
        if from < to {
            let span = Span {
                link,
                block: counts.blocks - 1,
                from,
                to,
                start: counts.total,
            };
            self.push(Item::Span(span), counts.total)?;
            counts.total += u64::from(to - from);
        }
        Ok(())
    }

    /// Adds those of the `count` frames between the last block and the next that stay, where
    /// `first` frames of the link come before them. The cut at the end ends before them or behind.
    fn add_kept(
        &mut self,
        counts: &mut Counts,
        link: &CutLink,
        first: u64,
        count: u32,
    ) -> Result<(), NoMemory>
        requires right { IsListing (counts.old.blocks - 1) self.old counts.old }
        requires room { HasRoom counts.old 1 }
        requires some { 0 < count → 0 < counts.old.blocks }
        requires most { count ≤ most_overlap }
        requires cuts { NeverMeet link.now.cuts }
        requires edge { (link.now.cuts.end.to ≤ first)
            ⊎ (first + count ≤ link.now.cuts.end.to) }
        ensures right { OnOk result (IsListing counts.new.blocks self.new counts.new) }
        ensures listed { OnOk result (listed self.new.items.items ≡ listed self.old.items.items
            ++ trimmed link.now.cuts first (map (frame link.now.number)
            (map (origin (counts.old.blocks - 1) (counts.old.blocks - 1 + 1))
            (range_with_len 0 count)))) }
        ensures blocks { OnOk result (counts.new.blocks ≡ counts.old.blocks) }
        ensures grown { OnOk result (HasGrown counts.old counts.new 1) }
    {
        let from = within(link.cuts.front, first, count);
        let to = if first < link.cuts.end.to {
            within(link.cuts.end.from, first, count)
        } else {
            count
        };
        self.add_span(counts, link.number, from, to)?;
        Ok(())
    }

    /// Passes an entry, and adds what it gives, without what is cut off.
    fn add_row(
        &mut self,
        counts: &mut Counts,
        link: &CutLink,
        walk: &mut Walk,
        kind: RowKind,
    ) -> Result<(), NoMemory>
        requires sizes { FitSizes link.now.sizes }
        requires right { IsListing (counts.old.blocks - 1) self.old counts.old }
        requires room { HasRoom counts.old 1 }
        requires previous { IfSome walk.old.previous FitsSize }
        requires some { IfSome walk.old.previous (λ _. 0 < counts.old.blocks) }
        requires frames { walk.old.frames + most_overlap < 2 ^ 64 }
        requires cuts { NeverMeet link.now.cuts }
        requires edge { (link.now.cuts.end.to ≤ walk.old.frames)
            ⊎ (walk.old.frames + length (frames_given frame_numbers
            (kind_of link.now.sizes.short link.now.sizes.long kind) walk.old.previous)
            ≤ link.now.cuts.end.to) }
        ensures right { OnOk result (IsListing (counts.new.blocks - 1) self.new counts.new) }
        ensures listed { OnOk result (listed self.new.items.items ≡ listed self.old.items.items
            ++ trimmed link.now.cuts walk.old.frames (items_given link.now.number origins
            (kind_at counts.old.blocks (kind_of link.now.sizes.short link.now.sizes.long kind))
            (before counts.old.blocks walk.old.previous))) }
        ensures blocks { OnOk result (counts.new.blocks ≡ number_after counts.old.blocks
            (kind_of link.now.sizes.short link.now.sizes.long kind)) }
        ensures grown { OnOk result (HasGrown counts.old counts.new 1) }
        ensures frames { walk.new.frames ≡ walk.old.frames + length (frames_given frame_numbers
            (kind_of link.now.sizes.short link.now.sizes.long kind) walk.old.previous) }
        ensures previous { walk.new.previous ≡ previous_after
            (kind_of link.now.sizes.short link.now.sizes.long kind) walk.old.previous }
        ensures fits { IfSome walk.new.previous FitsSize }
        ensures most { walk.new.frames ≤ walk.old.frames + most_overlap }
    {
        let first = walk.frames;
        walk.pass(link.sizes, kind);
        match kind {
            RowKind::Lost => self.add_gap(counts, link.number, GapKind::Lost)?,
            RowKind::Bad => self.add_gap(counts, link.number, GapKind::Bad)?,
            RowKind::Skip => {}
            RowKind::Block { .. } => {
                self.add_kept(counts, link, first, (walk.frames - first) as u32)?;
                counts.blocks += 1;
            }
        }
        Ok(())
    }
}

impl Listing {
    /// No items, with memory for so many.
    pub fn with_capacity(alloc: Global, capacity: usize) -> Result<Listing, NoMemory>
        ensures right { IfOk result (λ empty. IsListing 0 empty.lists empty.counts) }
        ensures listed { IfOk result (λ empty. listed empty.lists.items.items ≡ []) }
        ensures counts { IfOk result
            (λ empty. (empty.counts.total ≡ 0) × (empty.counts.gaps ≡ 0)) }
        ensures blocks { IfOk result (λ empty. empty.counts.blocks ≡ 0) }
    {
        let items = Vec::with_capacity(alloc, capacity)?;
        let starts = Vec::with_capacity(alloc, capacity)?;
        Ok(Listing {
            lists: Lists { items, starts },
            counts: Counts {
                total: 0,
                gaps: 0,
                blocks: 0,
            },
        })
    }

    /// Adds the line of a link of this number: its entries' items, without what is cut off.
    pub fn add_rows(&mut self, number: u32, sizes: Sizes, rows: &Rows) -> Result<(), NoMemory>
        requires sizes { FitSizes sizes }
        requires right { IsListing (self.old.counts.blocks - 1) self.old.lists self.old.counts }
        requires room { HasRoom self.old.counts (length rows.now) }
        ensures right { OnOk result
            (IsListing (self.new.counts.blocks - 1) self.new.lists self.new.counts) }
        ensures listed { OnOk result (listed self.new.lists.items.items
            ≡ listed self.old.lists.items.items
            ++ link_line number origins (numbered_entries self.old.counts.blocks
            (map (entry_of sizes.short sizes.long) rows.now))) }
        ensures blocks { OnOk result (self.new.counts.blocks ≡ number_behind
            self.old.counts.blocks (map (entry_of sizes.short sizes.long) rows.now)) }
        ensures grown { OnOk result
            (HasGrown self.old.counts self.new.counts (length rows.now)) }
    {
        let cuts = cuts(sizes, rows);
        let link = CutLink {
            number,
            sizes,
            cuts,
        };
        let mut counts = self.counts;
        let mut walk = Walk::start();
        for row in rows.iter() {
            self.lists.add_row(&mut counts, &link, &mut walk, row.kind)?;
        }
        self.counts = counts;
        Ok(())
    }
}
