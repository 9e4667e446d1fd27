ghost use Rattle.std.specs.Prelude.{◌≡◌, ◌+◌, ◌^◌, ◌<◌, ◌≤◌, ◌++◌, [], List, length, max, nat_lt, unwrap_or, Some, IfSome, IfOk, OnOk, slice_get};
ghost use Rattle.std.specs.List.{All};
ghost use Rattle.model_line.specs.declared.item.Item.{Item};
ghost use Rattle.model_line.specs.declared.item.Item.TheVariants as variants;
ghost use Rattle.model_line.specs.Decode.{frame_count};
ghost use Rattle.model_line.specs.Index.{Indexed};
ghost use Rattle.model_line.specs.Origins.{listed};
ghost use Rattle.film_index.specs.Items.{AreIndexItems};
ghost use Rattle.model_cursor.specs.FrameLists.{values_of};
ghost use Rattle.model_cursor.specs.Runs.{run_at};
ghost use Rattle.model_cursor.specs.Cursors.{start, tell, passed, placed, seek};
ghost use Rattle.model_cursor.specs.Splices.{link_at, short_at};
ghost use Rattle.model_cursor.specs.Plans.{shorts_of};
ghost use Rattle.model_cursor.specs.Positions.{IsPosition, IsCursorIn, state_in};
ghost use Rattle.model_cursor.specs.Sources.{channels_in};
ghost use Rattle.cursor.specs.Patches.{patched};
ghost use Rattle.cursor.specs.Portions.{IsGap, run_portions, frames_from, FitHalves, HasChannels};

use crate::frames::frames_of;
use crate::patch::{Patch, lay_over, pass};
use crate::place::item_behind;
use crate::portions::{Portion, add_run};
use film_index::{Index, Item, Span};
use lap_window::HalfBlock;
use memory::NoMemory;
use model_cursor::{Frames, Sought};
use std::alloc::Global;
use std::marker::Model;

/// A place of a film's line: before a frame, before a gap, or at the end; and the frames that are
/// given in place of the first ones there.
#[derive(Debug, Drop)]
pub struct Cursor {
    /// The number of the item at which it is.
    item: usize,
    /// How many frames of the line are before it.
    told: u64,
    patch: Option<Patch>,
}

impl Model for Cursor {
    ghost use Rattle.std.specs.Prelude.{[], unwrap_or};
    ghost use Rattle.model_cursor.specs.Positions.{Position};

    ghost Value = { Position };

    ghost view = { λ c. record {
      item = c.item;
      told = c.told;
      patch = unwrap_or c.patch [];
    } };
}

impl Cursor {
    /// A cursor at the beginning of the line.
    pub fn start() -> Cursor
        ensures state { (items : List Item) → state_in items result ≡ start }
        ensures position { (index : Indexed) → IsCursorIn index result }
    {
        Cursor {
            item: 0,
            told: 0,
            patch: None,
        }
    }

    /// How many frames of the line are before the cursor.
    pub fn tell(&self) -> u64
        ensures { (index : Indexed) → IsCursorIn index self.now
            → result ≡ tell (listed index.items) (state_in index.items self.now) }
    {
        self.told
    }

    /// The cursor behind so many frames, and before the gaps that follow them.
    pub(crate) fn at(index: &Index, frames: u64) -> Cursor
        requires { frames ≤ frame_count (listed index.now.items) }
        ensures state { state_in index.now.items result ≡ placed (listed index.now.items) frames }
        ensures position { IsCursorIn index.now result }
    {
        Cursor {
            item: item_behind(index, frames),
            told: frames,
            patch: None,
        }
    }

    /// Moves the cursor behind so many frames of the line, and before the gaps that follow them.
    /// Where the line has fewer, the cursor stays.
    pub fn seek(&mut self, index: &Index, place: u64) -> Sought
        requires { IsCursorIn index.now self.old }
        ensures state { seek (listed index.now.items) place (state_in index.now.items self.old)
            ≡ (result, state_in index.now.items self.new) }
        ensures position { IsCursorIn index.now self.new }
    {
        let total = index.total();
        if place > total {
            return Sought::Invalid { total };
        }
        *self = Cursor::at(index, place);
        Sought::At { place }
    }

    /// The item at which the cursor is, or none at the end.
    pub(crate) fn here(&self, index: &Index) -> Option<Item>
        ensures item { result ≡ slice_get index.now.items self.now.item }
        ensures next { IfSome result (λ _. self.now.item + 1 < 2 ^ 64) }
        ensures right { AreIndexItems index.now }
    {
        index.items().get(self.item).copied()
    }

    /// The number of the link at the cursor; at the end it is the last link.
    fn link(&self, index: &Index) -> u32
        requires { IsPosition index.now.items self.now }
        ensures { result ≡ link_at (length index.now.links) (listed index.now.items)
            (state_in index.now.items self.now).place }
    {
        match self.here(index) {
            None => index.links().saturating_sub(1),
            Some(Item::Gap { link, .. }) => link,
            Some(Item::Span(span)) => span.link,
        }
    }

    /// How long the short blocks of the link at the cursor are.
    pub(crate) fn short(&self, index: &Index) -> u32
        requires { IsPosition index.now.items self.now }
        ensures { result ≡ short_at (shorts_of index.now.links) (listed index.now.items)
            (state_in index.now.items self.now).place }
    {
        let link = self.link(index);
        if link < index.links() {
            index.link(link).short
        } else {
            0
        }
    }

    /// How many channels the link at the cursor has, or one where it has none.
    pub(crate) fn channels(&self, index: &Index) -> u8
        requires { IsPosition index.now.items self.now }
        ensures { result ≡ max 1 (channels_in index.now.links (link_at (length index.now.links)
            (listed index.now.items) (state_in index.now.items self.now).place)) }
    {
        let link = self.link(index);
        if link < index.links() {
            index.link(link).channels.max(1)
        } else {
            1
        }
    }

    /// Whether there is a frame at the cursor.
    pub(crate) fn has_frame(&self, index: &Index) -> bool
        requires { IsPosition index.now.items self.now }
        ensures frame { result ≡ nat_lt 0 (length (run_at (listed index.now.items)
            (state_in index.now.items self.now).place)) }
        ensures right { AreIndexItems index.now }
    {
        match self.here(index) {
            None => false,
            Some(Item::Gap { .. }) => false,
            Some(Item::Span(_)) => true,
        }
    }

    /// Adds the portions that give so many frames from here on, where the cursor is in this span.
    fn add_span(
        &self,
        index: &Index,
        span: Span,
        frames: u32,
        portions: &mut Vec<Portion>,
    ) -> Result<(), NoMemory>
        requires position { IsPosition index.now.items self.now }
        requires here { slice_get index.now.items self.now.item ≡ Some (variants.Span span) }
        ensures { OnOk result (portions.new.items
            ≡ portions.old.items ++ run_portions index.now.items self.now frames) }
    {
        if frames == 0 {
            return Ok(());
        }
        let items = index.items();
        let skip = (self.told - span.start) as u32;
        add_run(&span, &items[self.item + 1..], skip, frames, portions)
    }

    /// Adds the portions that give so many frames from here on, as far as the run goes.
    pub(crate) fn add_portions(
        &self,
        index: &Index,
        frames: u32,
        portions: &mut Vec<Portion>,
    ) -> Result<(), NoMemory>
        requires { IsPosition index.now.items self.now }
        ensures right { AreIndexItems index.now }
        ensures portions { OnOk result (portions.new.items
            ≡ portions.old.items ++ run_portions index.now.items self.now frames) }
    {
        match self.here(index) {
            None => Ok(()),
            Some(Item::Gap { .. }) => Ok(()),
            Some(Item::Span(span)) => self.add_span(index, span, frames, portions),
        }
    }

    /// The portions that give so many frames from here on, as far as the run goes.
    pub(crate) fn portions(
        &self,
        alloc: Global,
        index: &Index,
        frames: u32,
    ) -> Result<Vec<Portion>, NoMemory>
        requires { IsPosition index.now.items self.now }
        ensures right { AreIndexItems index.now }
        ensures portions { IfOk result
            (λ portions. portions.items ≡ run_portions index.now.items self.now frames) }
    {
        let mut portions = Vec::new(alloc);
        self.add_portions(index, frames, &mut portions)?;
        Ok(portions)
    }

    /// The frames of portions, of so many channels, of which the first ones are replaced by those
    /// of the patch.
    pub(crate) fn next_frames(
        &self,
        alloc: Global,
        channels: u8,
        portions: &[Portion],
        halves: &[HalfBlock],
    ) -> Result<Frames, NoMemory>
        requires fit { FitHalves portions.now halves.now }
        requires some { 0 < channels }
        requires each { All (HasChannels channels) (frames_from portions.now halves.now) }
        requires patch { All (HasChannels channels) self.now.patch }
        ensures { IfOk result (λ frames. frames
            ≡ patched self.now.patch (frames_from portions.now halves.now)) }
    {
        let mut values = frames_of(alloc, portions, halves)?;
        lay_over(&self.patch, &mut values);
        Ok(Frames::of(channels, values))
    }

    /// Moves behind so many frames of the run.
    pub(crate) fn pass(&mut self, index: &Index, count: usize)
        requires position { IsCursorIn index.now self.old }
        requires right { AreIndexItems index.now }
        requires some { 0 < count }
        requires run { count ≤ length (run_at (listed index.now.items)
            (state_in index.now.items self.old).place) }
        ensures state { state_in index.now.items self.new
            ≡ passed count (state_in index.now.items self.old) }
        ensures position { IsCursorIn index.now self.new }
    {
        self.told += count as u64;
        self.item = item_behind(index, self.told);
        pass(&mut self.patch, count);
    }

    /// Moves behind a gap.
    pub(crate) fn pass_gap(&mut self)
        requires { self.old.item + 1 < 2 ^ 64 }
        ensures state { (index : Indexed) → IsCursorIn index self.old
            → IsGap (slice_get index.items self.old.item)
            → state_in index.items self.new ≡ passed 1 (state_in index.items self.old) }
        ensures position { (index : Indexed) → IsCursorIn index self.old
            → IsGap (slice_get index.items self.old.item) → IsCursorIn index self.new }
    {
        self.item += 1;
    }

    /// Sets the patch in place of the one before.
    pub(crate) fn set_patch(&mut self, patch: Option<Patch>)
        ensures { self.new ≡ record self.old { patch = unwrap_or patch [] } }
    {
        self.patch = patch;
    }
}
