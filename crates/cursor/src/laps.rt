ghost use Rattle.std.specs.Prelude.{◌≡◌, ◌<◌, length, IfOk, OnOk, OnErr};
ghost use Rattle.std.specs.List.{All};
ghost use Rattle.model_line.specs.Origins.{listed};
ghost use Rattle.model_cursor.specs.declared.need.Need.{Need};
ghost use Rattle.model_cursor.specs.Runs.{run_at};
ghost use Rattle.model_cursor.specs.Splices.{splice_len, splice, lap, crossed};
ghost use Rattle.model_cursor.specs.Plans.{shorts_of, splicing_of, splice_needs, lap_needs};
ghost use Rattle.model_cursor.specs.Positions.{IsPosition, IsCursorIn, state_in};
ghost use Rattle.model_cursor.specs.Sources.{Source, AreHalves, AreHalvesOf, line_from};

use crate::blocks::Halves;
use crate::frames::{halves_behind, run_frames};
use crate::mix::mix;
use crate::patch::Patch;
use crate::portions::needs_of;
use crate::position::Cursor;
use constants_file::Constants;
use film_index::Index;
use lap_window::HalfBlock;
use memory::NoMemory;
use model_cursor::{Needs, Sought};
use std::alloc::Global;

impl Cursor {
    /// How many frames a splice from here to a new place mixes: half as many as the shorter of the
    /// short blocks of their links are long.
    fn splice_len(&self, index: &Index, new: &Cursor) -> u32
        requires position { IsPosition index.now.items self.now }
        requires new { IsPosition index.now.items new.now }
        ensures { result ≡ splice_len (shorts_of index.now.links) (listed index.now.items)
            (state_in index.now.items self.now).place (state_in index.now.items new.now).place }
    {
        self.short(index).min(new.short(index)) / 2
    }

    /// The halves of blocks that a cross from here to a new cursor needs, in order: what the frames
    /// that reads would give here need, and then what those at the new cursor do. Where no frame is
    /// at the new cursor, it needs none.
    ///
    /// # Errors
    ///
    /// Only where no memory was found.
    pub fn plan_cross(&self, alloc: Global, index: &Index, new: &Cursor) -> Result<Needs, NoMemory>
        requires position { IsCursorIn index.now self.now }
        requires new { IsCursorIn index.now new.now }
        ensures plan { IfOk result (λ plan. plan ≡ splice_needs index.now
            (state_in index.now.items self.now).place (state_in index.now.items new.now).place) }
        ensures within { IfOk result (All (λ need. need.block < index.now.blocks)) }
    {
        if !new.has_frame(index) {
            return Ok(Needs::new(alloc));
        }
        let frames = self.splice_len(index, new);
        let mut portions = self.portions(alloc, index, frames)?;
        new.add_portions(index, frames, &mut portions)?;
        Ok(needs_of(alloc, &portions)?)
    }

    /// The splice from here to a new place, with the halves that its plan needs, in order.
    fn splice(
        &self,
        alloc: Global,
        index: &Index,
        constants: &Constants,
        new: &Cursor,
        halves: &[HalfBlock],
    ) -> Result<Patch, NoMemory>
        requires position { IsCursorIn index.now self.now }
        requires new { IsCursorIn index.now new.now }
        requires some { 0 < length (run_at (listed index.now.items)
            (state_in index.now.items new.now).place) }
        requires halves { AreHalves index.now (splice_needs index.now
            (state_in index.now.items self.now).place (state_in index.now.items new.now).place)
            halves.now }
        ensures { IfOk result (λ patch. (source : Source) → AreHalvesOf index.now
            (splice_needs index.now (state_in index.now.items self.now).place
            (state_in index.now.items new.now).place) halves.now source
            → patch ≡ splice (splicing_of constants.now index.now)
            (line_from source index.now.items) (state_in index.now.items self.now)
            (state_in index.now.items new.now).place) }
    {
        let frames = self.splice_len(index, new);
        let first = self.portions(alloc, index, frames)?;
        let old = self.next_frames(alloc, self.channels(index), &first, halves)?;
        let second = new.portions(alloc, index, frames)?;
        let channels = new.channels(index);
        let rest = halves_behind(halves, first.len());
        let fresh = run_frames(alloc, channels, &second, rest)?;
        Ok(Patch::of(channels, mix(alloc, constants, frames, &old, &fresh)?))
    }

    /// Lets a new cursor go over without a click from the frames that reads would give here, with
    /// the halves that the plan of the cross needs, in order: the first frames that reads of the
    /// new cursor give are mixed with those. Both cursors stay where they are. Where no memory was
    /// found, nothing changes.
    ///
    /// # Errors
    ///
    /// Only where no memory was found.
    pub fn finish_cross(
        &self,
        alloc: Global,
        index: &Index,
        constants: &Constants,
        new: &mut Cursor,
        halves: &Halves,
    ) -> Result<(), NoMemory>
        requires position { IsCursorIn index.now self.now }
        requires new { IsCursorIn index.now new.old }
        requires halves { AreHalves index.now (splice_needs index.now
            (state_in index.now.items self.now).place (state_in index.now.items new.old).place)
            halves.now }
        ensures answer { OnOk result ((source : Source) → AreHalvesOf index.now
            (splice_needs index.now (state_in index.now.items self.now).place
            (state_in index.now.items new.old).place) halves.now source
            → crossed (splicing_of constants.now index.now) (line_from source index.now.items)
            (state_in index.now.items self.now) (state_in index.now.items new.old)
            ≡ state_in index.now.items new.new) }
        ensures position { IsCursorIn index.now new.new }
        ensures unchanged { OnErr result (new.new ≡ new.old) }
    {
        if !new.has_frame(index) {
            new.set_patch(None);
            return Ok(());
        }
        let patch = self.splice(alloc, index, constants, new, halves.items())?;
        new.set_patch(Some(patch));
        Ok(())
    }

    /// Moves the cursor as a seek does, and lets it go over without a click from the frames that
    /// reads would have given, with the halves that the plan needs, in order. Where no memory was
    /// found, the cursor stays.
    ///
    /// # Errors
    ///
    /// Only where no memory was found.
    pub(crate) fn lap(
        &mut self,
        alloc: Global,
        index: &Index,
        constants: &Constants,
        place: u64,
        halves: &Halves,
    ) -> Result<Sought, NoMemory>
        requires position { IsCursorIn index.now self.old }
        requires halves { AreHalves index.now
            (lap_needs index.now (state_in index.now.items self.old).place place) halves.now }
        ensures answer { IfOk result (λ sought. (source : Source) → AreHalvesOf index.now
            (lap_needs index.now (state_in index.now.items self.old).place place)
            halves.now source
            → lap (splicing_of constants.now index.now) (line_from source index.now.items) place
            (state_in index.now.items self.old) ≡ (sought, state_in index.now.items self.new)) }
        ensures position { IsCursorIn index.now self.new }
        ensures unchanged { OnErr result (self.new ≡ self.old) }
    {
        let total = index.total();
        if place > total {
            return Ok(Sought::Invalid { total });
        }
        let mut new = Cursor::at(index, place);
        self.finish_cross(alloc, index, constants, &mut new, halves)?;
        *self = new;
        Ok(Sought::At { place })
    }
}
