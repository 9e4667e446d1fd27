ghost use Rattle.std.specs.Prelude.{◌≡◌, ◌+◌, ◌<◌, ◌≤◌, length, Some, IfOk, OnOk, OnErr, slice_get};
ghost use Rattle.std.specs.List.{All};
ghost use Rattle.model_line.specs.declared.item.Item.TheVariants as variants;
ghost use Rattle.model_cursor.specs.declared.need.Need.{Need};
ghost use Rattle.film_index.specs.Items.{AreIndexItems};
ghost use Rattle.model_cursor.specs.Cursors.{read};
ghost use Rattle.model_cursor.specs.Splices.{lap, crossed};
ghost use Rattle.model_cursor.specs.Plans.{IsTask, splicing_of, needs, read_needs, splice_needs, lap_needs, sought_reply, task_answer};
ghost use Rattle.model_cursor.specs.Positions.{IsPosition, IsCursorIn, state_in};
ghost use Rattle.model_cursor.specs.Sources.{Source, Suits, AreHalves, AreHalvesOf, line_from};

use crate::blocks::{Blocks, Halves, fetch_all};
use crate::portions::needs_of;
use crate::position::Cursor;
use constants_file::Constants;
use film_index::{Index, Item, Span};
use lap_window::HalfBlock;
use memory::NoMemory;
use model_cursor::{Needs, Reply, Sought, Task};
use std::alloc::Global;

/// What a seek or a lap answers, as a reply.
fn reply_of(sought: Sought) -> Reply
    ensures { result ≡ sought_reply sought }
{
    match sought {
        Sought::At { place } => Reply::At { place },
        Sought::Invalid { total } => Reply::Invalid { total },
    }
}

impl Cursor {
    /// The plan of a read of so many frames.
    fn plan_read(&self, alloc: Global, index: &Index, frames: u32) -> Result<Needs, NoMemory>
        requires { IsPosition index.now.items self.now }
        ensures plan { IfOk result (λ plan. plan
            ≡ read_needs index.now.items (state_in index.now.items self.now).place frames) }
        ensures within { IfOk result (All (λ need. need.block < index.now.blocks)) }
    {
        let portions = self.portions(alloc, index, frames)?;
        Ok(needs_of(alloc, &portions)?)
    }

    /// The plan of a lap to so many frames.
    fn plan_lap(&self, alloc: Global, index: &Index, place: u64) -> Result<Needs, NoMemory>
        requires { IsCursorIn index.now self.now }
        ensures plan { IfOk result (λ plan. plan
            ≡ lap_needs index.now (state_in index.now.items self.now).place place) }
        ensures within { IfOk result (All (λ need. need.block < index.now.blocks)) }
    {
        if place > index.total() {
            return Ok(Needs::new(alloc));
        }
        let new = Cursor::at(index, place);
        Ok(self.plan_cross(alloc, index, &new)?)
    }

    /// The halves of blocks that a task needs here, in order. For a read: of each span that its
    /// frames meet, the right half of its block, and the left half of the next block. For a lap:
    /// what the frames that it goes over from need, and then what those that it goes over to do.
    ///
    /// # Errors
    ///
    /// Only where no memory was found.
    pub fn plan(&self, alloc: Global, index: &Index, task: &Task) -> Result<Needs, NoMemory>
        requires position { IsCursorIn index.now self.now }
        requires task { IsTask task.now }
        ensures plan { IfOk result (λ plan. plan
            ≡ needs index.now (state_in index.now.items self.now).place task.now) }
        ensures within { IfOk result (All (λ need. need.block < index.now.blocks)) }
    {
        match *task {
            Task::Read { frames } => self.plan_read(alloc, index, frames),
            Task::Lap { place } => self.plan_lap(alloc, index, place),
        }
    }

    /// Gives so many frames from here on, where the cursor is in this span, and moves behind them.
    fn give(
        &mut self,
        alloc: Global,
        index: &Index,
        span: Span,
        frames: u32,
        halves: &[HalfBlock],
    ) -> Result<Reply, NoMemory>
        requires position { IsCursorIn index.now self.old }
        requires right { AreIndexItems index.now }
        requires here { slice_get index.now.items self.old.item ≡ Some (variants.Span span) }
        requires some { 0 < frames }
        requires halves { AreHalves index.now
            (read_needs index.now.items (state_in index.now.items self.old).place frames)
            halves.now }
        ensures answer { IfOk result (λ reply. (source : Source) → AreHalvesOf index.now
            (read_needs index.now.items (state_in index.now.items self.old).place frames)
            halves.now source
            → read (line_from source index.now.items) frames (state_in index.now.items self.old)
            ≡ (reply, state_in index.now.items self.new)) }
        ensures position { IsCursorIn index.now self.new }
        ensures unchanged { OnErr result (self.new ≡ self.old) }
    {
        let portions = self.portions(alloc, index, frames)?;
        let given = self.next_frames(alloc, self.channels(index), &portions, halves)?;
        self.pass(index, given.count());
        Ok(Reply::Frames {
            link: span.link,
            frames: given,
        })
    }

    /// Reads, with the halves that the plan needs, in order.
    fn finish_read(
        &mut self,
        alloc: Global,
        index: &Index,
        frames: u32,
        halves: &Halves,
    ) -> Result<Reply, NoMemory>
        requires position { IsCursorIn index.now self.old }
        requires some { 0 < frames }
        requires halves { AreHalves index.now
            (read_needs index.now.items (state_in index.now.items self.old).place frames)
            halves.now }
        ensures answer { IfOk result (λ reply. (source : Source) → AreHalvesOf index.now
            (read_needs index.now.items (state_in index.now.items self.old).place frames)
            halves.now source
            → read (line_from source index.now.items) frames (state_in index.now.items self.old)
            ≡ (reply, state_in index.now.items self.new)) }
        ensures position { IsCursorIn index.now self.new }
        ensures unchanged { OnErr result (self.new ≡ self.old) }
    {
        match self.here(index) {
            None => Ok(Reply::End),
            Some(Item::Gap { kind, .. }) => {
                self.pass_gap();
                Ok(Reply::Gap { kind })
            }
            Some(Item::Span(span)) => self.give(alloc, index, span, frames, halves.items()),
        }
    }

    /// Does a task, with the halves that its plan needs, in order: gives the frames that follow, or
    /// tells a gap or the end, and moves behind what was given; or laps. Where no memory was found,
    /// the cursor stays.
    ///
    /// # Errors
    ///
    /// Only where no memory was found.
    pub fn finish(
        &mut self,
        alloc: Global,
        index: &Index,
        constants: &Constants,
        task: &Task,
        halves: &Halves,
    ) -> Result<Reply, NoMemory>
        requires position { IsCursorIn index.now self.old }
        requires task { IsTask task.now }
        requires halves { AreHalves index.now
            (needs index.now (state_in index.now.items self.old).place task.now) halves.now }
        ensures answer { IfOk result (λ reply. (source : Source) → AreHalvesOf index.now
            (needs index.now (state_in index.now.items self.old).place task.now)
            halves.now source
            → task_answer (splicing_of constants.now index.now)
            (line_from source index.now.items) task.now
            (state_in index.now.items self.old) ≡ (reply, state_in index.now.items self.new)) }
        ensures position { IsCursorIn index.now self.new }
        ensures unchanged { OnErr result (self.new ≡ self.old) }
    {
        match *task {
            Task::Read { frames } => self.finish_read(alloc, index, frames, halves),
            Task::Lap { place } => {
                let sought = self.lap(alloc, index, constants, place, halves)?;
                Ok(reply_of(sought))
            }
        }
    }

    /// Gives at most so many of the frames that follow, or tells a gap or the end, and moves behind
    /// what was given. It fetches exactly the halves that its plan needs, in order. Where no memory
    /// was found, the cursor stays.
    ///
    /// # Errors
    ///
    /// Only where no memory was found.
    pub fn read<B: Blocks>(
        &mut self,
        alloc: Global,
        index: &Index,
        constants: &Constants,
        blocks: &mut B,
        frames: u32,
    ) -> Result<Reply, NoMemory>
        requires position { IsCursorIn index.now self.old }
        requires some { 0 < frames }
        requires count { index.now.blocks ≤ B.count blocks.old }
        requires suits { Suits index.now (B.half_of blocks.old) }
        ensures answer { IfOk result (λ reply. read
            (line_from (B.half_of blocks.old) index.now.items) frames
            (state_in index.now.items self.old) ≡ (reply, state_in index.now.items self.new)) }
        ensures position { IsCursorIn index.now self.new }
        ensures unchanged { OnErr result (self.new ≡ self.old) }
        ensures fetched { OnOk result (B.fetches blocks.new ≡ B.fetches blocks.old + length
            (read_needs index.now.items (state_in index.now.items self.old).place frames)) }
        ensures most { B.fetches blocks.new ≤ B.fetches blocks.old + length
            (read_needs index.now.items (state_in index.now.items self.old).place frames) }
        ensures count { B.count blocks.new ≡ B.count blocks.old }
        ensures same { (any : Need) → B.half_of blocks.new any ≡ B.half_of blocks.old any }
    {
        let task = Task::Read { frames };
        let needs = self.plan(alloc, index, &task)?;
        let halves = fetch_all(alloc, blocks, needs.items())?;
        self.finish(alloc, index, constants, &task, &halves)
    }

    /// Moves the cursor behind so many frames of the line, as a seek does, and lets it go over
    /// without a click from the frames that reads would have given: the first frames that reads
    /// give then are mixed with those. It fetches exactly the halves that its plan needs, in order.
    /// Where the line has fewer frames, or no memory was found, the cursor stays.
    ///
    /// # Errors
    ///
    /// Only where no memory was found.
    pub fn seek_lap<B: Blocks>(
        &mut self,
        alloc: Global,
        index: &Index,
        constants: &Constants,
        blocks: &mut B,
        place: u64,
    ) -> Result<Sought, NoMemory>
        requires position { IsCursorIn index.now self.old }
        requires count { index.now.blocks ≤ B.count blocks.old }
        requires suits { Suits index.now (B.half_of blocks.old) }
        ensures answer { IfOk result (λ sought. lap (splicing_of constants.now index.now)
            (line_from (B.half_of blocks.old) index.now.items) place
            (state_in index.now.items self.old) ≡ (sought, state_in index.now.items self.new)) }
        ensures position { IsCursorIn index.now self.new }
        ensures unchanged { OnErr result (self.new ≡ self.old) }
        ensures fetched { OnOk result (B.fetches blocks.new ≡ B.fetches blocks.old + length
            (lap_needs index.now (state_in index.now.items self.old).place place)) }
        ensures most { B.fetches blocks.new ≤ B.fetches blocks.old + length
            (lap_needs index.now (state_in index.now.items self.old).place place) }
        ensures count { B.count blocks.new ≡ B.count blocks.old }
        ensures same { (any : Need) → B.half_of blocks.new any ≡ B.half_of blocks.old any }
    {
        let needs = self.plan_lap(alloc, index, place)?;
        let halves = fetch_all(alloc, blocks, needs.items())?;
        self.lap(alloc, index, constants, place, &halves)
    }

    /// Lets a new cursor go over without a click from the frames that reads would give here: the
    /// first frames that reads of the new cursor give are mixed with those. Both cursors stay where
    /// they are. It fetches exactly the halves that the plan of the cross needs, in order. Where no
    /// memory was found, nothing changes.
    ///
    /// # Errors
    ///
    /// Only where no memory was found.
    pub fn crosslap<B: Blocks>(
        &self,
        alloc: Global,
        index: &Index,
        constants: &Constants,
        blocks: &mut B,
        new: &mut Cursor,
    ) -> Result<(), NoMemory>
        requires position { IsCursorIn index.now self.now }
        requires new { IsCursorIn index.now new.old }
        requires count { index.now.blocks ≤ B.count blocks.old }
        requires suits { Suits index.now (B.half_of blocks.old) }
        ensures answer { OnOk result (crossed (splicing_of constants.now index.now)
            (line_from (B.half_of blocks.old) index.now.items) (state_in index.now.items self.now)
            (state_in index.now.items new.old) ≡ state_in index.now.items new.new) }
        ensures position { IsCursorIn index.now new.new }
        ensures unchanged { OnErr result (new.new ≡ new.old) }
        ensures fetched { OnOk result (B.fetches blocks.new ≡ B.fetches blocks.old + length
            (splice_needs index.now (state_in index.now.items self.now).place
            (state_in index.now.items new.old).place)) }
        ensures most { B.fetches blocks.new ≤ B.fetches blocks.old + length
            (splice_needs index.now (state_in index.now.items self.now).place
            (state_in index.now.items new.old).place) }
        ensures count { B.count blocks.new ≡ B.count blocks.old }
        ensures same { (any : Need) → B.half_of blocks.new any ≡ B.half_of blocks.old any }
    {
        let needs = self.plan_cross(alloc, index, new)?;
        let halves = fetch_all(alloc, blocks, needs.items())?;
        self.finish_cross(alloc, index, constants, new, &halves)
    }
}
