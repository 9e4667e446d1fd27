ghost use Rattle.std.specs.Prelude.{◌≡◌, ◌+◌, ◌^◌, ◌<◌, ◌≤◌, List, length, slice_index_or, MatchOption};
ghost use Rattle.std.specs.List.Sorted.{IsNonDecreasing};
ghost use Rattle.granule_seek.specs.Places.{IsLastAtMost, AreAllAbove};
ghost use Rattle.model_line.specs.Decode.{frame_count};
ghost use Rattle.model_line.specs.Origins.{listed};
ghost use Rattle.model_line.specs.Blocks.{Frame};
ghost use Rattle.model_cursor.specs.Cursors.{place_after};
ghost use Rattle.model_cursor.specs.Positions.{start_of, gaps_before, IsPosition};

use film_index::Index;
use granule_seek::{SliceStarts, last_at_most};
use std::marker::Brand;
use std::sync::ledger::{Blank, Ledger};
use vf_outside::Steps;

/// The last place of a list that never falls whose number is at most `p`, or none.
fn last_start<L: Ledger>(blank: Blank, starts: &[u64], p: u64) -> Option<usize>
    requires name { blank.name ≡ L.name }
    requires parts { blank.parts ≡ L.parts }
    requires some { 0 < blank.parts }
    requires rises { IsNonDecreasing starts.now }
    ensures { MatchOption result (AreAllAbove starts.now p) (IsLastAtMost starts.now p) }
{
    let mut steps = Steps::<L>::new(blank);
    last_at_most(&SliceStarts::new(starts), p, &mut steps)
}

/// The start of an item, or the number of all frames behind the last item.
fn start_at(starts: &[u64], total: u64, item: usize) -> u64
    ensures { result ≡ slice_index_or starts.now item total }
{
    starts.get(item).copied().unwrap_or(total)
}

/// How many frames are before the end of an item.
fn end_of(index: &Index, item: usize) -> u64
    requires { item < length index.now.items }
    ensures frames { result ≡ start_of index.now.items (item + 1) }
    ensures fits { item + 1 < 2 ^ 64 }
{
    start_at(index.starts(), index.total(), item + 1)
}

/// The number of the item of the frame of this number.
fn item_of(index: &Index, frame: u64) -> usize
    requires { frame < frame_count (listed index.now.items) }
    ensures within { result < length index.now.items }
    ensures from { start_of index.now.items result ≤ frame }
    ensures before { frame < start_of index.now.items (result + 1) }
{
    match last_start::<Brand>(Blank::new(1), index.starts(), frame) {
        Some(item) => item,
        None => unreachable!(),
    }
}

/// The number of the item of a cursor that stands behind so many frames, and before the gaps that
/// follow them.
pub fn item_behind(index: &Index, frames: u64) -> usize
    requires { frames ≤ frame_count (listed index.now.items) }
    ensures place { frames + gaps_before index.now.items result
        ≡ place_after frames (listed index.now.items) }
    ensures position { (patch : List Frame) → IsPosition index.now.items
        (record { item = result; told = frames; patch = patch }) }
{
    if frames == 0 {
        return 0;
    }
    let item = item_of(index, frames - 1);
    if frames == end_of(index, item) {
        item + 1
    } else {
        item
    }
}
