ghost use Rattle.std.specs.Prelude.{◌≡◌, ◌<◌, ◌≤◌, IfOk, length, pos, replicate, [], ◌∷◌};
ghost use Rattle.std.specs.Bool.{OnTrue};
ghost use Rattle.film_index.specs.Bounds.{FitsLink};
ghost use Rattle.model_cursor.specs.declared.need.Need.{Need};
ghost use Rattle.model_cursor.specs.Sources.{Suits, ItemSuits};

use super::*;
use crate::blocks::fetch_all;
use constants_file::Constants;
use film_index::{GapKind, Half, Index, Item, LinkRows, Row, RowKind, Rows};
use memory::{NoMemory, Sequence};
use model_synthesis::CONSTANTS_WORD;
use std::alloc::Global;
use std::marker::Brand;
use std::sync::ledger::{Blank, Ledger};
use std::test::Fail;
use vf_outside::Steps;

/// An entry without a mark.
macro_rules! row {
    ($kind:expr) => {
        Row {
            kind: $kind,
            mark: None,
        }
    };
}

const SHORT: Row = row!(RowKind::Block { long: false });

/// A film of two links with blocks of 64 values, of which the second may have no entries.
#[derive(Clone, Copy)]
enum Film {
    /// Two blocks, a loss, and two blocks more: 32 frames, a gap, and 32 frames.
    Lossy,
    /// Four blocks: 96 frames.
    Whole,
    /// Two blocks in each link: 32 frames of the first, and 32 of the second.
    TwoLinks,
    /// Two blocks, and a bad packet behind them.
    EndsBadly,
}

/// The entries of a film's links.
fn entries_of(film: Film) -> (&'static [Row], &'static [Row]) {
    match film {
        Film::Lossy => (&[SHORT, SHORT, row!(RowKind::Lost), SHORT, SHORT], &[]),
        Film::Whole => (&[SHORT, SHORT, SHORT, SHORT], &[]),
        Film::TwoLinks => (&[SHORT, SHORT], &[SHORT, SHORT]),
        Film::EndsBadly => (&[SHORT, SHORT, row!(RowKind::Bad)], &[]),
    }
}

/// What a row shows, the place that is sought from place 7, what the seek answers, and what the
/// cursor tells then.
type Seek = (&'static str, u64, Sought, u64);

const SEEKS: [Seek; 7] = [
    ("the beginning", 0, Sought::At { place: 0 }, 0),
    ("among the first frames", 31, Sought::At { place: 31 }, 31),
    ("before the gap", 32, Sought::At { place: 32 }, 32),
    ("behind the gap", 33, Sought::At { place: 33 }, 33),
    ("the end", 64, Sought::At { place: 64 }, 64),
    ("past the end", 65, Sought::Invalid { total: 64 }, 7),
    ("far past it", u64::MAX, Sought::Invalid { total: 64 }, 7),
];

/// These entries, as a link keeps them.
fn rows_of(alloc: Global, rows: &[Row]) -> Result<Rows, NoMemory>
    ensures { IfOk result (λ kept. kept ≡ rows.now) }
{
    let mut kept = Rows::with_capacity(alloc, rows.len())?;
    for row in rows {
        kept.push(*row)?;
    }
    Ok(kept)
}

/// A link with blocks of 64 and the first hundred of these entries.
fn link_of(alloc: Global, rows: &[Row]) -> Result<LinkRows, NoMemory>
    ensures sizes { IfOk result FitsLink }
    ensures few { IfOk result (λ link. length link.rows ≤ 100) }
{
    let rows = &rows[..rows.len().min(100)];
    Ok(LinkRows {
        channels: 1,
        rate: 8000,
        short: 64,
        long: 64,
        rows: rows_of(alloc, rows)?,
    })
}

/// The index of a film.
#[tactic(auto, using(film_index::proofs::Films::two_links))]
fn index_of(alloc: Global, film: Film) -> Result<Index, NoMemory> {
    let (first, second) = entries_of(film);
    let first = link_of(alloc, first)?;
    let second = link_of(alloc, second)?;
    let mut links = Vec::new(alloc);
    links.push(first)?;
    links.push(second)?;
    Index::build(alloc, links)
}

/// What a seek from place 7 answers, and what the cursor tells then.
fn sought(index: &Index, place: u64) -> (Sought, u64) {
    let mut cursor = Cursor::start();
    let _seven = cursor.seek(index, 7);
    let answer = cursor.seek(index, place);
    (answer, cursor.tell())
}

#[test]
fn seeks_and_tells(rt: HostRuntime) -> Result<(), Fail> {
    let index = index_of(rt.alloc(), Film::Lossy)?;
    for (name, place, answer, told) in SEEKS {
        assert_eq!(rt; sought(&index, place), (answer, told), "{name}");
    }
    Ok(())
}

/// Blocks of one channel and of 64 values, each of which is its block's number.
#[derive(Drop)]
struct Numbered<L: Ledger> {
    count: u32,
    steps: Steps<L>,
    needs: Vec<Need>,
}

impl<L: Ledger> Blocks for Numbered<L> {
    ghost count = { λ b. b.count };

    ghost half_of = { λ _ need. replicate 32 (pos need.block) ∷ [] };

    ghost fetches = { λ b. b.steps };

    fn fetch(&mut self, alloc: Global, need: Need) -> Result<HalfBlock, NoMemory> {
        self.steps.tick();
        self.needs.push(need)?;
        let values = Sequence::of(vec![in alloc; i64::from(need.block); 32]?);
        let mut half = Sequence::new(alloc);
        half.push(values)?;
        Ok(half)
    }
}

/// An item's frames are among those that such blocks give.
fn item_suits(index: &Index, item: Item) -> bool
    ensures { OnTrue result
        (ItemSuits index.now.links (λ need. replicate 32 (pos need.block) ∷ []) item) }
{
    let Item::Span(span) = item else {
        return true;
    };
    if span.link >= index.links() {
        return false;
    }
    let facts = index.link(span.link);
    if facts.channels != 1 {
        return false;
    }
    span.to <= 32
}

/// All items' frames are so.
fn suits(index: &Index) -> bool
    ensures { OnTrue result (Suits index.now (λ need. replicate 32 (pos need.block) ∷ [])) }
{
    let items = index.items();
    for item in items {
        let fits = item_suits(index, *item);
        if !fits {
            return false;
        }
    }
    true
}

/// What a read answers: frames of which link, how many values, and the first; or a gap, or the end.
#[derive(Clone, Copy, Debug, PartialEq, Eq)]
enum Told {
    Frames(u32, usize, Option<i64>),
    Gap(GapKind),
    Other,
}

/// What a reply is.
fn answer_of(reply: &Reply) -> Told {
    match reply {
        Reply::Frames { link, frames } => {
            let values = frames.items();
            Told::Frames(*link, values.len(), values.first().copied())
        }
        Reply::Gap { kind } => Told::Gap(*kind),
        _ => Told::Other,
    }
}

/// What a read at a place of a film answers, what the cursor tells then, and what was fetched.
fn read_at<L: Ledger>(
    alloc: Global,
    blank: Blank,
    film: Film,
    place: u64,
    frames: u32,
) -> Result<(Told, u64, Vec<Need>), Fail>
    requires name { blank.name ≡ L.name }
    requires parts { blank.parts ≡ L.parts }
    requires some { 0 < blank.parts }
    requires frames { 0 < frames }
{
    let index = index_of(alloc, film)?;
    let constants = constants(alloc, 0)?;
    let mut blocks = Numbered::<L> {
        count: index.blocks(),
        steps: Steps::new(blank),
        needs: Vec::new(alloc),
    };
    let mut cursor = Cursor::start();
    let _sought = cursor.seek(&index, place);
    if !suits(&index) {
        return Err(Fail::from("a span of other blocks"));
    }
    let reply = cursor.read(alloc, &index, &constants, &mut blocks, frames)?;
    Ok((answer_of(&reply), cursor.tell(), blocks.needs))
}

/// Constants of which all numbers are this one.
fn constants(alloc: Global, number: u32) -> Result<Constants, Fail> {
    let mut bytes = CONSTANTS_WORD.to_vec(alloc)?;
    for _ in 0..16608 {
        bytes.extend_from_slice(&number.to_le_bytes())?;
    }
    Ok(Constants::read(alloc, &bytes)?)
}

/// What a row shows, a film, a place, how many frames are wanted, what the read answers, what the
/// cursor tells then, and how many halves were fetched.
type Read = (&'static str, Film, u64, u32, Told, u64, usize);

const READS: [Read; 11] = [
    (
        "one frame",
        Film::Whole,
        40,
        1,
        Told::Frames(0, 1, Some(3)),
        41,
        2,
    ),
    (
        "over a border of blocks",
        Film::Whole,
        31,
        2,
        Told::Frames(0, 2, Some(1)),
        33,
        4,
    ),
    (
        "a whole film",
        Film::Whole,
        0,
        65536,
        Told::Frames(0, 96, Some(1)),
        96,
        6,
    ),
    (
        "up to a gap, and no further",
        Film::Lossy,
        1,
        65536,
        Told::Frames(0, 31, Some(1)),
        32,
        2,
    ),
    (
        "at a gap",
        Film::Lossy,
        32,
        7,
        Told::Gap(GapKind::Lost),
        32,
        0,
    ),
    (
        "behind a gap",
        Film::Lossy,
        33,
        65536,
        Told::Frames(0, 31, Some(5)),
        64,
        2,
    ),
    (
        "up to a link's border, and no further",
        Film::TwoLinks,
        31,
        65536,
        Told::Frames(0, 1, Some(1)),
        32,
        2,
    ),
    (
        "at a link's border",
        Film::TwoLinks,
        32,
        65536,
        Told::Frames(1, 32, Some(5)),
        64,
        2,
    ),
    ("at the end", Film::Lossy, 64, 1, Told::Other, 64, 0),
    (
        "past the end, which moves nothing",
        Film::Lossy,
        65,
        1,
        Told::Frames(0, 1, Some(1)),
        1,
        2,
    ),
    (
        "at the end, before the last gap",
        Film::EndsBadly,
        32,
        1,
        Told::Gap(GapKind::Bad),
        32,
        0,
    ),
];

#[test]
fn reads_from_anywhere(rt: HostRuntime) -> Result<(), Fail> {
    for (name, film, place, frames, answer, then, fetched) in READS {
        if frames == 0 {
            continue;
        }
        let read = read_at::<Brand>(rt.alloc(), Blank::new(1), film, place, frames)?;
        assert_eq!(rt;
            (read.0, read.1, read.2.len()),
            (answer, then, fetched),
            "{name}"
        );
    }
    let read = read_at::<Brand>(rt.alloc(), Blank::new(1), Film::Whole, 40, 1)?;
    let right = Need {
        block: 1,
        half: Half::Right,
    };
    let left = Need {
        block: 2,
        half: Half::Left,
    };
    assert_eq!(rt;
        read.2.as_slice(),
        [right, left].as_slice(),
        "the halves of one frame"
    );
    Ok(())
}

/// Slopes of this number, one half, give the new side a quarter of each mixed value.
const HALF: u32 = 1 << 22;

/// Of the frames that a read gives: how many values, the first, the fifth, and the last.
type Given = (usize, Option<i64>, Option<i64>, Option<i64>);

/// What a reply gives.
fn given(reply: &Reply) -> Given {
    match reply {
        Reply::Frames { frames, .. } => {
            let values = frames.items();
            (
                values.len(),
                values.first().copied(),
                values.get(4).copied(),
                values.last().copied(),
            )
        }
        _ => (0, None, None, None),
    }
}

/// What a lap from one place of a film to another answers, what the cursor reads then, and how many
/// halves the lap fetched.
fn lap<L: Ledger>(
    alloc: Global,
    blank: Blank,
    film: Film,
    from: u64,
    to: u64,
) -> Result<(Sought, Given, usize), Fail>
    requires name { blank.name ≡ L.name }
    requires parts { blank.parts ≡ L.parts }
    requires some { 0 < blank.parts }
{
    let index = index_of(alloc, film)?;
    let constants = constants(alloc, HALF)?;
    let mut blocks = Numbered::<L> {
        count: index.blocks(),
        steps: Steps::new(blank),
        needs: Vec::new(alloc),
    };
    let mut cursor = Cursor::start();
    let _sought = cursor.seek(&index, from);
    if !suits(&index) {
        return Err(Fail::from("a span of other blocks"));
    }
    let sought = cursor.seek_lap(alloc, &index, &constants, &mut blocks, to)?;
    let fetched = blocks.needs.len();
    let reply = cursor.read(alloc, &index, &constants, &mut blocks, 65536)?;
    Ok((sought, given(&reply), fetched))
}

/// What a row shows, a film, the place that a cursor laps from and the one that it laps to, what
/// the lap answers, what is read then, and how many halves the lap fetched.
type Lap = (&'static str, Film, u64, u64, Sought, Given, usize);

const LAPS: [Lap; 4] = [
    (
        "over a border of blocks",
        Film::Whole,
        0,
        60,
        Sought::At { place: 60 },
        (36, Some(1), Some(2), Some(5)),
        6,
    ),
    (
        "from the end, which is silent",
        Film::Whole,
        96,
        60,
        Sought::At { place: 60 },
        (36, Some(0), Some(1), Some(5)),
        4,
    ),
    (
        "before a gap",
        Film::Lossy,
        0,
        32,
        Sought::At { place: 32 },
        (0, None, None, None),
        0,
    ),
    (
        "past the end",
        Film::Whole,
        0,
        97,
        Sought::Invalid { total: 96 },
        (96, Some(1), Some(1), Some(5)),
        0,
    ),
];

#[test]
fn laps(rt: HostRuntime) -> Result<(), Fail> {
    for (name, film, from, to, sought, read, fetched) in LAPS {
        let answer = lap::<Brand>(rt.alloc(), Blank::new(1), film, from, to)?;
        assert_eq!(rt; answer, (sought, read, fetched), "{name}");
    }
    Ok(())
}

/// What a new cursor at one place reads after a cross from an old one at another, and what the old
/// one tells.
fn cross<L: Ledger>(alloc: Global, blank: Blank, from: u64, to: u64) -> Result<(Given, u64), Fail>
    requires name { blank.name ≡ L.name }
    requires parts { blank.parts ≡ L.parts }
    requires some { 0 < blank.parts }
{
    let index = index_of(alloc, Film::Whole)?;
    let constants = constants(alloc, HALF)?;
    let mut blocks = Numbered::<L> {
        count: index.blocks(),
        steps: Steps::new(blank),
        needs: Vec::new(alloc),
    };
    let mut old = Cursor::start();
    let _from = old.seek(&index, from);
    let mut new = Cursor::start();
    let _to = new.seek(&index, to);
    if !suits(&index) {
        return Err(Fail::from("a span of other blocks"));
    }
    old.crosslap(alloc, &index, &constants, &mut blocks, &mut new)?;
    let reply = new.read(alloc, &index, &constants, &mut blocks, 65536)?;
    Ok((given(&reply), old.tell()))
}

/// The same by the plan of the cross, and how many halves it needs.
fn cross_by_plan<L: Ledger>(
    alloc: Global,
    blank: Blank,
    from: u64,
    to: u64,
) -> Result<(Given, usize), Fail>
    requires name { blank.name ≡ L.name }
    requires parts { blank.parts ≡ L.parts }
    requires some { 0 < blank.parts }
{
    let index = index_of(alloc, Film::Whole)?;
    let constants = constants(alloc, HALF)?;
    let mut blocks = Numbered::<L> {
        count: index.blocks(),
        steps: Steps::new(blank),
        needs: Vec::new(alloc),
    };
    let mut old = Cursor::start();
    let _from = old.seek(&index, from);
    let mut new = Cursor::start();
    let _to = new.seek(&index, to);
    if !suits(&index) {
        return Err(Fail::from("a span of other blocks"));
    }
    let needs = old.plan_cross(alloc, &index, &new)?;
    let halves = fetch_all(alloc, &mut blocks, needs.items())?;
    old.finish_cross(alloc, &index, &constants, &mut new, &halves)?;
    let reply = new.read(alloc, &index, &constants, &mut blocks, 65536)?;
    Ok((given(&reply), needs.items().len()))
}

#[test]
fn crosses(rt: HostRuntime) -> Result<(), Fail> {
    let read = (36, Some(1), Some(2), Some(5));
    let at_once = cross::<Brand>(rt.alloc(), Blank::new(1), 0, 60)?;
    assert_eq!(rt; at_once, (read, 0), "the old cursor stays");
    let by_plan = cross_by_plan::<Brand>(rt.alloc(), Blank::new(1), 0, 60)?;
    assert_eq!(rt; by_plan, (read, 6), "by its plan");
    Ok(())
}
