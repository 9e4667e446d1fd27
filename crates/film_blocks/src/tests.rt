mod films;

use super::*;
use memory::Sequence;
use model_setup::SetupCause;
use model_synthesis::{CONSTANTS_WORD, COSINE_COUNT, DECIBEL_COUNT, SLOPE_COUNT};
use std::alloc::Global;
use std::process::Abort;
use std::test::Fail;

/// The bytes of a film of these parts, one after the other.
fn joined(alloc: Global, parts: &[&[u8]]) -> Result<Vec<u8>, Fail> {
    let mut film = Vec::new(alloc);
    for part in parts {
        film.extend_from_slice(part)?;
    }
    Ok(film)
}

/// Opens a film of these parts.
fn opened(
    rt: &impl Abort,
    alloc: Global,
    parts: &[&[u8]],
) -> Result<Result<Film, FilmFault>, Fail> {
    let bytes = joined(alloc, parts)?;
    assert!(rt; bytes.len() < 1 << 32);
    Ok(Film::open(alloc, bytes))
}

/// Constants that are all 1, but for the slopes, which have this value in units of 2^-23.
fn constants(alloc: Global, slope: u32) -> Result<Constants, Fail> {
    let mut bytes = CONSTANTS_WORD.to_vec(alloc)?;
    for (count, value) in [
        (DECIBEL_COUNT, 1u32 << 30),
        (SLOPE_COUNT, slope),
        (COSINE_COUNT, 1 << 23),
    ] {
        for _ in 0..count {
            bytes.extend_from_slice(&value.to_le_bytes())?;
        }
    }
    Ok(Constants::read(alloc, &bytes)?)
}

/// A film of these parts, with constants whose slopes have this value.
fn reel(rt: &impl Abort, alloc: Global, parts: &[&[u8]], slope: u32) -> Result<Reel, Fail> {
    Ok(Reel {
        film: opened(rt, alloc, parts)??,
        constants: constants(alloc, slope)?,
    })
}

/// A block, by the setup of its link, if the film has it.
fn block(alloc: Global, reel: &Reel, number: u32) -> Result<Option<Block>, NoMemory> {
    if number >= reel.film.blocks() {
        return Ok(None);
    }
    let setup = reel.film.setup(alloc, reel.film.block_link(number))?;
    Ok(Some(reel.block(alloc, number, &setup)?))
}

/// The values of a block of one channel, one half after the other.
fn values(alloc: Global, block: &Block) -> Result<Vec<i64>, NoMemory> {
    let mut values = Vec::new(alloc);
    for side in [Half::Left, Half::Right] {
        let half = block.half(alloc, side)?;
        for channel in half.items() {
            values.extend_from_slice(channel.items())?;
        }
    }
    Ok(values)
}

#[test]
fn a_film_of_one_link(rt: HostRuntime) -> Result<(), Fail> {
    let film = opened(&rt, rt.alloc(), &films::BASE)??;
    assert_eq!(rt; film.index().total(), 32);
    assert_eq!(rt; film.index().links(), 1);
    let counts = LinkCounts {
        serial: 1,
        pages: 3,
        packets: 5,
        lost: 0,
    };
    assert_eq!(rt; film.counts(0), counts);
    let setup = film.setup(rt.alloc(), 0)?;
    assert_eq!(rt; setup.long_flags(), [false].as_slice());
    assert_eq!(rt; setup.books().len(), 1);
    Ok(())
}

#[test]
fn a_chain(rt: HostRuntime) -> Result<(), Fail> {
    let film = opened(&rt, rt.alloc(), &films::CHAIN)??;
    assert_eq!(rt; film.index().total(), 128);
    assert_eq!(rt; film.blocks(), 6);
    for (block, link) in [(0, 0), (2, 0), (3, 1), (5, 1)] {
        assert_eq!(rt; film.block_link(block), link);
    }
    Ok(())
}

#[test]
fn a_refusal(rt: HostRuntime) -> Result<(), Fail> {
    let refused = opened(&rt, rt.alloc(), &films::FLOOR_OF_TYPE_0)?;
    let fault = FilmFault::Setup {
        link: 0,
        cause: SetupCause::FloorZero,
        item: 0,
    };
    assert_eq!(rt; refused.err(), Some(fault));
    Ok(())
}

/// What a row shows, the film, the value of the slopes, the number of a block, and its values at
/// the first 16 of 64 places; at the others they are less than zero by as much. They are asked for
/// in this order.
const BLOCKS: [(&str, &[&[u8]], u32, u32, i64); 8] = [
    ("a sound", &films::BASE, 1 << 23, 0, 262_144),
    ("under half a slope", &films::BASE, 1 << 22, 1, 131_072),
    (
        "over two pages, in the second link",
        &films::TWO_SETUPS,
        1 << 23,
        3,
        262_144,
    ),
    ("the first", &films::TWO_SETUPS, 1 << 23, 0, 262_144),
    ("the last", &films::TWO_SETUPS, 1 << 23, 4, 0),
    (
        "the last of the first link",
        &films::TWO_SETUPS,
        1 << 22,
        2,
        131_072,
    ),
    (
        "a silent one behind a packet that is skipped",
        &films::TWO_SETUPS,
        1 << 23,
        1,
        0,
    ),
    (
        "the same once more",
        &films::TWO_SETUPS,
        1 << 23,
        3,
        262_144,
    ),
];

#[test]
fn any_block_alone(rt: HostRuntime) -> Result<(), Fail> {
    for (name, parts, slope, number, value) in &BLOCKS {
        let reel = reel(&rt, rt.alloc(), parts, *slope)?;
        let Some(block) = block(rt.alloc(), &reel, *number)? else {
            return Err(*name)?;
        };
        assert_eq!(rt; block.key(), *number, "{name}");
        let values = values(rt.alloc(), &block)?;
        assert_eq!(rt; values.len(), 64, "{name}");
        for (place, found) in values.iter().enumerate() {
            let expected = if place < 16 {
                *value
            } else {
                value.wrapping_neg()
            };
            assert_eq!(rt; *found, expected, "{name}: place {place}");
        }
    }
    Ok(())
}

#[test]
fn a_block_of_halves(rt: HostRuntime) -> Result<(), Fail> {
    let left = HalfBlock::of(vec![in rt.alloc(); Sequence::of([1i64, 2].to_vec(rt.alloc())?)]?);
    let right = HalfBlock::of(vec![in rt.alloc(); Sequence::of([3i64, 4].to_vec(rt.alloc())?)]?);
    let block = Block::of(7, left, right);
    assert_eq!(rt; block.key(), 7);
    assert_eq!(rt;
        values(rt.alloc(), &block)?.as_slice(),
        [1i64, 2, 3, 4].as_slice()
    );
    Ok(())
}
