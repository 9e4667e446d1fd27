//! Which halves of a film's blocks a cursor fetches.

ghost use Rattle.std.specs.Prelude.{◌≡◌, ◌<◌, ◌^◌, IfOk, vec_len};
ghost use Rattle.script_playing.specs.Playing.{CanBePlayed};

use crate::films;
use cursor::{Blocks, Cursor, HalfBlock, Need};
use film_blocks::Half;
use script_playing::{Constants, Film, NoMemory, PlainBlocks, Reel};
use std::alloc::Global;
use std::marker::Brand;
use std::sync::ledger::{Blank, Ledger};
use std::test::Fail;
use test_common::{constants, joined};

/// The halves of a film's blocks, with a note of each that was fetched.
#[derive(Drop)]
struct Noted<'a, L: Ledger> {
    blocks: PlainBlocks<'a, L>,
    needs: Vec<Need>,
}

impl<L: Ledger> Blocks for Noted<'_, L> {
    ghost use Rattle.std.specs.Prelude.{length};
    ghost use Rattle.model_line.specs.PacketRows.{block_packets};
    ghost use Rattle.model_report.specs.FilmHalves.{film_halves};

    ghost count = { λ b. length (block_packets b.blocks.links) };

    ghost half_of = { λ b need. film_halves b.blocks.tables b.blocks.links need };

    ghost fetches = { λ b. b.blocks.fetches };

    fn fetch(&mut self, alloc: Global, need: Need) -> Result<HalfBlock, NoMemory> {
        let half = self.blocks.fetch(alloc, need)?;
        self.needs.push(need)?;
        Ok(half)
    }
}

/// The film of these bytes, with constants that are all 1.
fn reel_of(alloc: Global, bytes: Vec<u8>) -> Result<Reel, Fail>
    requires { vec_len bytes < 2 ^ 32 }
    ensures { IfOk result
        (λ reel. CanBePlayed reel.constants reel.film.links reel.film.index) }
{
    let film = Film::open(alloc, bytes)?;
    let numbers = constants(alloc, None)?;
    let constants = Constants::read(alloc, &numbers)?;
    Ok(Reel { film, constants })
}

/// What is fetched where one frame is read from a place on.
fn fetched<L: Ledger>(
    alloc: Global,
    blank: Blank,
    reel: &Reel,
    place: u64,
) -> Result<Vec<Need>, NoMemory>
    requires name { blank.name ≡ L.name }
    requires parts { blank.parts ≡ L.parts }
    requires some_parts { 0 < blank.parts }
    requires reel { CanBePlayed reel.now.constants reel.now.film.links reel.now.film.index }
{
    let index = reel.film.index();
    let mut blocks = Noted {
        blocks: PlainBlocks::<L>::new(reel, blank),
        needs: Vec::new(alloc),
    };
    let mut cursor = Cursor::start();
    let _sought = cursor.seek(index, place);
    let _reply = cursor.read(alloc, index, &reel.constants, &mut blocks, 1)?;
    Ok(blocks.needs)
}

#[test]
fn one_frame_fetches_two_halves(rt: HostRuntime) -> Result<(), Fail> {
    let bytes = joined(rt.alloc(), &films::FOUR_BLOCKS)?;
    assert!(rt; bytes.len() < 1 << 32);
    let reel = reel_of(rt.alloc(), bytes)?;
    let needs = fetched::<Brand>(rt.alloc(), Blank::new(1), &reel, 40)?;
    let right = Need {
        block: 1,
        half: Half::Right,
    };
    let left = Need {
        block: 2,
        half: Half::Left,
    };
    assert_eq!(rt; needs.as_slice(), [right, left].as_slice());
    Ok(())
}
