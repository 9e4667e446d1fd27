ghost use Rattle.std.specs.Prelude.{◌≡◌, IfOk};
ghost use Rattle.film_blocks.specs.KeyedBlocks.{half_of};

use lap_window::HalfBlock;
use memory::{NoMemory, Sequence};
use model_line::Half;
use std::alloc::Global;
use std::marker::Model;

/// A block of a film in its halves, and the key by which it is known: its number among all blocks
/// of the film. Each half has the values of all channels, in units of 2^-20.
#[derive(Drop)]
pub struct Block {
    key: u32,
    left: HalfBlock,
    right: HalfBlock,
}

impl Model for Block {
    ghost use Rattle.film_blocks.specs.KeyedBlocks.{KeyedBlock};

    ghost Value = { KeyedBlock };

    ghost view = { λ b. record { key = b.key; left = b.left; right = b.right } };
}

/// The same half once more.
fn copied(alloc: Global, half: &HalfBlock) -> Result<HalfBlock, NoMemory>
    ensures { IfOk result (λ copy. copy ≡ half.now) }
{
    let channels = half.items();
    let mut copy = Vec::with_capacity(alloc, channels.len())?;
    for channel in channels {
        copy.push(Sequence::of(channel.items().to_vec(alloc)?))?;
    }
    Ok(HalfBlock::of(copy))
}

impl Block {
    /// The block of this key with these halves. It takes no memory.
    pub fn of(key: u32, left: HalfBlock, right: HalfBlock) -> Block
        ensures { result ≡ record { key = key; left = left; right = right } }
    {
        Block { key, left, right }
    }

    /// The number of the block among all blocks of its film.
    pub fn key(&self) -> u32
        ensures { result ≡ self.now.key }
    {
        self.key
    }

    /// A half, where it stands.
    fn side(&self, half: Half) -> &HalfBlock
        ensures { result.now ≡ half_of half self.now }
    {
        match half {
            Half::Left => &self.left,
            Half::Right => &self.right,
        }
    }

    /// A half of the block, as a copy that outlives it.
    ///
    /// # Errors
    ///
    /// Only where no memory was found.
    pub fn half(&self, alloc: Global, half: Half) -> Result<HalfBlock, NoMemory>
        ensures { IfOk result (λ copy. copy ≡ half_of half self.now) }
    {
        copied(alloc, self.side(half))
    }
}
