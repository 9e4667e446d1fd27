ghost use Rattle.std.specs.Prelude.{◌≡◌, ◌<◌, ℕ, length, IfOk};
ghost use Rattle.model_line.specs.Blocks.{left_half, right_half};
ghost use Rattle.model_line.specs.PacketRows.{link_block_packets};
ghost use Rattle.block_decoding.specs.Shapes.{IsHalved};
ghost use Rattle.film_blocks.specs.Held.{link_in, IsHeld};
ghost use Rattle.film_blocks.specs.KeyedBlocks.{link_block};

use crate::held::HeldLink;
use block_decoding::{HalvedBlock, decode};
use constants_file::Constants;
use memory::NoMemory;
use setup_header::Setup;
use std::alloc::Global;

/// Decodes the block of this number among those of a link, by the link's setup.
pub fn decode_in_link(
    alloc: Global,
    constants: &Constants,
    setup: &Setup,
    bytes: &[u8],
    link: &HeldLink,
    number: u32,
) -> Result<HalvedBlock, NoMemory>
    requires held { IsHeld bytes.now link.now }
    requires setup { (link_in bytes.now link.now).setup ≡ setup.now }
    requires there { number < length (link_block_packets 0 (link_in bytes.now link.now)) }
    ensures left { (i : ℕ) → IfOk result (λ block. block.left ≡ left_half
        (link_block constants.now i (link_in bytes.now link.now) number)) }
    ensures right { (i : ℕ) → IfOk result (λ block. block.right ≡ right_half
        (link_block constants.now i (link_in bytes.now link.now) number)) }
    ensures halves { IfOk result (IsHalved link.now.channels) }
{
    let place = link.blocks[number as usize];
    let entry = &link.entries[place as usize];
    let Some(packet) = entry.bytes(alloc, bytes)? else {
        unreachable!()
    };
    decode(alloc, constants, setup, link.sizes, packet.as_slice())
}
