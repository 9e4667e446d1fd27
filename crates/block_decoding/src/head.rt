ghost use Rattle.std.specs.Prelude.{◌≡◌, ◌≤◌, ◌<◌, length, drop, Ok};
ghost use Rattle.model_bits.specs.Bits.{take_bits};
ghost use Rattle.model_setup.specs.declared.setup.PacketHead.TheVariants.{Block};
ghost use Rattle.model_setup.specs.AudioHead.{block_head_at, head_by_kind};
ghost use Rattle.block_decoding.specs.Setups.{IsBlockHead};

use bit_reader::Bits;
use setup_header::{PacketHead, block_head};

/// What the head of the packet of a block says: the number of its mode, and its window flags, which
/// of a short block are false.
#[derive(Clone, Copy)]
pub struct BlockHead {
    pub mode: u8,
    pub previous: bool,
    pub next: bool,
}

/// Reads the head of the packet of a block, in a stream whose modes have these block flags (Vorbis
/// I, section 4.3.1).
pub fn read_head(bits: &mut Bits, long_flags: &[bool]) -> BlockHead
    requires some { 1 ≤ length long_flags.now }
    requires few { length long_flags.now ≤ 64 }
    requires block { IsBlockHead (head_by_kind long_flags.now (take_bits 1 bits.old.left)) }
    ensures read { block_head_at long_flags.now (drop 1 bits.old.left)
        ≡ Ok (Block result.mode result.previous result.next, bits.new.left) }
    ensures there { result.mode < length long_flags.now }
{
    let _kind = bits.take(1);
    let Some(PacketHead::Block { mode, prev, next }) = block_head(bits, long_flags) else {
        unreachable!()
    };
    BlockHead {
        mode,
        previous: prev,
        next,
    }
}
