ghost use Rattle.std.specs.Prelude.{◌≡◌, ℕ, ◌<◌, ◌/◌, length, IfOk, IfSome};
ghost use Rattle.std.specs.List.{All};
ghost use Rattle.model_setup.specs.FloorSetup.{FloorNamesBooks};
ghost use Rattle.model_setup.specs.ResidueSetup.{FitsBooks};
ghost use Rattle.model_setup.specs.SetupPacket.{IsMapping, IsSetup};
ghost use Rattle.model_setup.specs.AudioHead.{head_of};
ghost use Rattle.model_synthesis.specs.Coupling.{AreChannels};
ghost use Rattle.model_line.specs.Blocks.{left_half, right_half};
ghost use Rattle.model_line.specs.Origins.{size_of};
ghost use Rattle.model_line.specs.PacketRows.{block_flags};
ghost use Rattle.model_block.specs.PacketBlocks.{packet_parts, block_by_mode, packet_block};
ghost use Rattle.block_decoding.specs.Setups.{IsOfLink, AreSizes, IsBlockHead};
ghost use Rattle.block_decoding.specs.Shapes.{IsHalved};

pub use crate::channels::HalvedBlock;
use crate::channels::{Shape, synthesize};
use crate::curves::{Curve, read_curves};
use crate::head::{BlockHead, read_head};
use crate::submap_residues::read_residues;
use crate::wanted::wanted_channels;
use bit_reader::Bits;
use constants_file::Constants;
use fixed_synthesis::uncouple_all;
use memory::NoMemory;
use model_block::BlockSizes;
use residues::Line;
use setup_header::{Mapping, Setup};
use std::alloc::Global;

/// What is read of a packet behind its head: the curves of its channels, and their residues, which
/// are not coupled any more.
#[derive(Drop)]
struct Parts {
    curves: Vec<Option<Curve>>,
    residues: Vec<Line>,
}

/// Reads the parts of a packet behind its head, over so many bins (Vorbis I, sections 4.3.2 to
/// 4.3.5).
fn read_parts(
    alloc: Global,
    bits: &mut Bits,
    setup: &Setup,
    mapping: &Mapping,
    size: usize,
) -> Result<Parts, NoMemory>
    requires floors { All (FloorNamesBooks (length setup.now.books)) setup.now.floors }
    requires residues { All (FitsBooks setup.now.books) setup.now.residues }
    requires mapping { IsMapping (length mapping.now.mux) (length setup.now.floors)
        (length setup.now.residues) mapping.now }
    ensures read { IfOk result (λ parts. (parts.residues.items, parts.curves.items)
        ≡ packet_parts setup.now mapping.now size bits.old.left) }
    ensures residues { IfOk result (λ parts. AreChannels size parts.residues.items) }
    ensures count { IfOk result (λ parts. length parts.residues.items
        ≡ length parts.curves.items) }
    ensures channels { IfOk result (λ parts. length parts.curves.items
        ≡ length mapping.now.mux) }
    ensures curves { IfOk result (λ parts.
        All (λ curve. IfSome curve (λ bins. length bins ≡ size)) parts.curves.items) }
{
    let curves = read_curves(alloc, bits, setup, mapping, size)?;
    let steps = mapping.couplings();
    let wanted = wanted_channels(alloc, steps, &curves)?;
    let mut residues = read_residues(alloc, bits, setup, mapping, &wanted, size)?;
    uncouple_all(steps, &mut residues);
    Ok(Parts { curves, residues })
}

/// How many bins a block has: half as many as values.
fn bin_count(sizes: BlockSizes, long: bool) -> usize
    ensures { result ≡ size_of sizes.short sizes.long long / 2 }
{
    let size = if long { sizes.long } else { sizes.short };
    (size / 2) as usize
}

/// Decodes what stands behind the head of the packet of a block (Vorbis I, sections 4.3.2 to
/// 4.3.7).
fn decode_parts(
    alloc: Global,
    constants: &Constants,
    setup: &Setup,
    sizes: BlockSizes,
    head: BlockHead,
    bits: &mut Bits,
) -> Result<HalvedBlock, NoMemory>
    requires setup { IsOfLink setup.now }
    requires sizes { AreSizes sizes }
    requires mode { head.mode < length setup.now.modes }
    ensures left { IfOk result (λ block. block.left ≡ left_half (block_by_mode constants.now sizes
        setup.now head.mode head.previous head.next bits.old.left)) }
    ensures right { IfOk result (λ block. block.right ≡ right_half (block_by_mode constants.now
        sizes setup.now head.mode head.previous head.next bits.old.left)) }
    ensures halves { IfOk result (λ block.
        (channels : ℕ) → IsSetup channels setup.now → IsHalved channels block) }
{
    let long = setup.long_flags()[usize::from(head.mode)];
    let size = bin_count(sizes, long);
    let parts = read_parts(alloc, bits, setup, setup.mapping(head.mode), size)?;
    let shape = Shape {
        short: sizes.short,
        long,
        previous: head.previous,
        next: head.next,
    };
    synthesize(
        alloc,
        constants,
        shape,
        &parts.residues,
        &parts.curves,
        size,
    )
}

/// Decodes the packet of a block by the setup of its link and the sizes of its link's blocks: both
/// halves of the block, in units of 2^-20 (Vorbis I, section 4.3). It needs nothing of the blocks
/// before it.
///
/// # Errors
///
/// Only where no memory was found.
pub fn decode(
    alloc: Global,
    constants: &Constants,
    setup: &Setup,
    sizes: BlockSizes,
    packet: &[u8],
) -> Result<HalvedBlock, NoMemory>
    requires setup { IsOfLink setup.now }
    requires sizes { AreSizes sizes }
    requires block { IsBlockHead (head_of (block_flags setup.now) packet.now) }
    ensures left { IfOk result (λ block. block.left
        ≡ left_half (packet_block constants.now sizes setup.now packet.now)) }
    ensures right { IfOk result (λ block. block.right
        ≡ right_half (packet_block constants.now sizes setup.now packet.now)) }
    ensures halves { IfOk result (λ block.
        (channels : ℕ) → IsSetup channels setup.now → IsHalved channels block) }
{
    let mut bits = Bits::new(packet);
    let head = read_head(&mut bits, setup.long_flags());
    decode_parts(alloc, constants, setup, sizes, head, &mut bits)
}
