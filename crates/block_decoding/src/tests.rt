mod rows;

ghost use Rattle.block_decoding.specs.Setups.{IsOfLink};

use super::*;
use constants_file::Constants;
use model_synthesis::{CONSTANTS_WORD, COSINE_COUNT, DECIBEL_COUNT, SLOPE_COUNT};
use rows::ROWS;
use setup_header::{PacketHead, Setup, head};
use std::alloc::Global;
use std::test::Fail;

/// A packet, by which it is decoded, and values of its block, each with its channel and place. The
/// slopes of the constants begin at a number, and each is a step below the one before.
struct Row {
    name: &'static str,
    setup: &'static [u8],
    channels: u8,
    packet: &'static [u8],
    slope: u32,
    step: u32,
    values: [(usize, usize, i64); 6],
}

const SIZES: BlockSizes = BlockSizes {
    short: 64,
    long: 256,
};

/// Constants of which the decibel values and the cosines begin at 1, and the slopes at this number.
/// Each is a step below the one before, and a decibel value a thousand steps.
fn constants(alloc: Global, slope: u32, step: u32) -> Result<Constants, Fail> {
    let mut bytes = CONSTANTS_WORD.to_vec(alloc)?;
    for (count, first, step) in [
        (DECIBEL_COUNT, 1 << 30, step.wrapping_mul(1000)),
        (SLOPE_COUNT, slope, step),
        (COSINE_COUNT, 1 << 23, step),
    ] {
        let mut number: u32 = first;
        for _ in 0..count {
            bytes.extend_from_slice(&number.to_le_bytes())?;
            number = number.wrapping_sub(step);
        }
    }
    Ok(Constants::read(alloc, &bytes)?)
}

/// The block of a packet.
fn block_of(
    alloc: Global,
    constants: &Constants,
    setup: &Setup,
    packet: &[u8],
) -> Result<HalvedBlock, Fail>
    requires { IsOfLink setup.now }
{
    let PacketHead::Block { .. } = head(setup.long_flags(), packet) else {
        return Err("no block")?;
    };
    Ok(decode(alloc, constants, setup, SIZES, packet)?)
}

/// The value at a place of a channel of a block.
fn value_at(block: &HalvedBlock, channel: usize, place: usize) -> Option<i64> {
    let left = block.left.items().get(channel)?.items();
    let right = block.right.items().get(channel)?.items();
    left.iter().chain(right).nth(place).copied()
}

#[test]
fn blocks_of_packets(rt: HostRuntime) -> Result<(), Fail> {
    for row in &ROWS {
        assert!(rt; 1 <= row.channels && row.channels <= 8);
        let setup = Setup::read(rt.alloc(), row.channels, row.setup)?;
        let constants = constants(rt.alloc(), row.slope, row.step)?;
        let block = block_of(rt.alloc(), &constants, &setup, row.packet)?;
        for (channel, place, value) in row.values {
            let found = value_at(&block, channel, place);
            assert_eq!(rt;
                found,
                Some(value),
                "{}: channel {channel}, place {place}",
                row.name
            );
        }
    }
    Ok(())
}
