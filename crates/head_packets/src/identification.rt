ghost use Rattle.std.specs.Prelude.{◌≡◌, ◌≤◌, ◌<◌, ◌^◌, ◌&&◌, nat_le, IfOk};
ghost use Rattle.std.specs.Bool.{OnTrue};
ghost use Rattle.model_bits.specs.Reading.{leaving};
ghost use Rattle.model_setup.specs.HeaderPackets.{ident_of, ident_at, ident_field, format_at, bitrates_at, blocks_at, ident_framing_at, may_be_blocks, IsBlockSize, IsPlayable};

use crate::start::header_body;
use bit_reader::Bits;
use model_setup::{IdentCause, IdentFields};

/// The type of an identification packet.
const IDENTIFICATION: u8 = 1;

/// The fields of an identification packet, or the first cause in the order of its fields why it is
/// none (Vorbis I, section 4.2.2). What follows its framing bit is ignored.
#[tactic(auto, unfolding(model_setup::specs::HeaderPackets::ident_at))]
pub fn ident(bytes: &[u8]) -> Result<IdentFields, IdentCause>
    ensures exact { result ≡ ident_of bytes.now }
    ensures accepted { IfOk result IsPlayable }
{
    let body = header_body(IDENTIFICATION, bytes)?;
    let mut bits = Bits::new(body);
    let (channels, rate) = read_format(&mut bits)?;
    read_bitrates(&mut bits)?;
    let (short, long) = read_blocks(&mut bits)?;
    read_framing(&mut bits)?;
    Ok(IdentFields {
        channels,
        rate,
        short,
        long,
    })
}

/// The next field.
fn read(bits: &mut Bits, count: u32) -> Result<u32, IdentCause>
    requires { count ≤ 32 }
    ensures field { ident_field count bits.old.left ≡ leaving bits.new.left (λ n. n) result }
    ensures bytes { bits.new.total ≡ bits.old.total }
    ensures below { IfOk result (λ n. n < 2 ^ count) }
{
    bits.take(count).ok_or(IdentCause::End)
}

/// The number of channels and the rate, behind the version.
#[tactic(auto, unfolding(model_setup::specs::HeaderPackets::format_at))]
fn read_format(bits: &mut Bits) -> Result<(u8, u32), IdentCause>
    ensures read { format_at bits.old.left ≡ leaving bits.new.left (λ format. format) result }
    ensures bytes { bits.new.total ≡ bits.old.total }
    ensures some { IfOk result (λ format. (0 < format.0) × (0 < format.1)) }
{
    if read(bits, 32)? != 0 {
        return Err(IdentCause::Version);
    }
    let channels = read(bits, 8)?;
    if channels == 0 {
        return Err(IdentCause::Channels);
    }
    let rate = read(bits, 32)?;
    if rate == 0 {
        return Err(IdentCause::Rate);
    }
    Ok((channels as u8, rate))
}

/// The three bitrates, of which nothing is kept.
#[tactic(auto, unfolding(model_setup::specs::HeaderPackets::bitrates_at))]
fn read_bitrates(bits: &mut Bits) -> Result<(), IdentCause>
    ensures read { bitrates_at bits.old.left ≡ leaving bits.new.left (λ _. 0) result }
    ensures bytes { bits.new.total ≡ bits.old.total }
{
    read(bits, 32)?;
    read(bits, 32)?;
    read(bits, 32)?;
    Ok(())
}

/// The sizes of a short and of a long block.
#[tactic(auto, unfolding(model_setup::specs::HeaderPackets::blocks_at))]
fn read_blocks(bits: &mut Bits) -> Result<(u32, u32), IdentCause>
    ensures read { blocks_at bits.old.left ≡ leaving bits.new.left (λ sizes. sizes) result }
    ensures bytes { bits.new.total ≡ bits.old.total }
    ensures sizes { IfOk result (λ sizes. IsBlockSize sizes.0 × IsBlockSize sizes.1
        × (sizes.0 ≤ sizes.1)) }
{
    let short = read(bits, 4)?;
    let long = read(bits, 4)?;
    if !are_blocks(short, long) {
        return Err(IdentCause::Blocks);
    }
    Ok((size(short), size(long)))
}

/// Whether blocks of two to these powers may be the short and the long ones of a stream.
fn are_blocks(short: u32, long: u32) -> bool
    ensures test { result ≡ may_be_blocks short long }
    ensures range { OnTrue result ((6 ≤ short) × (short ≤ long) × (long ≤ 13)) }
{
    6 <= short && short <= long && long <= 13
}

/// Two to this power.
fn size(exponent: u32) -> u32
    requires { exponent < 32 }
    ensures { result ≡ 2 ^ exponent }
{
    1 << exponent
}

/// The framing bit, which must be set.
#[tactic(auto, unfolding(model_setup::specs::HeaderPackets::ident_framing_at))]
fn read_framing(bits: &mut Bits) -> Result<(), IdentCause>
    ensures read { ident_framing_at bits.old.left ≡ leaving bits.new.left (λ _. 0) result }
    ensures bytes { bits.new.total ≡ bits.old.total }
{
    if read(bits, 1)? != 1 {
        return Err(IdentCause::Framing);
    }
    Ok(())
}
