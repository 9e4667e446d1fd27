ghost use Rattle.std.specs.Prelude.{◌≡◌, Ok, Err, List, ℕ, drop, IfOk, MatchResult};
ghost use Rattle.model_bits.specs.Bits.{bits_of};
ghost use Rattle.model_bits.specs.Reading.{times, without_rest};
ghost use Rattle.model_setup.specs.HeaderPackets.{comment_of, comment_at, comment_field, text_at, comment_framing_at};

use crate::start::header_body;
use bit_reader::Bits;
use byteorder::{ByteOrder, LittleEndian};
use model_setup::CommentCause;

/// The type of a comment packet.
const COMMENT: u8 = 3;

/// How many texts a comment packet has, or the first cause in the order of its fields why it is
/// none (Vorbis I, section 5.2.1). The vendor's text isn't counted, no text is read, and what
/// follows the framing bit is ignored.
#[tactic(auto, unfolding(model_setup::specs::HeaderPackets::comment_at))]
pub fn comment(bytes: &[u8]) -> Result<u32, CommentCause>
    ensures { result ≡ comment_of bytes.now }
{
    let body = header_body(COMMENT, bytes)?;
    let (_vendor, list) = split_text(body)?;
    let (count, texts) = split_number(list)?;
    let rest = behind_texts(count, texts)?;
    check_framing(rest)?;
    Ok(count)
}

/// A number of 32 bits, and what stands behind it.
fn split_number(bytes: &[u8]) -> Result<(u32, &[u8]), CommentCause>
    ensures number { MatchResult result
        (λ split. comment_field 32 (bits_of bytes.now) ≡ Ok (split.0, bits_of split.1.now))
        (λ cause. comment_field 32 (bits_of bytes.now) ≡ Err cause) }
    ensures rest { IfOk result (λ split. split.1.now ≡ drop 4 bytes.now) }
{
    if bytes.len() < 4 {
        return Err(CommentCause::End);
    }
    Ok((LittleEndian::read_u32(bytes), &bytes[4..]))
}

/// A text behind its length, and what stands behind it.
#[tactic(auto, unfolding(model_setup::specs::HeaderPackets::text_at))]
fn split_text(bytes: &[u8]) -> Result<(&[u8], &[u8]), CommentCause>
    ensures { MatchResult result
        (λ split. text_at (bits_of bytes.now) ≡ Ok (split.0.now, bits_of split.1.now))
        (λ cause. text_at (bits_of bytes.now) ≡ Err cause) }
{
    let (size, rest) = split_number(bytes)?;
    let size = size as usize;
    if rest.len() < size {
        return Err(CommentCause::End);
    }
    Ok((&rest[..size], &rest[size..]))
}

/// What stands behind so many texts.
fn behind_texts(count: u32, bytes: &[u8]) -> Result<&[u8], CommentCause>
    ensures { MatchResult result
        (λ rest. (texts : List (List ℕ))
        × (times count text_at (bits_of bytes.now) ≡ Ok (texts, bits_of rest.now)))
        (λ cause. times count text_at (bits_of bytes.now) ≡ Err cause) }
{
    let mut rest = bytes;
    for _ in 0..count {
        let (_text, others) = split_text(rest)?;
        rest = others;
    }
    Ok(rest)
}

/// The framing bit, which must be set.
#[tactic(auto, unfolding(model_setup::specs::HeaderPackets::comment_framing_at))]
fn check_framing(bytes: &[u8]) -> Result<(), CommentCause>
    ensures { MatchResult result
        (λ _. without_rest (comment_framing_at (bits_of bytes.now)) ≡ Ok 0)
        (λ cause. without_rest (comment_framing_at (bits_of bytes.now)) ≡ Err cause) }
{
    match Bits::new(bytes).take(1) {
        None => Err(CommentCause::End),
        Some(1) => Ok(()),
        Some(_) => Err(CommentCause::Framing),
    }
}
