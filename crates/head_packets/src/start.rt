ghost use Rattle.std.specs.Prelude.{◌≡◌, Ok, Err, MatchResult};
ghost use Rattle.model_bits.specs.Bits.{bits_of};
ghost use Rattle.model_setup.specs.HeaderPackets.{bytes_at, start_at};

use model_setup::StartCause;

/// What stands behind the start of a header packet of this type (Vorbis I, section 4.2.1).
pub fn header_body(packet_type: u8, bytes: &[u8]) -> Result<&[u8], StartCause>
    ensures { MatchResult result
        (λ body. start_at packet_type (bits_of bytes.now) ≡ Ok (0, bits_of body.now))
        (λ cause. start_at packet_type (bits_of bytes.now) ≡ Err cause) }
{
    let start = [packet_type, b'v', b'o', b'r', b'b', b'i', b's'];
    let body = after_bytes(&start, bytes)?;
    Ok(body)
}

/// What stands behind bytes that must be these.
fn after_bytes<'a>(wanted: &[u8], bytes: &'a [u8]) -> Result<&'a [u8], StartCause>
    ensures { MatchResult result
        (λ rest. bytes_at wanted.now (bits_of bytes.now) ≡ Ok (0, bits_of rest.now))
        (λ cause. bytes_at wanted.now (bits_of bytes.now) ≡ Err cause) }
{
    let mut rest = bytes;
    for byte in wanted {
        let Some((first, others)) = rest.split_first() else {
            return Err(StartCause::End);
        };
        if first != byte {
            return Err(StartCause::Kind);
        }
        rest = others;
    }
    Ok(rest)
}
