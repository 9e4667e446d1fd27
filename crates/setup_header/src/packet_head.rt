ghost use Rattle.std.specs.Prelude.{◌≡◌, ◌≤◌, ◌<◌, [], length, Ok, Err, IfNone, MatchOption};
ghost use Rattle.model_setup.specs.AudioHead.{window_flags_at, block_head_at, head_of};

use bit_reader::Bits;
use model_setup::PacketHead;

/// The window flags of a block, which only a long one has, or `None` at the end of the packet.
#[tactic(auto, unfolding(model_setup::specs::AudioHead::window_flags_at))]
fn window_flags(bits: &mut Bits, long: bool) -> Option<(bool, bool)>
    ensures read { MatchOption result (window_flags_at long bits.old.left ≡ Err tt)
        (λ flags. window_flags_at long bits.old.left ≡ Ok (flags, bits.new.left)) }
    ensures finished { IfNone result (bits.new.left ≡ []) }
    ensures bytes { bits.new.total ≡ bits.old.total }
{
    if !long {
        return Some((false, false));
    }
    let prev = bits.take(1)?;
    let next = bits.take(1)?;
    Some((prev == 1, next == 1))
}

/// The mode and the window flags of a block, which stand behind the first bit of its packet, or
/// `None` where there is no such mode or the packet ends; all bits are used up then (Vorbis I,
/// section 4.3.1).
#[tactic(auto, unfolding(model_setup::specs::AudioHead::block_head_at))]
#[inline(always)]
pub fn block_head(bits: &mut Bits, long_flags: &[bool]) -> Option<PacketHead>
    requires some { 1 ≤ length long_flags.now }
    requires few { length long_flags.now ≤ 64 }
    ensures read { MatchOption result (block_head_at long_flags.now bits.old.left ≡ Err tt)
        (λ head. block_head_at long_flags.now bits.old.left ≡ Ok (head, bits.new.left)) }
    ensures finished { IfNone result (bits.new.left ≡ []) }
    ensures bytes { bits.new.total ≡ bits.old.total }
{
    let last_mode = long_flags.len() as u32 - 1;
    let width = u32::BITS - last_mode.leading_zeros();
    let mode = bits.take(width)?;
    let Some(long) = long_flags.get(mode as usize) else {
        bits.finish();
        return None;
    };
    let (prev, next) = window_flags(bits, *long)?;
    Some(PacketHead::Block {
        mode: mode as u8,
        prev,
        next,
    })
}

/// What the head of a packet says, in a stream whose modes have these block flags, 1 to 64
/// (Vorbis I, section 4.3.1).
#[tactic(auto, unfolding(model_setup::specs::AudioHead::head_of))]
pub fn head(long_flags: &[bool], bytes: &[u8]) -> PacketHead
    requires some { 1 ≤ length long_flags.now }
    requires few { length long_flags.now ≤ 64 }
    ensures { result ≡ head_of long_flags.now bytes.now }
{
    let mut bits = Bits::new(bytes);
    if bits.take(1) != Some(0) {
        return PacketHead::Skip;
    }
    block_head(&mut bits, long_flags).unwrap_or(PacketHead::Bad)
}
