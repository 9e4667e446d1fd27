ghost use Rattle.std.specs.Prelude.{◌≡◌, ◌+◌, ◌≤◌, ◌<◌, length, IfOk};
ghost use Rattle.std.specs.List.{All};
ghost use Rattle.model_trial.specs.Draws.{draw, draws};
ghost use Rattle.model_trial.specs.MadeFilm.{drawn_body, headed, next_mode, with_head, drawn_link};
ghost use Rattle.film_maker.specs.Drawn.{drawn_packet, drawn_packets, made_link_of, drawn_link_of, IsShort, IsWhole};

use crate::draws::Draws;
use crate::links::MadeLink;
use memory::{NoMemory, Sequence};
use model_trial::MADE_PACKETS;
use std::alloc::Global;

/// A link of a made film, with what is drawn for it.
#[derive(Drop)]
pub struct DrawnLink<'a> {
    /// The link.
    pub link: &'a MadeLink,
    /// The mode of each of its packets, 0 or 1.
    pub modes: Vec<u8>,
    /// Its packets, in order.
    pub packets: Vec<Sequence<u8>>,
}

/// Draws so many numbers below a bound.
fn draw_bytes(
    alloc: Global,
    numbers: &mut Draws,
    count: u32,
    bound: u32,
) -> Result<Vec<u8>, NoMemory>
    requires some { 0 < bound }
    requires small { bound ≤ 256 }
    ensures drawn { IfOk result (λ bytes.
        (bytes.items, numbers.new) ≡ draws count (draw bound) numbers.old) }
    ensures count { IfOk result (λ bytes. length bytes.items ≡ count) }
    ensures below { IfOk result (λ bytes. All (λ byte. byte < bound) bytes.items) }
{
    let mut bytes = Vec::with_capacity(alloc, count as usize)?;
    for _ in 0..count {
        bytes.push(numbers.draw(bound) as u8)?;
    }
    Ok(bytes)
}

/// Draws the bytes of a packet, before its head is put into the first.
#[tactic(auto, unfolding(model_trial::specs::MadeFilm::drawn_body))]
fn draw_body(alloc: Global, numbers: &mut Draws) -> Result<Vec<u8>, NoMemory>
    ensures drawn { IfOk result (λ bytes. (bytes.items, numbers.new) ≡ drawn_body numbers.old) }
    ensures least { IfOk result (λ bytes. 4 ≤ length bytes.items) }
    ensures most { IfOk result (λ bytes. length bytes.items < 64) }
{
    let more = numbers.draw(60);
    draw_bytes(alloc, numbers, 4 + more, 256)
}

/// The first byte of a packet of a mode between packets of two modes, with the packet's head in its
/// lowest bits (Vorbis I, section 4.3.1). The other bits stay.
#[tactic(auto, unfolding(model_trial::specs::MadeFilm::headed))]
fn headed(before: u8, mode: u8, after: u8, byte: u8) -> u8
    requires before { before < 2 }
    requires after { after < 2 }
    ensures { result ≡ headed before mode after byte }
{
    if mode == 0 {
        byte / 4 * 4
    } else {
        byte / 16 * 16 + (2 + 4 * before + 8 * after)
    }
}

/// Puts the head of a packet of a mode between packets of two modes into its first byte.
fn put_head(before: u8, mode: u8, after: u8, packet: &mut [u8])
    requires before { before < 2 }
    requires after { after < 2 }
    requires some { 0 < length packet.old }
    ensures { packet.new ≡ with_head before mode after packet.old }
{
    packet[0] = headed(before, mode, after, packet[0]);
}

/// The mode of the next packet, and that of a long block where there is none.
fn next_mode(modes: &[u8]) -> u8
    ensures { result ≡ next_mode modes.now }
{
    modes.first().copied().unwrap_or(1)
}

/// Draws a packet of a mode between packets of two modes.
fn draw_packet(
    alloc: Global,
    numbers: &mut Draws,
    before: u8,
    mode: u8,
    after: u8,
) -> Result<Sequence<u8>, NoMemory>
    requires before { before < 2 }
    requires after { after < 2 }
    ensures drawn { IfOk result (λ packet.
        (packet, numbers.new) ≡ drawn_packet before mode after numbers.old) }
    ensures short { IfOk result IsShort }
{
    let mut bytes = draw_body(alloc, numbers)?;
    put_head(before, mode, after, &mut bytes);
    Ok(Sequence::of(bytes))
}

/// Draws packets of these modes.
fn draw_packets(
    alloc: Global,
    numbers: &mut Draws,
    modes: &[u8],
) -> Result<Vec<Sequence<u8>>, NoMemory>
    requires { All (λ mode. mode < 2) modes.now }
    ensures drawn { IfOk result (λ packets.
        (packets.items, numbers.new) ≡ drawn_packets 1 modes.now numbers.old) }
    ensures count { IfOk result (λ packets. length packets.items ≡ length modes.now) }
    ensures short { IfOk result (λ packets. All IsShort packets.items) }
{
    let mut packets = Vec::with_capacity(alloc, modes.len())?;
    let mut before = 1;
    let mut rest = modes;
    while let Some((mode, behind)) = rest.split_first() {
        let packet = draw_packet(alloc, numbers, before, *mode, next_mode(behind))?;
        packets.push(packet)?;
        before = *mode;
        rest = behind;
    }
    Ok(packets)
}

/// Draws what a link needs: first all modes, and then the packets.
pub fn draw_link<'a>(
    alloc: Global,
    numbers: &mut Draws,
    link: &'a MadeLink,
) -> Result<DrawnLink<'a>, NoMemory>
    ensures drawn { IfOk result (λ drawn.
        (drawn_link_of drawn, numbers.new) ≡ drawn_link (made_link_of link.now) numbers.old) }
    ensures link { IfOk result (λ drawn. drawn.link.now ≡ link.now) }
    ensures whole { IfOk result IsWhole }
{
    let modes = draw_bytes(alloc, numbers, MADE_PACKETS as u32, 2)?;
    let packets = draw_packets(alloc, numbers, &modes)?;
    Ok(DrawnLink {
        link,
        modes,
        packets,
    })
}
