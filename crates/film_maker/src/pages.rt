ghost use Rattle.std.specs.Prelude.{◌≡◌, ◌+◌, ◌*◌, ◌/◌, ◌%◌, ◌^◌, ◌≤◌, ◌<◌, [], ◌∷◌, ◌++◌, length, replicate, OnOk};
ghost use Rattle.std.specs.List.{flat_map};
ghost use Rattle.model_ogg.specs.Writing.{written_page, written_pages};
ghost use Rattle.model_synthesis.specs.Overlaps.{overlap_len};
ghost use Rattle.model_trial.specs.MadeFilm.{packet_laces, block_size, frames_between, granule_at, sequence_at, audio_page};
ghost use Rattle.film_maker.specs.Drawn.{drawn_link_of, made_link_of, IsWhole};
ghost use Rattle.film_maker.specs.Pages.{packet_page, audio_front, pages_of_audio};

use crate::drawn::DrawnLink;
use crate::links::MadeLink;
use memory::{NoMemory, Sequence};
use model_trial::{MADE_LONG, MADE_PACKETS, MADE_SHORT, PACKETS_ON_PAGE};
use ogg_pages::{PageOut, page_bytes};
use std::alloc::Global;

/// How many audio pages a link has.
const AUDIO_PAGES: usize = MADE_PACKETS / PACKETS_ON_PAGE;

/// What stands in front of a page's packets (RFC 3533, section 6).
#[derive(Drop)]
pub struct PageFront {
    /// Its header type: 2 it is its stream's first, 4 it is its stream's last.
    pub flags: u8,
    /// Its granule position, in frames.
    pub granule: u64,
    /// The number of its stream.
    pub serial: u32,
    /// Its number in its stream.
    pub sequence: u32,
}

/// Writes the lacing values of a packet of so many bytes (RFC 3533, section 5).
fn put_laces(laces: &mut Vec<u8>, size: usize) -> Result<(), NoMemory>
    ensures { OnOk result
        (laces.new.items ≡ laces.old.items ++ (replicate (size / 255) 255 ++ size % 255 ∷ [])) }
{
    for _ in 0..size / 255 {
        laces.push(255)?;
    }
    laces.push((size % 255) as u8)?;
    Ok(())
}

/// Writes a page with whole packets.
pub fn put_page(
    alloc: Global,
    film: &mut Vec<u8>,
    front: &PageFront,
    packets: &[Sequence<u8>],
) -> Result<(), NoMemory>
    requires laces { length (flat_map packet_laces packets.now) ≤ 255 }
    requires granule { front.now.granule < 2 ^ 63 }
    ensures { OnOk result (film.new.items
        ≡ film.old.items ++ written_page (packet_page front.now packets.now)) }
{
    let mut laces = Vec::new(alloc);
    let mut body = Vec::new(alloc);
    for packet in packets {
        put_laces(&mut laces, packet.items().len())?;
        body.extend_from_slice(packet.items())?;
    }
    let page = PageOut {
        flags: front.flags,
        granule: Some(front.granule),
        serial: front.serial,
        sequence: front.sequence,
        laces: &laces,
        body: &body,
    };
    film.extend_from_slice(&page_bytes(alloc, &page)?)?;
    Ok(())
}

/// How many values a block of a mode has.
fn block_size(mode: u8) -> u32
    ensures { result ≡ block_size mode }
{
    if mode == 0 { MADE_SHORT } else { MADE_LONG }
}

/// How many frames blocks of two modes give, one behind the other (Vorbis I, section 4.3.8).
fn overlap_len(before: u8, mode: u8) -> u32
    ensures frames { result ≡ overlap_len (block_size before) (block_size mode) }
    ensures most { result ≤ 128 }
{
    block_size(before) / 4 + block_size(mode) / 4
}

/// How many frames a block gives with the next, whose mode is the first of these; none where there
/// is no other.
#[tactic(auto, unfolding(model_trial::specs::MadeFilm::frames_between))]
fn frames_up_to(before: u8, modes: &[u8]) -> u32
    ensures frames { frames_between (before ∷ modes.now) ≡ result + frames_between modes.now }
    ensures most { result ≤ 128 }
{
    match modes.first() {
        Some(mode) => overlap_len(before, *mode),
        None => 0,
    }
}

/// How many frames blocks of these modes give.
fn frames_between(modes: &[u8]) -> u64
    requires { length modes.now ≤ MADE_PACKETS }
    ensures { result ≡ frames_between modes.now }
{
    let mut frames = 0;
    let mut rest = modes;
    while let Some((before, behind)) = rest.split_first() {
        frames += u64::from(frames_up_to(*before, behind));
        rest = behind;
    }
    frames
}

/// The granule position of an audio page: the frames up to its end, fewer on the last page.
#[tactic(auto, unfolding(model_trial::specs::MadeFilm::granule_at))]
fn granule_at(drawn: &DrawnLink, page: usize) -> u64
    requires whole { IsWhole drawn.now }
    requires page { page < AUDIO_PAGES }
    ensures position { result ≡ granule_at (drawn_link_of drawn.now) page }
    ensures small { result < 2 ^ 63 }
{
    let frames = frames_between(&drawn.modes[..PACKETS_ON_PAGE * (page + 1)]);
    if page + 1 == AUDIO_PAGES {
        frames.saturating_sub(drawn.link.cut)
    } else {
        frames
    }
}

/// The sequence number of an audio page, behind those of two pages of headers.
#[tactic(auto, unfolding(model_trial::specs::MadeFilm::sequence_at))]
fn sequence_at(link: &MadeLink, page: u32) -> u32
    requires { page < AUDIO_PAGES }
    ensures { result ≡ sequence_at (made_link_of link.now) page }
{
    match link.lost_before {
        Some(lost) if lost <= page => 2 + page + 1,
        _ => 2 + page,
    }
}

/// What stands in front of the packets of an audio page.
fn audio_front(drawn: &DrawnLink, page: usize) -> PageFront
    requires whole { IsWhole drawn.now }
    requires page { page < AUDIO_PAGES }
    ensures front { result ≡ audio_front (drawn_link_of drawn.now) page }
    ensures small { result.granule < 2 ^ 63 }
{
    PageFront {
        flags: if page + 1 == AUDIO_PAGES { 4 } else { 0 },
        granule: granule_at(drawn, page),
        serial: drawn.link.serial,
        sequence: sequence_at(drawn.link, page as u32),
    }
}

/// Writes an audio page of a link.
fn put_audio_page(
    alloc: Global,
    film: &mut Vec<u8>,
    drawn: &DrawnLink,
    page: usize,
) -> Result<(), NoMemory>
    requires whole { IsWhole drawn.now }
    requires page { page < AUDIO_PAGES }
    ensures { OnOk result (film.new.items
        ≡ film.old.items ++ written_page (audio_page (drawn_link_of drawn.now) page)) }
{
    let first = PACKETS_ON_PAGE * page;
    let packets = &drawn.packets[first..first + PACKETS_ON_PAGE];
    put_page(alloc, film, &audio_front(drawn, page), packets)
}

/// Writes all audio pages of a link.
pub fn put_audio(alloc: Global, film: &mut Vec<u8>, drawn: &DrawnLink) -> Result<(), NoMemory>
    requires { IsWhole drawn.now }
    ensures { OnOk result (film.new.items
        ≡ film.old.items ++ written_pages (pages_of_audio (drawn_link_of drawn.now))) }
{
    for page in 0..AUDIO_PAGES {
        put_audio_page(alloc, film, drawn, page)?;
    }
    Ok(())
}
