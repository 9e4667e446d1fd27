ghost use Rattle.std.specs.Prelude.{◌≡◌, ◌≤◌, ◌++◌, Ok, OnOk, IfOk};
ghost use Rattle.model_ogg.specs.Writing.{written_pages};
ghost use Rattle.model_line.specs.Acceptance.{film_of};
ghost use Rattle.model_trial.specs.MadeFilm.{ident_packet, comment_packet, link_pages, made_film};
ghost use Rattle.model_trial.specs.FilmRead.{links_read};
ghost use Rattle.film_maker.specs.Drawn.{drawn_link_of, made_link_of, IsWhole};
ghost use Rattle.film_maker.specs.Pages.{header_pages};

use crate::drawn::{DrawnLink, draw_link};
use crate::draws::Draws;
use crate::links::{MADE_LINKS, MadeLink};
use crate::made_setup::make_setup;
use crate::packet::packet_of;
use crate::pages::{PageFront, put_audio, put_page};
use memory::{NoMemory, Sequence};
use std::alloc::Global;

/// The identification packet of a link: version 0, no bitrates, blocks of 64 and 256 values (Vorbis
/// I, section 4.2.2).
#[tactic(auto, unfolding(model_trial::specs::MadeFilm::ident_packet))]
fn ident_packet(alloc: Global, link: &MadeLink) -> Result<Sequence<u8>, NoMemory>
    ensures { IfOk result (λ packet. packet ≡ ident_packet (made_link_of link.now)) }
{
    let mut packet = Vec::new(alloc);
    packet.extend_from_slice(b"\x01vorbis\0\0\0\0")?;
    packet.push(link.channels)?;
    packet.extend_from_slice(&link.rate.to_le_bytes())?;
    packet.extend_from_slice(&[0; 12])?;
    packet.extend_from_slice(&[0x86, 1])?;
    Ok(Sequence::of(packet))
}

/// The comment packet of every link: without vendor and texts (Vorbis I, section 5.2).
#[tactic(auto, unfolding(model_trial::specs::MadeFilm::comment_packet))]
fn comment_packet(alloc: Global) -> Result<Sequence<u8>, NoMemory>
    ensures { IfOk result (λ packet. packet ≡ comment_packet) }
{
    packet_of(alloc, b"\x03vorbis\0\0\0\0\0\0\0\0\x01")
}

/// Writes the two pages of headers of a link.
fn put_headers(alloc: Global, film: &mut Vec<u8>, link: &MadeLink) -> Result<(), NoMemory>
    requires some { 1 ≤ link.now.channels }
    requires few { link.now.channels ≤ 2 }
    ensures { OnOk result (film.new.items
        ≡ film.old.items ++ written_pages (header_pages (made_link_of link.now))) }
{
    let ident = ident_packet(alloc, link)?;
    let first = PageFront {
        flags: 2,
        granule: 0,
        serial: link.serial,
        sequence: 0,
    };
    put_page(alloc, film, &first, &[ident])?;
    let comment = comment_packet(alloc)?;
    let setup = make_setup(alloc, link)?;
    let second = PageFront {
        flags: 0,
        granule: 0,
        serial: link.serial,
        sequence: 1,
    };
    put_page(alloc, film, &second, &[comment, setup])
}

/// Writes the pages of a link.
fn put_link(alloc: Global, film: &mut Vec<u8>, drawn: &DrawnLink) -> Result<(), NoMemory>
    requires some { 1 ≤ drawn.now.link.now.channels }
    requires few { drawn.now.link.now.channels ≤ 2 }
    requires whole { IsWhole drawn.now }
    ensures { OnOk result (film.new.items
        ≡ film.old.items ++ written_pages (link_pages (drawn_link_of drawn.now))) }
{
    put_headers(alloc, film, drawn.link)?;
    put_audio(alloc, film, drawn)
}

/// The made film of a number, which is accepted.
pub fn make_film(alloc: Global, number: u64) -> Result<Vec<u8>, NoMemory>
    ensures made { IfOk result (λ bytes. bytes.items ≡ made_film number) }
    ensures accepted { IfOk result (λ bytes. film_of bytes.items ≡ Ok (links_read number)) }
{
    let mut numbers = Draws::new(number);
    let mut film = Vec::new(alloc);
    for link in &MADE_LINKS {
        let drawn = draw_link(alloc, &mut numbers, link)?;
        put_link(alloc, &mut film, &drawn)?;
    }
    Ok(film)
}
