ghost use Rattle.std.specs.Prelude.{◌≡◌, ◌+◌, ◌<◌, ◌≤◌, ◌^◌, true, length, drop, All, IfOk, OnOk};
ghost use Rattle.std.specs.List.{list_any};
ghost use Rattle.memory.specs.Answers.{Answers};
ghost use Rattle.model_ogg.specs.Pages.{IsPageOf};
ghost use Rattle.model_ogg.specs.Streams.{is_first};
ghost use Rattle.model_ogg.specs.Links.{begins_link, up_to_link, before_links, chain, numbered, all_numbered, film_links, LiesAmong, pages_in};

use crate::vorbis::played;
use model_ogg::{LinkFault, LinkPages, MOST_LINKS, PageRef};
use std::alloc::Global;

/// Whether one of the pages is the first of a stream.
fn any_first(pages: &[PageRef]) -> bool
    ensures { result ≡ list_any is_first pages.now }
{
    pages.iter().any(|page| page.is_first())
}

/// Whether a link begins at a page, where the page before it is a first page or not.
fn begins_link(after_first: bool, page: &PageRef) -> bool
    ensures { result ≡ begins_link after_first page.now }
{
    page.is_first() && !after_first
}

/// How many pages stand before the next one at which a link begins.
#[tactic(auto, using(crate::proofs::LinkSteps::next_laws))]
fn next_link(pages: &[PageRef], after_first: bool) -> usize
    ensures { result ≡ length (up_to_link after_first pages.now) }
{
    let mut follows_first = after_first;
    for (i, page) in pages.iter().enumerate() {
        if begins_link(follows_first, page) {
            return i;
        }
        follows_first = page.is_first();
    }
    pages.len()
}

/// The link of this number, which begins at the first page of that number. It takes no memory.
fn link_at(
    bytes: &[u8],
    pages: &[PageRef],
    number: u32,
    first: usize,
) -> Result<LinkPages, LinkFault>
    requires pages { All (IsPageOf bytes.now) pages.now }
    requires few { length pages.now < 2 ^ 32 }
    requires begun { first < length pages.now }
    ensures value { result
        ≡ numbered bytes.now number first (up_to_link true (drop first pages.now)) }
    ensures few { OnOk result (number < MOST_LINKS) }
    ensures end { IfOk result (λ link. link.end
        ≡ first + length (up_to_link true (drop first pages.now))) }
    ensures within { IfOk result (LiesAmong (length pages.now)) }
{
    if number >= MOST_LINKS {
        return Err(LinkFault::TooManyLinks);
    }
    let rest = &pages[first..];
    let link = &rest[..next_link(rest, true)];
    let Some(serial) = played(bytes, link) else {
        return Err(LinkFault::NoVorbis { link: number });
    };
    Ok(LinkPages {
        first: first as u32,
        end: (first + link.len()) as u32,
        serial,
    })
}

/// The links of these pages, in order.
fn number_links(alloc: Global, bytes: &[u8], pages: &[PageRef]) -> Result<Vec<LinkPages>, LinkFault>
    requires pages { All (IsPageOf bytes.now) pages.now }
    requires few { length pages.now < 2 ^ 32 }
    ensures answers { Answers LinkFault.Memory (λ links. links.items) result
        (all_numbered bytes.now 0 (length (before_links pages.now)) (chain pages.now)) }
    ensures within { IfOk result (λ links. All (LiesAmong (length pages.now)) links.items) }
{
    let mut links = Vec::new(alloc);
    let mut first = next_link(pages, false);
    while first < pages.len() {
        let link = link_at(bytes, pages, links.len() as u32, first)?;
        first = link.end as usize;
        links.push(link)?;
    }
    Ok(links)
}

/// The links of a film, in order, by the numbers of their pages, each with the serial number of its
/// Vorbis stream. The pages are pages of these bytes, in order. A link begins at a first page that
/// follows no first page, and goes up to the next such page; the pages before the first link belong
/// to none. The time taken grows with the number of pages.
///
/// # Errors
///
/// `NoLink` where no page is a first page; else the first of these in the order of the links:
/// `NoVorbis` where no first page of the link begins a Vorbis stream, `TooManyLinks` where link
/// `MOST_LINKS` begins; `Memory` where no memory was found for them.
#[tactic(auto, unfolding(model_ogg::specs::Links::film_links))]
pub fn links(alloc: Global, bytes: &[u8], pages: &[PageRef]) -> Result<Vec<LinkPages>, LinkFault>
    requires pages { All (IsPageOf bytes.now) pages.now }
    requires few { length pages.now < 2 ^ 32 }
    ensures answers { Answers LinkFault.Memory (λ links. links.items) result
        (film_links bytes.now pages.now) }
    ensures within { IfOk result (λ links. All (LiesAmong (length pages.now)) links.items) }
{
    if !any_first(pages) {
        return Err(LinkFault::NoLink);
    }
    number_links(alloc, bytes, pages)
}

/// The pages of a link, among those of its film.
pub fn pages_in<'a>(pages: &'a [PageRef], link: &LinkPages) -> &'a [PageRef]
    requires { LiesAmong (length pages.now) link.now }
    ensures { result.now ≡ pages_in pages.now link.now }
{
    &pages[link.first as usize..link.end as usize]
}
