ghost use Rattle.std.specs.Prelude.{◌≡◌, ◌<◌, ◌≤◌, ◌^◌, length, drop, sum, MatchOption, IfOk, Some, All};
ghost use Rattle.model_ogg.specs.Pages.{IsPageOf, len_of, laces, is_right_page, page_ref, pages};
ghost use Rattle.model_ogg.specs.Checksum.{checksum_of};
ghost use Rattle.ogg_pages.specs.Checksums.{AreChecksums};
ghost use Rattle.ogg_pages.specs.Next.{page_front, whole_there, page_there, HasNoPage, IsNextPage, StandsWhole};

use crate::checksums::Checksums;
use crate::leaps::SLAB_LEN;
use crate::parts::segments_len;
use crate::ring::KEPT;
use byteorder::{ByteOrder, LittleEndian};
use memchr::memmem::Finder;
use memory::NoMemory;
use model_ogg::{HEADER_LEN, PageRef};
use std::alloc::Global;

/// How many bytes a page has at most: its header, 255 lacing values, and 255 bytes for each of them
/// (RFC 3533, section 6).
const MOST_PAGE_LEN: usize = HEADER_LEN + 255 + 255 * 255;

/// So the ring keeps a register for each slab of any page.
const _: () = prove!(MOST_PAGE_LEN < KEPT * SLAB_LEN);

/// What the header at the front says, of a page whose body has so many bytes.
#[tactic(auto, unfolding(model_ogg::specs::Pages::page_ref, model_ogg::specs::Pages::granule_of))]
fn header(rest: &[u8], place: u64, body: u32) -> PageRef
    requires whole { HEADER_LEN ≤ length rest.now }
    requires body { body ≡ sum (laces rest.now) }
    ensures { result ≡ page_ref place rest.now }
{
    let granule = LittleEndian::read_u64(&rest[6..]);
    PageRef {
        place,
        flags: rest[5],
        granule: if granule < 1 << 63 {
            Some(granule)
        } else {
            None
        },
        serial: LittleEndian::read_u32(&rest[14..]),
        sequence: LittleEndian::read_u32(&rest[18..]),
        segments: rest[26],
        body,
    }
}

/// What the header at the front says, where the page is whole.
#[tactic(auto, unfolding(model_ogg::specs::Pages::page_len))]
fn whole_page(rest: &[u8], place: u64) -> Option<PageRef>
    ensures { result ≡ whole_there rest.now place }
{
    if rest.len() < HEADER_LEN {
        return None;
    }
    let laces_end = HEADER_LEN + usize::from(rest[26]);
    if rest.len() < laces_end {
        return None;
    }
    let body = segments_len(&rest[HEADER_LEN..laces_end]);
    if rest.len() < laces_end + body as usize {
        return None;
    }
    Some(header(rest, place, body))
}

/// How many bytes a page has.
fn len(page: &PageRef) -> usize
    ensures { result ≡ len_of page.now }
{
    HEADER_LEN + usize::from(page.segments) + page.body as usize
}

/// Where the whole page ends that stands at a place.
fn page_end(bytes: &[u8], place: usize, page: PageRef) -> usize
    requires within { place ≤ length bytes.now }
    requires whole { Some page ≡ whole_there (drop place bytes.now) place }
    ensures { StandsWhole bytes.now place result page }
{
    place + len(&page)
}

/// Whether a whole page of this checksum has capture bytes, version 0 and that checksum.
#[tactic(auto, unfolding(model_ogg::specs::Pages::is_right_page))]
fn is_right(page: &[u8], checksum: u32) -> bool
    requires least { HEADER_LEN ≤ length page.now }
    requires sum { checksum ≡ checksum_of page.now }
    ensures { result ≡ is_right_page page.now }
{
    page.starts_with(b"OggS") && page[4] == 0 && LittleEndian::read_u32(&page[22..]) == checksum
}

/// The page at a place, where a right one is there.
#[tactic(auto, unfolding(model_ogg::specs::Pages::begins_page))]
fn page_at(bytes: &[u8], checksums: &mut Checksums, place: usize) -> Option<PageRef>
    requires kept { AreChecksums bytes.now checksums.old }
    requires within { place ≤ length bytes.now }
    ensures page { result ≡ page_there bytes.now place }
    ensures kept { AreChecksums bytes.now checksums.new }
{
    let page = whole_page(&bytes[place..], place as u64)?;
    let end = page_end(bytes, place, page);
    let checksum = checksums.of_page(bytes, place, end);
    if is_right(&bytes[place..end], checksum) {
        Some(page)
    } else {
        None
    }
}

/// What finds the front with which each page begins: the capture bytes and the version.
fn page_finder() -> Finder<'static>
    ensures { result ≡ page_front }
{
    Finder::new(b"OggS\0")
}

/// The first page that begins at a place or behind it.
fn find_page(
    bytes: &[u8],
    finder: &Finder,
    checksums: &mut Checksums,
    from: usize,
) -> Option<PageRef>
    requires within { from ≤ length bytes.now }
    requires finder { finder.now ≡ page_front }
    requires kept { AreChecksums bytes.now checksums.old }
    ensures page { MatchOption result (HasNoPage bytes.now from) (IsNextPage bytes.now from) }
    ensures kept { AreChecksums bytes.now checksums.new }
{
    let mut place = from;
    while let Some(ahead) = finder.find(&bytes[place..]) {
        place += ahead;
        if let Some(page) = page_at(bytes, checksums, place) {
            return Some(page);
        }
        place += 1;
    }
    None
}

/// The right page at the least place, not below this one, at which one begins; none where no page
/// begins there or behind. It takes no memory. Its time is linear in the bytes that it passes; who
/// wants all pages calls `scan`, whose time is linear in all bytes.
#[tactic(auto, using(crate::proofs::Search::none_behind))]
pub fn next_page(bytes: &[u8], from: u64) -> Option<PageRef>
    ensures { MatchOption result (HasNoPage bytes.now from) (IsNextPage bytes.now from) }
{
    let from = from as usize;
    if bytes.len() < from {
        return None;
    }
    find_page(bytes, &page_finder(), &mut Checksums::new(from), from)
}

/// The pages of these bytes, in order. The time that it takes is linear in the bytes, whatever
/// their headers claim.
pub fn scan(alloc: Global, bytes: &[u8]) -> Result<Vec<PageRef>, NoMemory>
    requires { length bytes.now < 2 ^ 32 }
    ensures value { IfOk result (λ found. found.items ≡ pages bytes.now 0) }
    ensures each { IfOk result (λ found. All (IsPageOf bytes.now) found.items) }
{
    let finder = page_finder();
    let mut checksums = Checksums::new(0);
    let mut found = Vec::new(alloc);
    let mut place = 0;
    while let Some(page) = find_page(bytes, &finder, &mut checksums, place) {
        place = page.place as usize + len(&page);
        found.push(page)?;
    }
    Ok(found)
}
