ghost use Rattle.std.specs.Prelude.{◌≡◌, [], length, if◌then◌else◌};
ghost use Rattle.std.specs.Iterator.{YieldsFirstRef, item_count};
ghost use Rattle.model_ogg.specs.Streams.{is_last, stream_of};

use model_ogg::PageRef;

/// The pages of the stream of a serial number among those of a file, in order, up to and with its
/// first last page (RFC 3533, section 4).
#[derive(Drop)]
pub struct StreamPages<'a> {
    rest: &'a [PageRef],
    serial: u32,
}

impl<'a> StreamPages<'a> {
    /// Those of the stream of this serial number among these pages.
    pub fn new(pages: &'a [PageRef], serial: u32) -> Self
        ensures pages { result.rest.now ≡ pages.now }
        ensures serial { result.serial ≡ serial }
    {
        StreamPages {
            rest: pages,
            serial,
        }
    }
}

/// The pages behind a page of a stream, among which the stream goes on: none behind its last page.
fn behind<'a>(page: &PageRef, rest: &'a [PageRef]) -> &'a [PageRef]
    ensures { result.now ≡ (if is_last page.now then [] else rest.now) }
{
    if page.is_last() { &[] } else { rest }
}

impl<'a> Iterator for StreamPages<'a> {
    type Item = &'a PageRef;

    ghost next_gives = { YieldsFirstRef (λ s. stream_of s.serial s.rest.now) };

    ghost remaining = { item_count (λ s. stream_of s.serial s.rest.now) };

    #[tactic(auto, using(crate::proofs::StreamSteps::stream_laws))]
    fn next(&mut self) -> Option<&'a PageRef> {
        while let Some((page, rest)) = self.rest.split_first() {
            if page.serial == self.serial {
                self.rest = behind(page, rest);
                return Some(page);
            }
            self.rest = rest;
        }
        None
    }
}

/// How many pages the stream of this serial number has among these pages, up to and with its first
/// last page.
#[tactic(auto, using(crate::proofs::StreamSteps::stream_within))]
pub fn stream_len(pages: &[PageRef], serial: u32) -> usize
    ensures { result ≡ length (stream_of serial pages.now) }
{
    StreamPages::new(pages, serial).count()
}
