ghost use Rattle.std.specs.Prelude.{◌≡◌, ◌≤◌, length, sum, All};
ghost use Rattle.model_ogg.specs.Pages.{IsPageOf};
ghost use Rattle.model_ogg.specs.Streams.{first_part_len, begins_vorbis};
ghost use Rattle.model_ogg.specs.Links.{played};

use model_ogg::PageRef;
use ogg_pages::{body, laces};

/// How many bytes the first packet part of a page with these lacing values has.
#[tactic(auto, using(crate::proofs::PartSteps::part_laws))]
fn first_part_len(laces: &[u8]) -> u64
    requires { length laces.now ≤ 255 }
    ensures value { result ≡ first_part_len laces.now }
    ensures bound { result ≤ sum laces.now }
{
    let mut len = 0;
    for lace in laces {
        len += u64::from(*lace);
        if *lace < 255 {
            return len;
        }
    }
    len
}

/// Whether the first packet part of a page begins as an identification header of Vorbis I does
/// (section 4.2.2).
pub fn begins_vorbis(bytes: &[u8], page: &PageRef) -> bool
    requires { IsPageOf bytes.now page.now }
    ensures { result ≡ begins_vorbis bytes.now page.now }
{
    let len = first_part_len(laces(bytes, page)) as usize;
    let body = body(bytes, page);
    body[..len].starts_with(b"\x01vorbis")
}

/// The serial number of the first of a link's first pages that begins a Vorbis stream.
#[tactic(auto, using(crate::proofs::PlayedSteps::played_laws))]
pub fn played(bytes: &[u8], link: &[PageRef]) -> Option<u32>
    requires { All (IsPageOf bytes.now) link.now }
    ensures { result ≡ played bytes.now link.now }
{
    for page in link {
        if !page.is_first() {
            return None;
        }
        if begins_vorbis(bytes, page) {
            return Some(page.serial);
        }
    }
    None
}
