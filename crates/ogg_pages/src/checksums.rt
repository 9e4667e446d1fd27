ghost use Rattle.std.specs.Prelude.{◌≡◌, ◌+◌, ◌*◌, ◌<◌, ◌≤◌, List, ℕ, length, fold};
ghost use Rattle.model_ogg.specs.Checksum.{with_byte, checksum_of};
ghost use Rattle.ogg_pages.specs.Checksums.{AreChecksums};
ghost use Rattle.ogg_pages.specs.Ring.{bytes_between};

use crate::crc::{bytes_added, front_checksum};
use crate::leaps::SLAB_LEN;
use crate::ring::{KEPT, Ring};

/// Gives the checksums of what may be pages of the same bytes, in rising order, in time that is
/// linear in the bytes. A page is read at once as long as all that was read so does not pass the
/// place where it begins. A right page is passed when it is read, so this is the way of every page
/// of a film that nothing is wrong with. Headers that claim pages that are none use up what may be
/// read so, and then the ring gives the checksum in constant time.
#[derive(Drop)]
pub struct Checksums {
    ring: Ring,
    read: usize,
}

impl Checksums {
    /// Before any page of any bytes is looked at, which all stand from a place on.
    pub fn new(from: usize) -> Checksums
        ensures kept { (bytes : List ℕ) → from ≤ length bytes → AreChecksums bytes result }
        ensures read { result.read ≡ from }
    {
        Checksums {
            ring: Ring::new(),
            read: from,
        }
    }

    /// The register after the bytes between two places.
    fn range_added(&mut self, bytes: &[u8], register: u32, from: usize, end: usize) -> u32
        requires kept { AreChecksums bytes.now self.old }
        requires ordered { from ≤ end }
        requires within { end ≤ length bytes.now }
        requires near { end < from + KEPT * SLAB_LEN }
        ensures kept { AreChecksums bytes.now self.new }
        ensures register { result ≡ fold with_byte register (bytes_between bytes.now from end) }
    {
        if self.read <= from {
            self.read += end - from;
            return bytes_added(register, &bytes[from..end]);
        }
        self.ring.range_added(bytes, register, from, end)
    }

    /// The checksum of the page between two places.
    #[tactic(auto, using(crate::proofs::Sums::front_and_between))]
    pub fn of_page(&mut self, bytes: &[u8], place: usize, end: usize) -> u32
        requires kept { AreChecksums bytes.now self.old }
        requires least { place + 26 ≤ end }
        requires within { end ≤ length bytes.now }
        requires most { end < place + KEPT * SLAB_LEN }
        ensures kept { AreChecksums bytes.now self.new }
        ensures sum { result ≡ checksum_of (bytes_between bytes.now place end) }
    {
        let front = front_checksum(&bytes[place..place + 26]);
        self.range_added(bytes, front, place + 26, end)
    }
}
