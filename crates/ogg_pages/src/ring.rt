ghost use Rattle.std.specs.Prelude.{◌≡◌, ◌+◌, ◌*◌, ◌%◌, ◌<◌, ◌≤◌, ◌||◌, nat_lt, if◌then◌else◌, List, ℕ, length, fold, max};
ghost use Rattle.model_ogg.specs.Checksum.{with_byte};
ghost use Rattle.ogg_pages.specs.Ring.{IsRing, bytes_between, kept_at};

use crate::crc::bytes_added;
use crate::leaps::{SLAB_LEN, slabs_passed};

/// How many registers are kept: more than a page has slabs, which are 1,021 at most.
pub const KEPT: usize = 1024;

/// Registers of the checksum at the beginnings of slabs of the same bytes, from one slab to
/// another: each is what the bytes of a slab make of the one before. What the first of them is
/// does not matter, since adding bytes is linear: any register goes from slab to slab as that
/// one does, but for what the difference of the two comes to behind as many bytes 0.
#[derive(Drop)]
pub struct Ring {
    registers: [u32; KEPT],
    first: usize,
    last: usize,
}

/// The last slab that is kept, where the first is to be this one. It is the same where the ring
/// has this one; otherwise the ring begins anew.
fn last_from(first: usize, last: usize, slab: usize) -> usize
    ensures { result ≡ (if nat_lt slab first || nat_lt last slab then slab else last) }
{
    if slab < first || last < slab {
        slab
    } else {
        last
    }
}

impl Ring {
    /// The ring at the beginning of any bytes.
    pub fn new() -> Ring
        ensures { (bytes : List ℕ) → IsRing bytes result }
    {
        Ring {
            registers: [0; KEPT],
            first: 0,
            last: 0,
        }
    }

    /// The register at the beginning of a slab.
    fn kept(&self, slab: usize) -> u32
        ensures { result ≡ kept_at self.now slab }
    {
        self.registers[slab % KEPT]
    }

    /// Lets the ring begin at this slab.
    fn begin_at(&mut self, bytes: &[u8], slab: usize)
        requires ring { IsRing bytes.now self.old }
        requires within { slab * SLAB_LEN ≤ length bytes.now }
        ensures ring { IsRing bytes.now self.new }
        ensures first { self.new.first ≡ slab }
        ensures last { self.old.first ≤ slab → self.new.last ≡ max self.old.last slab }
    {
        self.last = last_from(self.first, self.last, slab);
        self.first = slab;
    }

    /// Lets the ring go on to this slab.
    fn go_on_to(&mut self, bytes: &[u8], slab: usize)
        requires ring { IsRing bytes.now self.old }
        requires within { slab * SLAB_LEN ≤ length bytes.now }
        requires near { slab < self.old.first + KEPT }
        ensures ring { IsRing bytes.now self.new }
        ensures first { self.new.first ≡ self.old.first }
        ensures last { self.new.last ≡ max self.old.last slab }
    {
        while self.last < slab {
            let start = self.last * SLAB_LEN;
            let register = bytes_added(self.kept(self.last), &bytes[start..start + SLAB_LEN]);
            self.last += 1;
            self.registers[self.last % KEPT] = register;
        }
    }

    /// The register after all slabs from one on and before another. Where the slabs that are
    /// asked for rise, each is read once, and the rest is constant work.
    fn leap(&mut self, bytes: &[u8], register: u32, from: usize, to: usize) -> u32
        requires ring { IsRing bytes.now self.old }
        requires ordered { from ≤ to }
        requires within { to * SLAB_LEN ≤ length bytes.now }
        requires near { to < from + KEPT }
        ensures ring { IsRing bytes.now self.new }
        ensures last { self.old.first ≤ from → self.new.last ≡ max self.old.last to }
        ensures register { result ≡ fold with_byte register
            (bytes_between bytes.now (from * SLAB_LEN) (to * SLAB_LEN)) }
    {
        self.begin_at(bytes, from);
        self.go_on_to(bytes, to);
        self.kept(to) ^ slabs_passed(register ^ self.kept(from), to - from)
    }

    /// The register after the bytes between two places: those up to the next slab and those from
    /// the last slab on are read, and the slabs between are passed at once.
    pub fn range_added(&mut self, bytes: &[u8], register: u32, from: usize, end: usize) -> u32
        requires ring { IsRing bytes.now self.old }
        requires ordered { from ≤ end }
        requires within { end ≤ length bytes.now }
        requires near { end < from + KEPT * SLAB_LEN }
        ensures ring { IsRing bytes.now self.new }
        ensures register { result ≡ fold with_byte register (bytes_between bytes.now from end) }
    {
        let first = from / SLAB_LEN + 1;
        let last = end / SLAB_LEN;
        if last <= first {
            return bytes_added(register, &bytes[from..end]);
        }
        let begun = bytes_added(register, &bytes[from..first * SLAB_LEN]);
        let leapt = self.leap(bytes, begun, first, last);
        bytes_added(leapt, &bytes[last * SLAB_LEN..end])
    }
}
