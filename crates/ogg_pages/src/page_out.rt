ghost use Rattle.std.specs.Prelude.{◌≡◌, ◌≤◌, ◌<◌, ◌^◌, ◌++◌, length, take, drop, sum, IfOk, IfSome};
ghost use Rattle.std.specs.Int.{w32, to_le_bytes};
ghost use Rattle.model_ogg.specs.Checksum.{checksum_of};
ghost use Rattle.model_ogg.specs.Writing.{granule_number, with_checksum, written_page};
ghost use Rattle.ogg_pages.specs.Written.{IsWritten, fields_to_write};

use crate::crc::checksum;
use memory::NoMemory;
use std::alloc::Global;

/// A page that is to be written (RFC 3533, section 6).
#[derive(Clone, Copy)]
pub struct PageOut<'a> {
    /// Its header type: 1 it goes on with a packet, 2 it is its stream's first, 4 it is its
    /// stream's last.
    pub flags: u8,
    /// Its granule position, below 2^63; none where no packet ends on it.
    pub granule: Option<u64>,
    /// The number of its stream.
    pub serial: u32,
    /// Its number in its stream.
    pub sequence: u32,
    /// Its lacing values, at most 255.
    pub laces: &'a [u8],
    /// Its body, as long as its lacing values say.
    pub body: &'a [u8],
}

/// Puts a page's checksum into the field that it has for it.
fn put_checksum(page: &mut [u8])
    requires { 26 ≤ length page.old }
    ensures { page.new ≡ take 22 page.old
        ++ (to_le_bytes w32 (checksum_of page.old) ++ drop 26 page.old) }
{
    let sum = checksum(page);
    page[22..26].copy_from_slice(&sum.to_le_bytes());
}

/// The number that stands for a granule position.
fn granule_number(granule: Option<u64>) -> u64
    ensures { result ≡ granule_number granule }
{
    granule.unwrap_or(u64::MAX)
}

/// The bytes of a page, with 0 in the field of its checksum.
fn bytes_without_checksum(alloc: Global, page: &PageOut) -> Result<Vec<u8>, NoMemory>
    requires laces { length page.now.laces.now ≤ 255 }
    ensures bytes { IfOk result
        (λ bytes. bytes.items ≡ with_checksum (fields_to_write page.now) 0) }
    ensures serial { IfOk result (λ _. page.now.serial < 2 ^ 32) }
    ensures sequence { IfOk result (λ _. page.now.sequence < 2 ^ 32) }
{
    let mut bytes = Vec::new(alloc);
    bytes.extend_from_slice(b"OggS\0")?;
    bytes.push(page.flags)?;
    bytes.extend_from_slice(&granule_number(page.granule).to_le_bytes())?;
    bytes.extend_from_slice(&page.serial.to_le_bytes())?;
    bytes.extend_from_slice(&page.sequence.to_le_bytes())?;
    bytes.extend_from_slice(&[0; 4])?;
    bytes.push(page.laces.len() as u8)?;
    bytes.extend_from_slice(page.laces)?;
    bytes.extend_from_slice(page.body)?;
    Ok(bytes)
}

/// The bytes of a page. Whatever bytes follow them, that page is the first that is found, at
/// place 0.
pub fn page_bytes(alloc: Global, page: &PageOut) -> Result<Vec<u8>, NoMemory>
    requires laces { length page.now.laces.now ≤ 255 }
    requires body { sum page.now.laces.now ≡ length page.now.body.now }
    requires granule { IfSome page.now.granule (λ granule. granule < 2 ^ 63) }
    ensures found { IfOk result (λ bytes. IsWritten page.now bytes.items) }
    ensures bytes { IfOk result
        (λ bytes. bytes.items ≡ written_page (fields_to_write page.now)) }
{
    let mut bytes = bytes_without_checksum(alloc, page)?;
    put_checksum(&mut bytes);
    Ok(bytes)
}
