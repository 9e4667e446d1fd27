ghost use Rattle.std.specs.Prelude.{◌≡◌, length, All, IfOk};
ghost use Rattle.ogg_packets.specs.Pieces.{joined, LiesBefore};

use crate::pieces::Pieces;
use memory::NoMemory;
use std::alloc::Global;

/// The bytes of a packet that lies in these pieces of the bytes of a file, joined.
pub fn joined(alloc: Global, bytes: &[u8], pieces: &Pieces) -> Result<Vec<u8>, NoMemory>
    requires { All (LiesBefore (length bytes.now)) pieces.now }
    ensures { IfOk result (λ packet. packet.items ≡ joined bytes.now pieces.now) }
{
    let mut packet = Vec::new(alloc);
    for piece in pieces.items() {
        let start = piece.place as usize;
        packet.extend_from_slice(&bytes[start..start + piece.len as usize])?;
    }
    Ok(packet)
}
