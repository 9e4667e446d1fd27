ghost use Rattle.std.specs.Prelude.{◌≡◌, ◌<◌, IfOk};
ghost use Rattle.std.specs.List.{All};

use memory::{NoMemory, Sequence};
use std::alloc::Global;

/// A packet of these bytes.
pub fn packet_of(alloc: Global, bytes: &[u8]) -> Result<Sequence<u8>, NoMemory>
    ensures packet { IfOk result (λ packet. packet ≡ bytes.now) }
    ensures small { All (λ byte. byte < 256) bytes.now }
{
    Ok(Sequence::of(bytes.to_vec(alloc)?))
}
