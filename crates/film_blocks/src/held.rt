ghost use Rattle.std.specs.Prelude.{◌≡◌, IfOk};
ghost use Rattle.model_setup.specs.SetupPacket.{IsSetup};
ghost use Rattle.film_blocks.specs.Held.{link_in, IsHeld};

use crate::headers::{after, packet_bytes};
use block_decoding::BlockSizes;
use memory::NoMemory;
use model_line::LinkCounts;
use model_setup::SetupFault;
use ogg_packets::KeptEntry;
use setup_header::Setup;
use std::alloc::Global;

/// What is kept of a link: the numbers of its stream, how many channels it has, the sizes of its
/// blocks, its entries, the packets among them as pieces of the file, and the places of those
/// entries that are blocks.
#[derive(Drop)]
pub struct HeldLink {
    pub counts: LinkCounts,
    pub channels: u8,
    pub sizes: BlockSizes,
    pub entries: Vec<KeptEntry>,
    pub blocks: Vec<u32>,
}

/// Reads the setup of a link again.
pub fn read_setup(alloc: Global, bytes: &[u8], link: &HeldLink) -> Result<Setup, NoMemory>
    requires { IsHeld bytes.now link.now }
    ensures setup { IfOk result (λ setup. (link_in bytes.now link.now).setup ≡ setup) }
    ensures whole { IfOk result (IsSetup link.now.channels) }
{
    let Some(packet) = packet_bytes(alloc, bytes, after(&link.entries, 2))? else {
        unreachable!()
    };
    match Setup::read(alloc, link.channels, packet.as_slice()) {
        Ok(setup) => Ok(setup),
        Err(SetupFault::Bad { .. }) => unreachable!(),
        Err(SetupFault::Memory) => Err(NoMemory),
    }
}
