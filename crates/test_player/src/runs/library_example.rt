//! How the library's calls go together: from the bytes of a film to what its links say.

ghost use Rattle.std.specs.Prelude.{◌<◌, ◌^◌, length};

use super::films;
use chain_links::{links, pages_in};
use head_packets::ident;
use ogg_packets::{Entry, joined, packets};
use ogg_pages::scan;
use std::alloc::Global;
use std::test::Fail;

/// The rate of each link of a film, by the identification of its Vorbis stream.
fn rates(alloc: Global, film: &[u8]) -> Result<Vec<u32>, Fail>
    requires { length film.now < 2 ^ 32 }
{
    // the pages of the file, and the links of the chain that they make
    let pages = scan(alloc, film)?;
    let links = links(alloc, film, &pages)?;
    let mut rates = Vec::new(alloc);
    for link in &links {
        // the packets of the link's stream, as pieces of the file, and the losses among them
        let entries = packets(alloc, film, pages_in(&pages, link), link.serial, 1000)?;
        let Some(Entry::Packet { pieces, .. }) = entries.first() else {
            continue;
        };
        // the first packet is the identification
        let packet = joined(alloc, film, pieces)?;
        rates.push(ident(&packet)?.rate)?;
    }
    Ok(rates)
}

#[test]
fn rates_of_a_chain(rt: HostRuntime) -> Result<(), Fail> {
    let film = super::joined(rt.alloc(), &films::CHAIN)?;
    assert!(rt; film.len() < 1 << 32);
    let rates = rates(rt.alloc(), &film)?;
    assert_eq!(rt; rates.as_slice(), [8000, 16000].as_slice());
    Ok(())
}
