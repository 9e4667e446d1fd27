ghost use Rattle.std.specs.Prelude.{◌≡◌, ◌≤◌, ℕ, length, IfOk};
ghost use Rattle.std.specs.List.Sorted.{IsNonDecreasingBy};
ghost use Rattle.film_blocks.specs.Ends.{first_behind, EndBefore};
ghost use Rattle.film_blocks.specs.Held.{blocks_in, held_ends};

use crate::held::HeldLink;
use memory::NoMemory;
use model_line::MOST_ENTRIES;
use std::alloc::Global;

/// For each link, how many blocks the film has up to and with it.
pub fn block_ends(alloc: Global, links: &[HeldLink]) -> Result<Vec<u32>, NoMemory>
    requires { blocks_in links.now ≤ MOST_ENTRIES }
    ensures { IfOk result (λ ends. ends.items ≡ held_ends 0 links.now) }
{
    let mut ends = Vec::with_capacity(alloc, links.len())?;
    let mut end = 0;
    for link in links {
        end += link.blocks.len() as u32;
        ends.push(end)?;
    }
    Ok(ends)
}

/// The number of the first block of a link, by the ends of the links.
pub fn first_block(ends: &[u32], link: usize) -> u32
    requires { link ≤ length ends.now }
    ensures { result ≡ first_behind 0 ends.now link }
{
    if link == 0 { 0 } else { ends[link - 1] }
}

/// The number of the link of a block, by the ends of the links: so many of them end before it.
pub fn link_at(ends: &[u32], block: u32) -> usize
    requires { IsNonDecreasingBy (λ (end : ℕ). end) ends.now }
    ensures ends { EndBefore block result ends.now }
    ensures bound { result ≤ length ends.now }
{
    ends.partition_point(|end| *end <= block)
}
