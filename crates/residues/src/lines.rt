ghost use Rattle.std.specs.Prelude.{◌≡◌, length, replicate, pos, IfOk};
ghost use Rattle.std.specs.List.{All};
ghost use Rattle.residues.specs.Layout.{line_size, AreZero};

use memory::{NoMemory, Sequence};
use std::alloc::Global;

/// The values of one vector, in units of 2^-16.
pub type Line = Sequence<i64>;

/// So many lines of so many values, all of them 0: what a packet is decoded into.
pub fn zero_lines(alloc: Global, count: usize, size: usize) -> Result<Vec<Line>, NoMemory>
    ensures items { IfOk result (λ v. v.items ≡ replicate count (replicate size (pos 0))) }
    ensures count { IfOk result (λ v. length v.items ≡ count) }
    ensures sizes { IfOk result (λ v. All (λ line. length line ≡ line_size v.items) v.items) }
    ensures zero { IfOk result (λ v. AreZero v.items) }
{
    let mut lines = Vec::new(alloc);
    for _ in 0..count {
        lines.push(Line::of(vec![in alloc; 0; size]?))?;
    }
    Ok(lines)
}
