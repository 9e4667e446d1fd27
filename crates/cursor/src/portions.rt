ghost use Rattle.std.specs.Prelude.{◌≡◌, ◌+◌, ◌-◌, ◌<◌, ◌≤◌, ◌++◌, IfOk, OnOk};
ghost use Rattle.std.specs.List.{All};
ghost use Rattle.model_line.specs.Origins.{HasFrame};
ghost use Rattle.cursor.specs.Portions.{cut, portions_on, portions_from, needs_of, HasNext};

use memory::{NoMemory, Sequence};
use model_cursor::{Need, Needs};
use model_line::{Half, Item, Span};
use std::alloc::Global;

/// Frames between a block and the next, from number `from` up to but not including `to`.
#[derive(Clone, Copy, Debug)]
pub struct Portion {
    pub block: u32,
    pub from: u32,
    pub to: u32,
}

/// Of a span without its first frames the first so many.
fn cut(span: &Span, skip: u32, count: u32) -> Portion
    requires { span.now.from + skip ≤ span.now.to }
    ensures { result ≡ cut skip count span.now }
{
    let from = span.from + skip;
    Portion {
        block: span.block,
        from,
        to: from + count.min(span.to - from),
    }
}

/// Adds the portions that give so many frames of a link with whose spans items begin.
fn add_portions(
    items: &[Item],
    link: u32,
    count: u32,
    portions: &mut Vec<Portion>,
) -> Result<(), NoMemory>
    requires { All HasFrame items.now }
    ensures { OnOk result
        (portions.new.items ≡ portions.old.items ++ portions_on link count items.now) }
{
    let mut left = count;
    for item in items {
        let Item::Span(span) = item else {
            return Ok(());
        };
        if span.link != link || left == 0 {
            return Ok(());
        }
        portions.push(cut(span, 0, left))?;
        left = left.saturating_sub(span.to - span.from);
    }
    Ok(())
}

/// Adds the portions that give so many frames from a span on, without its first ones, and on into
/// the items behind it.
pub fn add_run(
    first: &Span,
    behind: &[Item],
    skip: u32,
    count: u32,
    portions: &mut Vec<Portion>,
) -> Result<(), NoMemory>
    requires skip { first.now.from + skip ≤ first.now.to }
    requires frames { All HasFrame behind.now }
    ensures { OnOk result (portions.new.items
        ≡ portions.old.items ++ portions_from skip count first.now behind.now) }
{
    let portion = cut(first, skip, count);
    portions.push(portion)?;
    let left = count.saturating_sub(first.to - portion.from);
    add_portions(behind, first.link, left, portions)
}

/// What portions need, in order: the right half of each one's block, and the left half of the
/// next.
pub fn needs_of(alloc: Global, portions: &[Portion]) -> Result<Needs, NoMemory>
    requires { All HasNext portions.now }
    ensures { IfOk result (λ needs. needs ≡ needs_of portions.now) }
{
    let mut needs = Vec::new(alloc);
    for portion in portions {
        needs.push(Need {
            block: portion.block,
            half: Half::Right,
        })?;
        needs.push(Need {
            block: portion.block + 1,
            half: Half::Left,
        })?;
    }
    Ok(Sequence::of(needs))
}
