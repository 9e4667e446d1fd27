ghost use Rattle.std.specs.Prelude.{◌≡◌, ◌≤◌, length, map, string_bytes, IfOk};
ghost use Rattle.std.specs.List.{concat, fold};
ghost use Rattle.model_line.specs.Decode.{frame_count, gap_count};
ghost use Rattle.model_line.specs.Origins.{listed, origins_of};
ghost use Rattle.model_line.specs.PacketRows.{rows_of, block_packets};
ghost use Rattle.model_line.specs.Index.{Indexes};
ghost use Rattle.model_player.specs.Texts.{sum_with, report_sum, film_counts_line, report_line, trial_text};

use film_blocks::Film;
use model_line::Item;
use script_playing::Report;
use std::alloc::{AllocError, Global};

/// How many gaps an item is: one or none.
#[tactic(auto, using(crate::proofs::TrialTexts::gap_laws))]
fn gaps_of(item: &Item) -> usize
    ensures gaps { result ≡ gap_count (origins_of item.now) }
    ensures most { result ≤ 1 }
{
    match item {
        Item::Span(_) => 0,
        Item::Gap { .. } => 1,
    }
}

/// How many gaps items have.
fn gap_count(items: &[Item]) -> usize
    ensures { result ≡ gap_count (listed items.now) }
{
    let mut count = 0;
    for item in items {
        count += gaps_of(item);
    }
    count
}

/// The sum of some bytes and of one more.
fn sum_with(sum: u64, byte: u8) -> u64
    ensures { result ≡ sum_with sum byte }
{
    sum.wrapping_mul(257).wrapping_add(u64::from(byte) + 1)
}

/// The sum of some bytes and of these behind them.
fn sum_behind(sum: u64, bytes: &[u8]) -> u64
    ensures { result ≡ fold sum_with sum bytes.now }
{
    let mut total = sum;
    for byte in bytes {
        total = sum_with(total, *byte);
    }
    total
}

/// How many bytes a report has. As far as is known of its texts, 64 bits may be too few for it.
fn report_size(report: &Report) -> u128
    ensures { result ≡ length (concat report.now) }
{
    let mut size = 0;
    for text in report.items() {
        size += text.items().len() as u128;
    }
    size
}

/// The sum of the bytes of a report.
fn report_sum(report: &Report) -> u64
    ensures { result ≡ report_sum (concat report.now) }
{
    let mut sum = 0;
    for text in report.items() {
        sum = sum_behind(sum, text.items());
    }
    sum
}

/// How many links, blocks, frames and gaps a film has.
fn film_counts_line(alloc: Global, film: &Film) -> Result<String, AllocError>
    ensures { IfOk result (λ line. string_bytes line
        ≡ film_counts_line (length film.now.links) (length (block_packets film.now.links))
        (frame_count (listed film.now.index.items)) (gap_count (listed film.now.index.items))) }
{
    let index = film.index();
    let links = index.links();
    let blocks = film.blocks();
    let frames = index.total();
    let gaps = gap_count(index.items());
    format!(in alloc; "links {links} blocks {blocks} frames {frames} gaps {gaps}\n")
}

/// How many bytes a report has, and their sum.
fn report_line(alloc: Global, report: &Report) -> Result<String, AllocError>
    ensures { IfOk result (λ line. string_bytes line
        ≡ report_line (length (concat report.now)) (report_sum (concat report.now))) }
{
    let size = report_size(report);
    let sum = report_sum(report);
    format!(in alloc; "report {size} sum {sum}\n")
}

/// What `trial` writes of a film and of the report of a script over it.
pub fn trial_text(alloc: Global, film: &Film, report: &Report) -> Result<String, AllocError>
    requires { Indexes (map rows_of film.now.links) film.now.index }
    ensures { IfOk result (λ text. string_bytes text
        ≡ trial_text film.now.links (concat report.now)) }
{
    let mut text = film_counts_line(alloc, film)?;
    let line = report_line(alloc, report)?;
    text.push_str(&line)?;
    Ok(text)
}
