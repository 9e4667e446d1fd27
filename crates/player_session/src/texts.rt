ghost use Rattle.std.specs.Prelude.{◌≡◌, ◌<◌, Some, length, map, IfOk, string_bytes, string_len, slice_get, option_map};
ghost use Rattle.std.specs.List.{flat_map, enumerate_from};
ghost use Rattle.model_line.specs.Acceptance.{FilmLink};
ghost use Rattle.model_line.specs.PacketRows.{rows_of};
ghost use Rattle.model_line.specs.Index.{Indexes};
ghost use Rattle.model_player.specs.Texts.{counts_text, head_text, frames_text, lines_by, link_lines, total_line, info_text, constants_fault_line, fault_line, script_fault_line, cannot_read_line, too_long_line};

use film_blocks::Film;
use model_line::{FilmFault, LinkCounts, LinkFacts};
use model_synthesis::ConstantsFault;
use player_script::ScriptFault;
use std::alloc::{AllocError, Global};

/// The line of a film that cannot be read.
pub fn cannot_read_line(alloc: Global, name: &str) -> Result<String, AllocError>
    ensures { IfOk result (λ line. string_bytes line ≡ cannot_read_line name.now) }
{
    format!(in alloc; "cannot read {name}\n")
}

/// The line of a film that has too many bytes.
pub fn too_long_line(alloc: Global, name: &str, limit: u64) -> Result<String, AllocError>
    ensures { IfOk result (λ line. string_bytes line ≡ too_long_line name.now limit) }
{
    format!(in alloc; "too long {name} {limit}\n")
}

/// The line of a constants file that is refused.
pub fn constants_fault_line(alloc: Global, fault: &ConstantsFault) -> Result<String, AllocError>
    ensures line { IfOk result (λ line. string_bytes line ≡ constants_fault_line fault.now) }
    ensures some { IfOk result (λ line. 0 < string_len line) }
{
    format!(in alloc; "{fault}\n")
}

/// The line of a film that is refused.
pub fn fault_line(alloc: Global, fault: &FilmFault) -> Result<String, AllocError>
    ensures line { IfOk result (λ line. string_bytes line ≡ fault_line fault.now) }
    ensures some { IfOk result (λ line. 0 < string_len line) }
{
    format!(in alloc; "{fault}\n")
}

/// The line of a script that is refused.
pub fn script_fault_line(alloc: Global, fault: &ScriptFault) -> Result<String, AllocError>
    ensures line { IfOk result (λ line. string_bytes line ≡ script_fault_line fault.now) }
    ensures some { IfOk result (λ line. 0 < string_len line) }
{
    format!(in alloc; "{fault}\n")
}

/// The line of a link of this number, without its end.
fn counts_text(alloc: Global, number: u32, counts: &LinkCounts) -> Result<String, AllocError>
    ensures { IfOk result (λ text. string_bytes text ≡ counts_text number counts.now) }
{
    let LinkCounts {
        serial,
        pages,
        packets,
        lost,
    } = *counts;
    format!(in alloc; "link {number} serial {serial} pages {pages} packets {packets} lost {lost}")
}

/// The line of a link's identification, without its end.
fn head_text(alloc: Global, number: u32, facts: &LinkFacts) -> Result<String, AllocError>
    ensures { IfOk result (λ text. string_bytes text ≡ head_text number facts.now) }
{
    let LinkFacts {
        channels,
        rate,
        short,
        long,
        ..
    } = *facts;
    format!(in alloc; "head {number} channels {channels} rate {rate} blocks {short} {long}")
}

/// The line of what the film's line has of a link, without its end.
fn frames_text(alloc: Global, number: u32, facts: &LinkFacts) -> Result<String, AllocError>
    ensures { IfOk result (λ text. string_bytes text ≡ frames_text number facts.now) }
{
    let LinkFacts { frames, gaps, .. } = *facts;
    format!(in alloc; "line {number} frames {frames} gaps {gaps}")
}

/// The three lines of a link of this number.
fn lines_by(
    alloc: Global,
    number: u32,
    counts: &LinkCounts,
    facts: &LinkFacts,
) -> Result<String, AllocError>
    ensures { IfOk result (λ lines. string_bytes lines ≡ lines_by number counts.now facts.now) }
{
    let counts = counts_text(alloc, number, counts)?;
    let head = head_text(alloc, number, facts)?;
    let frames = frames_text(alloc, number, facts)?;
    format!(in alloc; "{counts}\n{head}\n{frames}\n")
}

/// The lines of the link of this number of a film.
fn link_lines(alloc: Global, film: &Film, number: u32) -> Result<String, AllocError>
    requires there { number < length film.now.links }
    requires index { Indexes (map rows_of film.now.links) film.now.index }
    ensures { IfOk result (λ lines. option_map (λ (link : FilmLink). link_lines (number, link))
        (slice_get film.now.links number) ≡ Some (string_bytes lines)) }
{
    let counts = film.counts(number);
    let facts = film.index().link(number);
    lines_by(alloc, number, &counts, &facts)
}

/// The lines of all links of a film.
fn links_text(alloc: Global, film: &Film) -> Result<String, AllocError>
    requires { Indexes (map rows_of film.now.links) film.now.index }
    ensures { IfOk result (λ text. string_bytes text
        ≡ flat_map link_lines (enumerate_from 0 film.now.links)) }
{
    let links = film.index().links();
    let mut text = String::new(alloc);
    for number in 0..links {
        let lines = link_lines(alloc, film, number)?;
        text.push_str(&lines)?;
    }
    Ok(text)
}

/// The last line: how many frames a film's line has.
fn total_line(alloc: Global, total: u64) -> Result<String, AllocError>
    ensures { IfOk result (λ line. string_bytes line ≡ total_line total) }
{
    format!(in alloc; "total {total}\n")
}

/// What `info` writes of a film.
pub fn info_text(alloc: Global, film: &Film) -> Result<String, AllocError>
    requires { Indexes (map rows_of film.now.links) film.now.index }
    ensures { IfOk result (λ text. string_bytes text ≡ info_text film.now.links) }
{
    let mut text = links_text(alloc, film)?;
    let total = total_line(alloc, film.index().total())?;
    text.push_str(&total)?;
    Ok(text)
}
