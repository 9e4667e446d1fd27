ghost use Rattle.std.specs.Prelude.{◌≡◌, ◌≤◌, ◌<◌, ◌^◌, ◌+◌, ◌-◌, ℕ, length, slice_index_or, List, Option, Some, None, IfSome, IfNone, IfOk, OnOk, IfErr, ◌++◌, ◌∷◌, []};
ghost use Rattle.std.specs.List.{All, AllPairs};
ghost use Rattle.std.specs.Option.{ok_or};
ghost use Rattle.memory.specs.Answers.{Answers};
ghost use Rattle.model_setup.specs.Codewords.{size_of, is_right, filled, words_behind, book_words, IsPlaced, AreApart};
ghost use Rattle.codebooks.specs.Books.{IsTree, words_or_none};
ghost use Rattle.codebooks.specs.Free.{FreeAt, Claim, Spaces, IsLength, IsLengthIfUsed};

use model_setup::{BookFault, ENTRY_LIMIT, Word};
use std::alloc::Global;

/// How many of the numbers below 2^32 belong to a codeword of this length.
#[tactic(auto, unfolding(model_setup::specs::Codewords::size_of))]
pub fn size_of(len: u32) -> u64
    ensures { result ≡ size_of len }
{
    1 << (32 - len.min(32))
}

/// The free interval for a codeword of length `len`, or for the longest shorter one that has one.
fn nearest(free: &[Option<u32>], len: usize) -> Option<(usize, u32)>
    requires { len < length free.now }
    ensures none { IfNone result ((z : ℕ) → z ≤ len → slice_index_or free.now z None ≡ None) }
    ensures near { IfSome result (λ p. p.0 ≤ len) }
    ensures was { IfSome result (λ p. FreeAt free.now p.0 p.1) }
    ensures between { IfSome result (λ p. (y : ℕ) → p.0 < y → y ≤ len
        → slice_index_or free.now y None ≡ None) }
{
    let mut count = len + 1;
    while count > 0 {
        let level = count - 1;
        if let Some(start) = free[level] {
            return Some((level, start));
        }
        count = level;
    }
    None
}

/// Leaves free the intervals behind a word: one of each size below that of the interval that it
/// was taken from, down to its own.
fn leave(free: &mut [Option<u32>], level: usize, len: usize, start: u32)
    requires levels { len < length free.old }
    requires small { len ≤ 32 }
    requires near { level ≤ len }
    requires within { start + size_of level ≤ 2 ^ 32 }
    ensures left { (y : ℕ) → level < y → y ≤ len → FreeAt free.new y (start + size_of y) }
    ensures larger { (y : ℕ) → y ≤ level
        → slice_index_or free.new y None ≡ slice_index_or free.old y None }
    ensures smaller { (y : ℕ) → len < y
        → slice_index_or free.new y None ≡ slice_index_or free.old y None }
{
    for y in level + 1..len + 1 {
        free[y] = Some(start + size_of(y as u32) as u32);
    }
}

/// Takes the place of a word of this length from what is free.
fn claim(free: &mut [Option<u32>], len: u8) -> Option<u32>
    requires levels { length free.old ≡ 33 }
    requires small { len ≤ 32 }
    requires within { (z s : ℕ) → FreeAt free.old z s → s + size_of z ≤ 2 ^ 32 }
    ensures none { IfNone result ((z : ℕ) → z ≤ len → slice_index_or free.old z None ≡ None) }
    ensures claimed { IfSome result (λ start. Claim free.old free.new len start) }
{
    let (level, start) = nearest(free, usize::from(len))?;
    free[level] = None;
    leave(free, level, usize::from(len), start);
    Some(start)
}

/// Adds the word of an entry.
fn add_word(
    free: &mut [Option<u32>],
    words: &mut Vec<Word>,
    entry: u32,
    len: u8,
) -> Result<(), BookFault>
    requires levels { length free.old ≡ 33 }
    requires small { IsLength len }
    requires spaces { Spaces words.old.items free.old }
    requires below { All (λ w. w.entry < entry) words.old.items }
    ensures added { Answers BookFault.Memory (λ _. words.new.items) result
        (ok_or (words_behind words.old.items entry (Some len ∷ [])) BookFault.Tree) }
    ensures spaces { OnOk result (Spaces words.new.items free.new) }
    ensures below { OnOk result (All (λ w. w.entry < entry + 1) words.new.items) }
    ensures count { OnOk result (length words.new.items ≡ length words.old.items + 1) }
{
    let Some(start) = claim(free, len) else {
        return Err(BookFault::Tree);
    };
    words.push(Word { entry, len, start })?;
    Ok(())
}

/// Adds the word of an entry, if it is used.
#[tactic(auto, unfolding(model_setup::specs::Codewords::words_behind))]
fn add_entry(
    free: &mut [Option<u32>],
    words: &mut Vec<Word>,
    entry: u32,
    entry_len: Option<u8>,
) -> Result<(), BookFault>
    requires levels { length free.old ≡ 33 }
    requires small { IsLengthIfUsed entry_len }
    requires spaces { Spaces words.old.items free.old }
    requires below { All (λ w. w.entry < entry) words.old.items }
    ensures added { Answers BookFault.Memory (λ _. words.new.items) result
        (ok_or (words_behind words.old.items entry (entry_len ∷ [])) BookFault.Tree) }
    ensures spaces { OnOk result (Spaces words.new.items free.new) }
    ensures below { OnOk result (All (λ w. w.entry < entry + 1) words.new.items) }
    ensures count { OnOk result (length words.new.items ≤ length words.old.items + 1) }
{
    if let Some(len) = entry_len {
        add_word(free, words, entry, len)?;
    }
    Ok(())
}

/// Each used entry's word, in order.
fn all_words(alloc: Global, lengths: &[Option<u8>]) -> Result<Vec<Word>, BookFault>
    requires count { length lengths.now < ENTRY_LIMIT }
    requires small { All IsLengthIfUsed lengths.now }
    ensures words { Answers BookFault.Memory (λ v. v.items) result
        (ok_or (words_behind [] 0 lengths.now) BookFault.Tree) }
    ensures count { IfOk result (λ v. length v.items ≤ length lengths.now) }
    ensures below { IfOk result (λ v. All (λ w. w.entry < length lengths.now) v.items) }
    ensures placed { IfOk result (λ v. All IsPlaced v.items) }
    ensures apart { IfOk result (λ v. AllPairs AreApart v.items) }
{
    let mut free = [None; 33];
    free[0] = Some(0);
    let mut words = Vec::new(alloc);
    for i in 0..lengths.len() {
        add_entry(&mut free, &mut words, i as u32, lengths[i])?;
    }
    Ok(words)
}

/// How many numbers belong to one of the words.
#[tactic(auto, unfolding(model_setup::specs::Codewords::filled))]
fn filled(words: &[Word]) -> u64
    requires { length words.now < ENTRY_LIMIT }
    ensures { result ≡ filled words.now }
{
    let mut sum = 0;
    for word in words {
        sum += size_of(u32::from(word.len));
    }
    sum
}

/// Whether a book may have these words.
fn is_right(words: &[Word]) -> bool
    requires { length words.now < ENTRY_LIMIT }
    ensures { result ≡ is_right words.now }
{
    match words {
        [] => true,
        [word] => word.len == 1,
        _ => filled(words) == 1 << 32,
    }
}

/// The words of a book whose entries have these lengths, in the entries' order.
#[tactic(auto, unfolding(model_setup::specs::Codewords::book_words))]
fn book_words(alloc: Global, lengths: &[Option<u8>]) -> Result<Vec<Word>, BookFault>
    requires count { length lengths.now < ENTRY_LIMIT }
    requires small { All IsLengthIfUsed lengths.now }
    ensures words { Answers BookFault.Memory (λ v. v.items) result
        (ok_or (book_words lengths.now) BookFault.Tree) }
    ensures below { IfOk result (λ v. All (λ w. w.entry < length lengths.now) v.items) }
    ensures placed { IfOk result (λ v. All IsPlaced v.items) }
    ensures apart { IfOk result (λ v. AllPairs AreApart v.items) }
{
    let words = all_words(alloc, lengths)?;
    if is_right(&words) {
        Ok(words)
    } else {
        Err(BookFault::Tree)
    }
}

/// The words of a book whose entries have these lengths, in order of their intervals.
pub fn codewords(alloc: Global, lengths: &[Option<u8>]) -> Result<Vec<Word>, BookFault>
    requires count { length lengths.now < ENTRY_LIMIT }
    requires small { All IsLengthIfUsed lengths.now }
    ensures tree { IfOk result (λ v. IsTree lengths.now v.items) }
    ensures words { Answers BookFault.Memory (λ _. words_or_none (book_words lengths.now)) result
        (ok_or (book_words lengths.now) BookFault.Tree) }
{
    let mut words = book_words(alloc, lengths)?;
    words.sort_unstable_by_key(|w| w.start);
    Ok(words)
}
