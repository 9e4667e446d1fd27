ghost use Rattle.std.specs.Prelude.{◌≡◌, ◌∷◌, [], IfSome, OnOk, OnErr};
ghost use Rattle.ogg_packets.specs.Pieces.{IsGrown, GrowsLast, AddsPiece};

use memory::NoMemory;
use std::alloc::Global;
use std::marker::Model;
use std::slice;

/// Some neighbouring bytes of a file.
#[derive(Clone, Copy, Debug, PartialEq, Eq)]
pub struct Piece {
    /// The place of the first of them.
    pub place: u64,
    /// How many they are.
    pub len: u32,
}

/// The pieces in which a packet lies, in order. Nearly every packet lies in one, so one piece takes
/// no memory of its own.
#[derive(Debug, Drop)]
pub struct Pieces {
    only: Option<Piece>,
    items: Vec<Piece>,
}

impl Model for Pieces {
    ghost use Rattle.std.specs.Prelude.{List, Some, None};
    ghost use Rattle.ogg_packets.specs.declared.pieces.Piece.{Piece};

    ghost Value = { List Piece };

    ghost use Rattle.ogg_packets.specs.Pieces.{pieces_in};

    ghost view = { λ p. pieces_in p.only p.items.items };
}

impl Pieces {
    /// The list of these pieces. It takes no memory.
    pub fn of(items: Vec<Piece>) -> Self
        ensures { result ≡ items.items }
    {
        Pieces { only: None, items }
    }

    /// The list of one piece. It takes no memory.
    pub fn one(alloc: Global, piece: Piece) -> Self
        ensures { result ≡ piece ∷ [] }
    {
        Pieces {
            only: Some(piece),
            items: Vec::new(alloc),
        }
    }

    /// Adds a piece at the end of the packet. Where it follows the last one in the file, that one
    /// grows. Where no memory is found, the pieces stay as they were.
    pub fn add(&mut self, piece: Piece) -> Result<(), NoMemory>
        ensures added { OnOk result (AddsPiece self.old piece self.new) }
        ensures err { OnErr result (self.new ≡ self.old) }
    {
        match self.only {
            Some(last) => match grown(last, piece) {
                Some(longer) => self.only = Some(longer),
                None => {
                    self.items.clear();
                    self.items.push(last)?;
                    self.items.push(piece)?;
                    self.only = None;
                }
            },
            None => add_to(&mut self.items, piece)?,
        }
        Ok(())
    }

    /// The pieces, in order.
    pub fn items(&self) -> &[Piece]
        ensures { result.now ≡ self.now }
    {
        match &self.only {
            Some(only) => slice::from_ref(only),
            None => &self.items,
        }
    }
}

/// A piece with the bytes of the one that follows it in the file, if that one does.
fn grown(last: Piece, piece: Piece) -> Option<Piece>
    ensures { IfSome result (λ longer. IsGrown last piece longer) }
{
    if piece.place.checked_sub(last.place) != Some(u64::from(last.len)) {
        return None;
    }
    let len = last.len.checked_add(piece.len)?;
    Some(Piece {
        place: last.place,
        len,
    })
}

/// The last of these pieces with the bytes of the one that follows it, if that one does.
fn grown_last(items: &[Piece], piece: Piece) -> Option<Piece>
    ensures { IfSome result (λ longer. GrowsLast items.now piece longer) }
{
    match items {
        [.., last] => grown(*last, piece),
        [] => None,
    }
}

/// Adds a piece at the end of these, or to the last of them, if it follows that one.
fn add_to(items: &mut Vec<Piece>, piece: Piece) -> Result<(), NoMemory>
    ensures added { OnOk result (AddsPiece items.old.items piece items.new.items) }
    ensures err { OnErr result (items.new.items ≡ items.old.items) }
{
    match grown_last(items, piece) {
        Some(longer) => {
            let last = items.len() - 1;
            items[last] = longer;
        }
        None => items.push(piece)?,
    }
    Ok(())
}
