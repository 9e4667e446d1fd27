ghost use Rattle.std.specs.Prelude.{◌≡◌, None, Some, [], ◌∷◌, ◌++◌, length, IfOk, OnOk, OnErr};
ghost use Rattle.std.specs.Iterator.{YieldsFirst, item_count};
ghost use Rattle.model_line.specs.KeptRows.{next_mark, marks_behind};

use crate::row::{Row, RowKind};
use memory::NoMemory;
use model_ogg::Mark;
use std::alloc::Global;
use std::marker::Model;

/// What is kept of a row beside its mark.
#[derive(Clone, Copy, Debug)]
struct KeptRow {
    kind: RowKind,
    /// The row has a mark, which stands apart.
    is_marked: bool,
}

/// The entries of a link, in order. Contracts see the list of them. Few have a mark, so the marks
/// stand apart, and a row takes three bytes beside its mark.
#[derive(Debug, Drop)]
pub struct Rows {
    kept: Vec<KeptRow>,
    /// The marks of the rows that have one, in order.
    marks: Vec<Mark>,
}

impl Model for Rows {
    ghost use Rattle.std.specs.Prelude.{◌≡◌, List, count_by, length};
    ghost use Rattle.model_line.specs.declared.row.Row.{Row};

    ghost Value = { List Row };

    ghost use Rattle.model_line.specs.KeptRows.{kept_rows};

    ghost view = { λ r. kept_rows r.kept.items r.marks.items };

    ghost invariant = { λ r. count_by (λ k. k.is_marked) r.kept.items ≡ length r.marks.items };
}

/// The rows of a link that are still to come, in order. Contracts see the list of them.
#[derive(Drop)]
pub struct RowsIter<'a> {
    kept: &'a [KeptRow],
    marks: &'a [Mark],
}

impl<'a> Model for RowsIter<'a> {
    ghost use Rattle.std.specs.Prelude.{List};
    ghost use Rattle.model_line.specs.declared.row.Row.{Row};

    ghost Value = { List Row };

    ghost use Rattle.model_line.specs.KeptRows.{kept_rows};

    ghost view = { λ r. kept_rows r.kept.now r.marks.now };
}

impl Rows {
    /// No rows, with memory for so many without a mark.
    ///
    /// # Errors
    ///
    /// Where no memory is found for them.
    pub fn with_capacity(alloc: Global, capacity: usize) -> Result<Rows, NoMemory>
        ensures { IfOk result (λ rows. rows ≡ []) }
    {
        Ok(Rows {
            kept: Vec::with_capacity(alloc, capacity)?,
            marks: Vec::new(alloc),
        })
    }

    /// Adds a row without a mark at the end.
    #[inline(always)]
    fn push_unmarked(&mut self, kind: RowKind) -> Result<(), NoMemory>
        ensures ok { OnOk result
            (self.new ≡ self.old ++ record { kind = kind; mark = None } ∷ []) }
        ensures err { OnErr result (self.new ≡ self.old) }
    {
        self.kept.push(KeptRow {
            kind,
            is_marked: false,
        })?;
        Ok(())
    }

    /// Adds a row with a mark at the end.
    fn push_marked(&mut self, kind: RowKind, mark: Mark) -> Result<(), NoMemory>
        ensures ok { OnOk result
            (self.new ≡ self.old ++ record { kind = kind; mark = Some mark } ∷ []) }
        ensures err { OnErr result (self.new ≡ self.old) }
    {
        self.marks.push(mark)?;
        let kept = KeptRow {
            kind,
            is_marked: true,
        };
        match self.kept.push(kept) {
            Ok(()) => Ok(()),
            Err(fault) => {
                self.marks.pop();
                Err(NoMemory::from(fault))
            }
        }
    }

    /// Adds a row at the end.
    ///
    /// # Errors
    ///
    /// Where no memory is found for it: the rows stay as they were.
    #[inline(always)]
    pub fn push(&mut self, row: Row) -> Result<(), NoMemory>
        ensures ok { OnOk result (self.new ≡ self.old ++ row ∷ []) }
        ensures err { OnErr result (self.new ≡ self.old) }
    {
        match row.mark {
            None => self.push_unmarked(row.kind),
            Some(mark) => self.push_marked(row.kind, mark),
        }
    }

    /// These rows, in order. Their marks stand apart, so that no list of rows can be taken over as
    /// it is, and memory is taken for what is kept of each.
    ///
    /// # Errors
    ///
    /// Where no memory is found for them.
    pub fn of(alloc: Global, items: &[Row]) -> Result<Rows, NoMemory>
        ensures { IfOk result (λ rows. rows ≡ items.now) }
    {
        let mut rows = Rows::with_capacity(alloc, items.len())?;
        for row in items {
            rows.push(*row)?;
        }
        Ok(rows)
    }

    /// How many rows there are.
    pub fn len(&self) -> usize
        ensures { result ≡ length self.now }
    {
        self.kept.len()
    }

    /// The rows, in order. They are put together one at a time, so that none can be lent.
    pub fn iter(&self) -> RowsIter<'_>
        ensures { result ≡ self.now }
    {
        RowsIter {
            kept: &self.kept,
            marks: &self.marks,
        }
    }
}

/// The mark of a row that has one or none, and those of the rows behind it, where these are the
/// marks of the rows from it on.
#[inline(always)]
fn split_marks<'a>(is_marked: bool, marks: &'a [Mark]) -> (Option<Mark>, &'a [Mark])
    ensures mark { result.0 ≡ next_mark is_marked marks.now }
    ensures behind { result.1.now ≡ marks_behind is_marked marks.now }
{
    if !is_marked {
        return (None, marks);
    }
    match marks.split_first() {
        Some((mark, behind)) => (Some(*mark), behind),
        None => (None, marks),
    }
}

impl<'a> Iterator for RowsIter<'a> {
    type Item = Row;

    ghost next_gives = { YieldsFirst (λ rows. rows) };

    ghost remaining = { item_count (λ rows. rows) };

    #[inline(always)]
    fn next(&mut self) -> Option<Row> {
        let (first, kept) = self.kept.split_first()?;
        let (mark, marks) = split_marks(first.is_marked, self.marks);
        self.kept = kept;
        self.marks = marks;
        Some(Row {
            kind: first.kind,
            mark,
        })
    }
}

#[cfg(test)]
mod tests {
    use super::*;
    use std::test::Fail;

    /// A row with a mark.
    fn marked(kind: RowKind, granule: u64, last: bool) -> Row {
        Row {
            kind,
            mark: Some(Mark { granule, last }),
        }
    }

    /// A row without one.
    fn unmarked(kind: RowKind) -> Row {
        Row { kind, mark: None }
    }

    #[test]
    fn gives_back_what_was_put_in(rt: HostRuntime) -> Result<(), Fail> {
        let added = [
            unmarked(RowKind::Lost),
            marked(RowKind::Block { long: true }, 7, false),
            unmarked(RowKind::Block { long: false }),
            marked(RowKind::Skip, 9, false),
            marked(RowKind::Bad, u64::MAX, true),
            unmarked(RowKind::Bad),
        ];
        let rows = Rows::of(rt.alloc(), &added)?;
        assert_eq!(rt; rows.len(), added.len());
        let read: Vec<Row> = rows.iter().collect(rt.alloc())?;
        assert_eq!(rt; read.as_slice(), added.as_slice());
        Ok(())
    }
}
