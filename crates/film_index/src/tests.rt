ghost use Rattle.std.specs.Prelude.{◌≡◌, ◌≤◌, IfOk, length};
ghost use Rattle.film_index.specs.Bounds.{FitsLink};

use super::*;
use memory::NoMemory;
use std::alloc::Global;
use std::test::Fail;

const SHORT: RowKind = RowKind::Block { long: false };

const LONG: RowKind = RowKind::Block { long: true };

/// An entry without a mark, with a mark of this granule position, or with the mark of a last page.
macro_rules! row {
    ($kind:expr) => {
        Row {
            kind: $kind,
            mark: None,
        }
    };
    ($kind:expr, $granule:expr) => {
        Row {
            kind: $kind,
            mark: Some(Mark {
                granule: $granule,
                last: false,
            }),
        }
    };
    ($kind:expr, $granule:expr, last) => {
        Row {
            kind: $kind,
            mark: Some(Mark {
                granule: $granule,
                last: true,
            }),
        }
    };
}

/// A film of one link with blocks of 64 and 256, and what its index says.
struct Case {
    name: &'static str,
    rows: &'static [Row],
    /// The number of the block, and the frames from one number to another.
    spans: &'static [(u32, u32, u32)],
    total: u64,
    gaps: u32,
}

static CASES: [Case; 16] = [
    Case {
        name: "a page that is first and last is cut at the end alone",
        rows: &[row!(SHORT), row!(SHORT), row!(SHORT, 40, last)],
        spans: &[(0, 0, 32), (1, 0, 8)],
        total: 40,
        gaps: 0,
    },
    Case {
        name: "a first page that says less than its frames is cut at the front",
        rows: &[
            row!(SHORT),
            row!(SHORT),
            row!(SHORT, 20),
            row!(SHORT, 52, last),
        ],
        spans: &[(1, 12, 32), (2, 0, 32)],
        total: 52,
        gaps: 0,
    },
    Case {
        name: "a lost page parts its neighbours",
        rows: &[
            row!(SHORT),
            row!(SHORT),
            row!(RowKind::Lost),
            row!(SHORT),
            row!(SHORT),
        ],
        spans: &[(0, 0, 32), (2, 0, 32)],
        total: 64,
        gaps: 1,
    },
    Case {
        name: "a bad packet parts its neighbours",
        rows: &[
            row!(SHORT),
            row!(SHORT),
            row!(RowKind::Bad),
            row!(SHORT),
            row!(SHORT),
        ],
        spans: &[(0, 0, 32), (2, 0, 32)],
        total: 64,
        gaps: 1,
    },
    Case {
        name: "a skipped packet does not",
        rows: &[row!(SHORT), row!(RowKind::Skip), row!(SHORT)],
        spans: &[(0, 0, 32)],
        total: 32,
        gaps: 0,
    },
    Case {
        name: "a last page at 0 leaves no frame",
        rows: &[row!(SHORT), row!(SHORT), row!(SHORT, 0, last)],
        spans: &[],
        total: 0,
        gaps: 0,
    },
    Case {
        name: "a last page beyond the frames cuts nothing",
        rows: &[row!(SHORT), row!(SHORT), row!(SHORT, 1000, last)],
        spans: &[(0, 0, 32), (1, 0, 32)],
        total: 64,
        gaps: 0,
    },
    Case {
        name: "no mark cuts nothing",
        rows: &[row!(SHORT), row!(SHORT), row!(SHORT)],
        spans: &[(0, 0, 32), (1, 0, 32)],
        total: 64,
        gaps: 0,
    },
    Case {
        name: "the mark of a skipped packet counts",
        rows: &[
            row!(SHORT),
            row!(SHORT),
            row!(RowKind::Skip, 20),
            row!(SHORT),
        ],
        spans: &[(0, 12, 32), (1, 0, 32)],
        total: 52,
        gaps: 0,
    },
    Case {
        name: "the mark of a bad packet counts",
        rows: &[
            row!(SHORT),
            row!(SHORT),
            row!(RowKind::Bad, 10, last),
            row!(SHORT),
            row!(SHORT),
        ],
        spans: &[(0, 0, 10), (2, 0, 32)],
        total: 42,
        gaps: 1,
    },
    Case {
        name: "a last page below the one before takes all frames between them",
        rows: &[
            row!(SHORT),
            row!(SHORT, 32),
            row!(SHORT),
            row!(SHORT, 20, last),
        ],
        spans: &[(0, 0, 32)],
        total: 32,
        gaps: 0,
    },
    Case {
        name: "a gap stays where all frames go",
        rows: &[
            row!(SHORT),
            row!(LONG),
            row!(RowKind::Lost),
            row!(SHORT),
            row!(SHORT, 0, last),
        ],
        spans: &[],
        total: 0,
        gaps: 1,
    },
    Case {
        name: "a short block before a short one",
        rows: &[row!(SHORT), row!(SHORT)],
        spans: &[(0, 0, 32)],
        total: 32,
        gaps: 0,
    },
    Case {
        name: "a short block before a long one",
        rows: &[row!(SHORT), row!(LONG)],
        spans: &[(0, 0, 80)],
        total: 80,
        gaps: 0,
    },
    Case {
        name: "a long block before a short one",
        rows: &[row!(LONG), row!(SHORT)],
        spans: &[(0, 0, 80)],
        total: 80,
        gaps: 0,
    },
    Case {
        name: "a long block before a long one",
        rows: &[row!(LONG), row!(LONG)],
        spans: &[(0, 0, 128)],
        total: 128,
        gaps: 0,
    },
];

/// A link with blocks of 64 and 256 and the first hundred of these entries.
fn link_of(alloc: Global, rows: &[Row]) -> Result<LinkRows, NoMemory>
    ensures sizes { IfOk result FitsLink }
    ensures few { IfOk result (λ link. length link.rows ≤ 100) }
{
    let rows = &rows[..rows.len().min(100)];
    Ok(LinkRows {
        channels: 1,
        rate: 8000,
        short: 64,
        long: 256,
        rows: Rows::of(alloc, rows)?,
    })
}

/// The index of a film of one link with these entries.
#[tactic(auto, using(crate::proofs::Films::one_link))]
fn index_of(alloc: Global, rows: &[Row]) -> Result<Index, NoMemory> {
    let link = link_of(alloc, rows)?;
    let mut links = Vec::new(alloc);
    links.push(link)?;
    Index::build(alloc, links)
}

/// The blocks and frames of an index's spans.
fn spans_of(alloc: Global, index: &Index) -> Result<Vec<(u32, u32, u32)>, NoMemory> {
    let mut spans = Vec::new(alloc);
    for item in index.items() {
        if let Item::Span(span) = item {
            spans.push((span.block, span.from, span.to))?;
        }
    }
    Ok(spans)
}

#[test]
fn indexes_of_one_link(rt: HostRuntime) -> Result<(), Fail> {
    for case in &CASES {
        let index = index_of(rt.alloc(), case.rows)?;
        let spans = spans_of(rt.alloc(), &index)?;
        assert_eq!(rt; spans.as_slice(), case.spans, "{}", case.name);
        assert_eq!(rt; index.total(), case.total, "{}", case.name);
        assert_eq!(rt; index.links(), 1, "{}", case.name);
        assert_eq!(rt; index.link(0).frames, case.total, "{}", case.name);
        assert_eq!(rt; index.link(0).gaps, case.gaps, "{}", case.name);
    }
    Ok(())
}

/// The index of a film of two links with these entries.
#[tactic(auto, using(crate::proofs::Films::two_links))]
fn index_of_two(alloc: Global, first: &[Row], second: &[Row]) -> Result<Index, NoMemory> {
    let first = link_of(alloc, first)?;
    let second = link_of(alloc, second)?;
    let mut links = Vec::new(alloc);
    links.push(first)?;
    links.push(second)?;
    Index::build(alloc, links)
}

#[test]
fn numbers_go_on_from_link_to_link(rt: HostRuntime) -> Result<(), Fail> {
    let first = [row!(SHORT), row!(SHORT), row!(RowKind::Bad)];
    let second = [row!(RowKind::Lost), row!(SHORT), row!(LONG)];
    let index = index_of_two(rt.alloc(), &first, &second)?;
    let items = [
        Item::Span(Span {
            link: 0,
            block: 0,
            from: 0,
            to: 32,
            start: 0,
        }),
        Item::Gap {
            link: 0,
            kind: GapKind::Bad,
        },
        Item::Gap {
            link: 1,
            kind: GapKind::Lost,
        },
        Item::Span(Span {
            link: 1,
            block: 2,
            from: 0,
            to: 80,
            start: 32,
        }),
    ];
    assert_eq!(rt; index.items(), items.as_slice());
    assert_eq!(rt; index.starts(), [0, 32, 32, 32].as_slice());
    assert_eq!(rt; index.total(), 112);
    assert_eq!(rt; index.blocks(), 4);
    Ok(())
}
