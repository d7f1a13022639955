//! In which writes a text goes out, and what is left where one fails.
ghost use Rattle.std.specs.Prelude.{◌≡◌, None};
ghost use Rattle.desk_port.specs.MemDesk.{state_of};

use crate::checks::check;
use crate::desks::desk_with;
use desk_port::{Desk, MemDesk, Pieces, PutErr};
use std::alloc::{AllocError, Global};
use std::test::*;

/// A text of so many bytes, which is put in two parts, the first of so many, and the sizes of its writes.
struct Row {
    count: usize,
    first: usize,
    sizes: &'static [u64],
}

static ROWS: [Row; 8] = [
    Row {
        count: 0,
        first: 0,
        sizes: &[],
    },
    Row {
        count: 1,
        first: 0,
        sizes: &[1],
    },
    Row {
        count: 65_535,
        first: 40_000,
        sizes: &[65_535],
    },
    Row {
        count: 65_536,
        first: 65_535,
        sizes: &[65_536],
    },
    Row {
        count: 65_536,
        first: 65_536,
        sizes: &[65_536],
    },
    Row {
        count: 65_537,
        first: 1,
        sizes: &[65_536, 1],
    },
    Row {
        count: 131_072,
        first: 0,
        sizes: &[65_536, 65_536],
    },
    Row {
        count: 200_000,
        first: 70_000,
        sizes: &[65_536, 65_536, 65_536, 3_392],
    },
];

/// Bytes of which neighbours differ, and those a piece apart too.
fn text_of(alloc: Global, count: usize) -> Result<Vec<u8>, AllocError> {
    let mut text = Vec::new(alloc);
    for i in 0..count {
        text.push((i % 251) as u8)?;
    }
    Ok(text)
}

/// Puts the two parts of a text to a file.
fn put(alloc: Global, desk: &mut MemDesk, first: &[u8], second: &[u8]) -> Result<(), PutErr>
    requires { (state_of desk.old).started ≡ None }
{
    desk.start("f")?;
    let mut pieces = Pieces::new(alloc)?;
    pieces.put(desk, first)?;
    pieces.put(desk, second)?;
    pieces.finish(desk)?;
    desk.close()
}

/// Whether the text, put in two parts, leaves so many of its bytes by writes of these sizes; and whether all
/// calls of the desk succeed.
fn leaves(
    alloc: Global,
    fails: &[u64],
    count: usize,
    first: usize,
    left: usize,
    sizes: &[u64],
) -> Result<bool, AllocError> {
    let text = text_of(alloc, count)?;
    if first > text.len() || left > text.len() {
        return Ok(false);
    }
    let (one, two) = text.as_slice().split_at(first);
    let mut desk = desk_with(alloc, &[], fails)?;
    let is_put = put(alloc, &mut desk, one, two).is_ok();
    let (want, _) = text.as_slice().split_at(left);
    Ok(is_put == fails.is_empty() && desk.file("f") == Some(want) && desk.sizes() == sizes)
}

#[test]
fn texts_go_out_in_pieces(rt: HostRuntime) {
    for row in &ROWS {
        let answer = leaves(rt.alloc(), &[], row.count, row.first, row.count, row.sizes);
        check(&rt, "a text", matches!(answer, Ok(true)));
    }
}

/// The calls are the start, two pieces, the rest and the end. Whole pieces stay.
#[test]
fn a_piece_fails(rt: HostRuntime) {
    let second = leaves(rt.alloc(), &[2], 140_000, 70_000, 65_536, &[65_536]);
    check(&rt, "the second piece", matches!(second, Ok(true)));
    let rest = leaves(
        rt.alloc(),
        &[3],
        140_000,
        70_000,
        131_072,
        &[65_536, 65_536],
    );
    check(&rt, "the rest", matches!(rest, Ok(true)));
    let end = leaves(
        rt.alloc(),
        &[4],
        140_000,
        70_000,
        140_000,
        &[65_536, 65_536, 8_928],
    );
    check(&rt, "the end", matches!(end, Ok(true)));
}
