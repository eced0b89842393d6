//! The points of a way, a line each.

ghost use Rattle.std.specs.Prelude.{◌≡◌, ◌<◌, ◌≤◌, ◌∷◌, ◌++◌, OnOk, drop, length, position, take};
ghost use Rattle.std.specs.List.{flat_map, position_or_len};
ghost use Rattle.verify80_explain_text.specs.Explained.{has_other_frame, left_out, point_line, run_text, runs_of, way_text};

use crate::frame::append_frame;
use crate::instruction::append_instruction;
use frames80::Frame;
use image80_text::{PublicTable, append_label};
use std::alloc::{AllocError, Global};
use verify80::ImageCode;
use verify80_walks::Point;

/// The greatest number of points in a row with one frame that are all shown.
const LONG_RUN: usize = 40;

/// How many points of a longer row are shown at its beginning, and as many at its end.
const SHOWN: usize = 20;

/// Appends a line for each point of a way. Of more than `LONG_RUN` points in a row with one frame
/// those in the middle are counted instead.
pub(crate) fn append_way(
    alloc: Global,
    text: &mut Vec<u8>,
    code: &ImageCode<'_>,
    publics: &PublicTable,
    way: &[Point],
) -> Result<(), AllocError>
    ensures { OnOk result (text.new.items ≡ text.old.items ++ way_text code.now publics.now way.now) }
{
    let mut rest = way;
    while !rest.is_empty() {
        let (run, after) = rest.split_at(first_run(rest));
        append_run(alloc, text, code, publics, run)?;
        rest = after;
    }
    Ok(())
}

/// How many points at the beginning of a way have the same frame as the first; at least 1. The way
/// must have a point.
fn first_run(way: &[Point]) -> usize
    requires { 0 < length way.now }
    ensures run { runs_of way.now ≡ take result way.now ∷ runs_of (drop result way.now) }
    ensures some { 0 < result }
    ensures within { result ≤ length way.now }
{
    1 + same_ahead(&way[1..], &way[0].frame)
}

/// How many points at the beginning of a way have this frame.
fn same_ahead(way: &[Point], frame: &Frame) -> usize
    ensures value { result ≡ position_or_len (has_other_frame frame.now) way.now }
    ensures within { result ≤ length way.now }
{
    match other_frame(way, frame) {
        Some(count) => count,
        None => way.len(),
    }
}

/// The index of the first point whose frame isn't this one; `None` if there is none.
fn other_frame(way: &[Point], frame: &Frame) -> Option<usize>
    ensures { result ≡ position (has_other_frame frame.now) way.now }
{
    way.iter().position(|point| has_other_frame(point, frame))
}

/// Whether the point's frame differs from this one.
fn has_other_frame(point: &Point, frame: &Frame) -> bool
    ensures { result ≡ has_other_frame frame.now point.now }
{
    *frame != point.frame
}

/// Appends the lines of a row of points with one frame; in the middle of a long row, how many are
/// left out.
fn append_run(
    alloc: Global,
    text: &mut Vec<u8>,
    code: &ImageCode<'_>,
    publics: &PublicTable,
    run: &[Point],
) -> Result<(), AllocError>
    ensures { OnOk result (text.new.items ≡ text.old.items ++ run_text code.now publics.now run.now) }
{
    if run.len() <= LONG_RUN {
        return append_points(alloc, text, code, publics, run);
    }
    append_points(alloc, text, code, publics, &run[..SHOWN])?;
    append_left_out(alloc, text, run.len() - 2 * SHOWN)?;
    append_points(alloc, text, code, publics, &run[run.len() - SHOWN..])
}

/// Appends the line that says how many instructions aren't shown.
fn append_left_out(alloc: Global, text: &mut Vec<u8>, count: usize) -> Result<(), AllocError>
    ensures { OnOk result (text.new.items ≡ text.old.items ++ left_out count) }
{
    let line = format!(in alloc; ".. {count} instructions that leave the stack as it is ..\n")?;
    text.extend_from_slice(line.as_bytes())
}

/// Appends a line for each point.
fn append_points(
    alloc: Global,
    text: &mut Vec<u8>,
    code: &ImageCode<'_>,
    publics: &PublicTable,
    points: &[Point],
) -> Result<(), AllocError>
    ensures { OnOk result (text.new.items ≡ text.old.items ++ flat_map (point_line code.now publics.now) points.now) }
{
    for point in points {
        append_point(alloc, text, code, publics, point)?;
    }
    Ok(())
}

/// Appends the line of a point, and above it a line with the name of its address, if it has one.
fn append_point(
    alloc: Global,
    text: &mut Vec<u8>,
    code: &ImageCode<'_>,
    publics: &PublicTable,
    point: &Point,
) -> Result<(), AllocError>
    ensures { OnOk result (text.new.items ≡ text.old.items ++ point_line code.now publics.now point.now) }
{
    append_label(publics, point.at, text)?;
    append_instruction(alloc, text, code, point.at)?;
    append_frame(alloc, text, &point.frame)?;
    text.push(b'\n')?;
    Ok(())
}
