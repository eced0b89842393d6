//! Quiet RAM of a board: that which only a program writes.

ghost use Rattle.std.specs.Prelude.{◌≡◌, ◌≤◌, ◌+◌, ◌≢◌, ◌∷◌, [], IfOk, IfSome};
ghost use Rattle.board80.specs.Board.{interrupts_of};
ghost use Rattle.plm80_boards.specs.Quiet.{AreInRam, IsQuietIn, AreWithin};

use crate::given_board::GivenBoard;
use board80::{Board, Kind};
use image80::{Range, Regions};
use std::alloc::{AllocError, Global};

impl GivenBoard {
    /// The RAM that only a program writes which takes no interrupts: the board's as far as it is data, but none if the board has
    /// interrupts; without a board `named`. `AllocError` only if memory runs out.
    pub fn quiet(
        &self,
        alloc: Global,
        regions: &Regions,
        named: Vec<Range>,
    ) -> Result<Vec<Range>, AllocError>
        ensures { IfOk result (λ quiet. IsQuietIn self.now.board regions.now named.items quiet.items) }
    {
        match &self.board {
            None => Ok(named),
            Some(board) => quiet_of(alloc, board, regions),
        }
    }
}

/// The RAM of a board as far as it is data; none if the board has interrupts.
fn quiet_of(alloc: Global, board: &Board, regions: &Regions) -> Result<Vec<Range>, AllocError>
    ensures ram { IfOk result (λ quiet. AreInRam board.now regions.now quiet.items) }
    ensures none { IfOk result (λ quiet. interrupts_of board.now ≢ [] → quiet.items ≡ []) }
{
    if board.interrupts(alloc)?.is_empty() {
        quiet_outside(alloc, board, regions, &[])
    } else {
        Ok(Vec::new(alloc))
    }
}

/// The RAM of a board as far as it is data, without what is written by others, in `writes`.
///
/// # Errors
/// `AllocError` only if memory runs out.
pub fn quiet_outside(
    alloc: Global,
    board: &Board,
    regions: &Regions,
    writes: &[Range],
) -> Result<Vec<Range>, AllocError>
    ensures { IfOk result (λ quiet. AreInRam board.now regions.now quiet.items) }
{
    let ram = board.ranges(alloc, Kind::Ram)?;
    let mut quiet = shared_ranges(alloc, &ram, regions.data_ranges())?;
    for write in writes {
        quiet = ranges_outside(alloc, &quiet, *write)?;
    }
    Ok(quiet)
}

/// The parts of ranges that lie in others.
fn shared_ranges(
    alloc: Global,
    ranges: &[Range],
    others: &[Range],
) -> Result<Vec<Range>, AllocError>
    ensures own { IfOk result (λ shared. AreWithin shared.items ranges.now) }
    ensures others { IfOk result (λ shared. AreWithin shared.items others.now) }
{
    let mut shared = Vec::new(alloc);
    for range in ranges {
        let own = parts_inside(alloc, *range, others)?;
        shared.extend_from_slice(&own)?;
    }
    Ok(shared)
}

/// The parts of a range that lie in others.
fn parts_inside(alloc: Global, range: Range, others: &[Range]) -> Result<Vec<Range>, AllocError>
    ensures own { IfOk result (λ parts. AreWithin parts.items (range ∷ [])) }
    ensures others { IfOk result (λ parts. AreWithin parts.items others.now) }
{
    let mut parts = Vec::new(alloc);
    for other in others {
        if let Some(part) = shared_range(range, *other) {
            parts.push(part)?;
        }
    }
    Ok(parts)
}

/// The parts of ranges that lie outside another one.
fn ranges_outside(alloc: Global, ranges: &[Range], other: Range) -> Result<Vec<Range>, AllocError>
    ensures { IfOk result (λ outside. AreWithin outside.items ranges.now) }
{
    let mut outside = Vec::new(alloc);
    for range in ranges {
        let own = parts_outside(alloc, *range, other)?;
        outside.extend_from_slice(&own)?;
    }
    Ok(outside)
}

/// The parts of a range that lie outside another one: before it and behind it.
fn parts_outside(alloc: Global, range: Range, other: Range) -> Result<Vec<Range>, AllocError>
    ensures { IfOk result (λ parts. AreWithin parts.items (range ∷ [])) }
{
    let mut parts = Vec::new(alloc);
    if let Some(before) = part_before(range, other) {
        parts.push(before)?;
    }
    if let Some(behind) = part_behind(range, other) {
        parts.push(behind)?;
    }
    Ok(parts)
}

/// The addresses that two ranges share; `None` if they share none.
fn shared_range(one: Range, other: Range) -> Option<Range>
    ensures own { IfSome result (λ shared. AreWithin (shared ∷ []) (one ∷ [])) }
    ensures other { IfSome result (λ shared. AreWithin (shared ∷ []) (other ∷ [])) }
{
    let first = u32::from(one.first).max(u32::from(other.first));
    range_between(first, end_of(one).min(end_of(other)))
}

/// The part of a range that lies below another one; `None` if there is none.
fn part_before(range: Range, other: Range) -> Option<Range>
    ensures { IfSome result (λ part. AreWithin (part ∷ []) (range ∷ [])) }
{
    range_between(
        u32::from(range.first),
        end_of(range).min(u32::from(other.first)),
    )
}

/// The part of a range that lies above another one; `None` if there is none.
fn part_behind(range: Range, other: Range) -> Option<Range>
    ensures { IfSome result (λ part. AreWithin (part ∷ []) (range ∷ [])) }
{
    range_between(u32::from(range.first).max(end_of(other)), end_of(range))
}

/// The range from an address up to another one, which isn't its own; `None` if it would be empty or begin past memory.
fn range_between(first: u32, end: u32) -> Option<Range>
    requires { end ≤ first + 65535 }
    ensures first { IfSome result (λ range. range.first ≡ first) }
    ensures end { IfSome result (λ range. range.first + range.length ≡ end) }
{
    if first < end && first < 65_536 {
        Some(Range {
            first: first as u16,
            length: (end - first) as u16,
        })
    } else {
        None
    }
}

/// The first address past a range.
fn end_of(range: Range) -> u32
    ensures { result ≡ range.first + range.length }
{
    u32::from(range.first) + u32::from(range.length)
}
