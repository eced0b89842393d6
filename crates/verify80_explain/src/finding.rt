//! A search through the points for those that show a refusal. Nothing rests on what it finds.

use crate::evidence::{Clash, Fault, is_clash, is_fault};
use frames80::{Code, slot};
use indexmap::IndexMap;
use std::alloc::{AllocError, Global};
use verify80_flow::Procedure;
use verify80_walks::{Point, Unexplained, call_at, words_taken};

/// Two points of a search, by their numbers.
#[derive(Clone, Copy)]
pub(crate) struct Pair {
    /// The number of the first point.
    pub(crate) one: usize,
    /// The number of the second point.
    pub(crate) other: usize,
}

/// The counts of a point that are compared with those of other points of its procedure.
#[derive(Clone, Copy, PartialEq, Eq)]
struct Count {
    /// The words taken.
    taken: u32,
    /// The words of its own; 0 if returns are compared.
    words: usize,
}

/// Two points of a procedure whose counts differ, as far as they are found.
#[derive(Clone, Copy)]
struct Counts {
    /// The number of the first point.
    first: usize,
    /// The counts of the first point.
    count: Count,
    /// The number of the first point with other counts.
    other: Option<usize>,
}

/// The number of the first point at address `at` whose instruction may not be executed for this
/// reason; `None` if there is none.
pub(crate) fn find_fault<C: Code>(
    alloc: Global,
    program: &C,
    points: &[Point],
    at: u16,
    fault: Fault,
) -> Result<Option<usize>, Unexplained> {
    for number in 0..points.len() {
        if is_fault(alloc, program, &points[number], at, fault)? {
            return Ok(Some(number));
        }
    }
    Ok(None)
}

/// The first two points that show a refusal together in this way, the first of them at address
/// `at`; `None` if none do.
pub(crate) fn find_clash<C: Code>(
    alloc: Global,
    program: &C,
    points: &[Point],
    at: u16,
    clash: Clash,
) -> Result<Option<Pair>, Unexplained> {
    match clash {
        Clash::Heights | Clash::Returns => find_difference(alloc, program, points, at, clash),
        Clash::Shortage => find_shortage(alloc, program, points, at),
    }
}

/// The first two points of one procedure whose counts differ, the first of them at address `at`;
/// `None` if there are none.
fn find_difference<C: Code>(
    alloc: Global,
    program: &C,
    points: &[Point],
    at: u16,
    clash: Clash,
) -> Result<Option<Pair>, Unexplained> {
    let counts = count_points(alloc, program, points, at, clash)?;
    first_difference(alloc, program, points, &counts, at, clash)
}

/// The first point at address `at` whose counts differ from those of another point of its procedure,
/// and that point; `None` if there is none.
fn first_difference<C: Code>(
    alloc: Global,
    program: &C,
    points: &[Point],
    counts: &IndexMap<usize, Counts>,
    at: u16,
    clash: Clash,
) -> Result<Option<Pair>, Unexplained> {
    for one in 0..points.len() {
        if points[one].at == at {
            if let Some(other) = differing(alloc, program, &points[one], counts, at, clash)? {
                return Ok(Some(Pair { one, other }));
            }
        }
    }
    Ok(None)
}

/// The number of the first point of the same procedure whose counts differ from those of `point`;
/// `None` if there is none, or if `point` isn't compared.
fn differing<C: Code>(
    alloc: Global,
    program: &C,
    point: &Point,
    counts: &IndexMap<usize, Counts>,
    at: u16,
    clash: Clash,
) -> Result<Option<usize>, Unexplained> {
    let Some(known) = counts.get(&slot(point.procedure)) else {
        return Ok(None);
    };
    let Some(other) = known.other else {
        return Ok(None);
    };
    match count_of(alloc, program, point, at, clash)? {
        Some(count) if count == known.count => Ok(Some(other)),
        Some(_) => Ok(Some(known.first)),
        None => Ok(None),
    }
}

/// For each procedure, by slot, the first of its points that is compared, and the first with other
/// counts.
fn count_points<C: Code>(
    alloc: Global,
    program: &C,
    points: &[Point],
    at: u16,
    clash: Clash,
) -> Result<IndexMap<usize, Counts>, Unexplained> {
    let mut counts = IndexMap::new(alloc);
    for number in 0..points.len() {
        if let Some(count) = count_of(alloc, program, &points[number], at, clash)? {
            note(&mut counts, slot(points[number].procedure), number, count)?;
        }
    }
    Ok(counts)
}

/// Records the counts of point `number` for the procedure with slot `place`, if it is the first
/// point or the first with other counts.
fn note(
    counts: &mut IndexMap<usize, Counts>,
    place: usize,
    number: usize,
    count: Count,
) -> Result<(), AllocError> {
    let noted = match counts.get(&place) {
        None => Counts {
            first: number,
            count,
            other: None,
        },
        Some(known) => {
            if known.other.is_some() || known.count == count {
                return Ok(());
            }
            Counts {
                first: known.first,
                count: known.count,
                other: Some(number),
            }
        }
    };
    counts.insert(place, noted)?;
    Ok(())
}

/// The counts of a point that are compared: for `Heights` its words and words taken, if it is at
/// address `at`; for `Returns` the words taken, if it returns. `None` if it isn't compared.
fn count_of<C: Code>(
    alloc: Global,
    program: &C,
    point: &Point,
    at: u16,
    clash: Clash,
) -> Result<Option<Count>, Unexplained> {
    match clash {
        Clash::Heights if point.at == at => Ok(Some(Count {
            taken: point.frame.taken,
            words: point.frame.words.len(),
        })),
        Clash::Returns => match words_taken(alloc, program, point)? {
            Some(taken) => Ok(Some(Count { taken, words: 0 })),
            None => Ok(None),
        },
        _ => Ok(None),
    }
}

/// The first two points of which one calls at address `at`, and the other, of its callee, has taken
/// more words than the caller has to give; `None` if there are none.
fn find_shortage<C: Code>(
    alloc: Global,
    program: &C,
    points: &[Point],
    at: u16,
) -> Result<Option<Pair>, Unexplained> {
    // All calls at one address have one callee, so where it has taken most is found once.
    let mut most = None;
    for one in 0..points.len() {
        let point = &points[one];
        if point.at == at {
            let Some(call) = call_at(alloc, program, point)? else {
                return Ok(None);
            };
            let last = match most {
                Some(last) => last,
                None => most_taken(points, Procedure::Entry(call.target)),
            };
            most = Some(last);
            if last < points.len()
                && is_clash(alloc, program, point, &points[last], at, Clash::Shortage)?
            {
                return first_short(alloc, program, points, one);
            }
        }
    }
    Ok(None)
}

/// Point `one`, which calls, and the first point of its callee that has taken more words than `one`
/// has to give; `None` if there is none.
fn first_short<C: Code>(
    alloc: Global,
    program: &C,
    points: &[Point],
    one: usize,
) -> Result<Option<Pair>, Unexplained> {
    let Some(point) = points.get(one) else {
        return Ok(None);
    };
    for other in 0..points.len() {
        if is_clash(
            alloc,
            program,
            point,
            &points[other],
            point.at,
            Clash::Shortage,
        )? {
            return Ok(Some(Pair { one, other }));
        }
    }
    Ok(None)
}

/// The number of the first point of a procedure with the most words taken; 0 if none has taken any.
fn most_taken(points: &[Point], procedure: Procedure) -> usize {
    let mut most = 0;
    let mut last = 0;
    for number in 0..points.len() {
        let point = &points[number];
        if point.procedure == procedure && point.frame.taken > most {
            most = point.frame.taken;
            last = number;
        }
    }
    last
}
