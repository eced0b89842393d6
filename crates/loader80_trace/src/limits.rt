//! How long a run may last, and which of its instructions are shown.

ghost use Rattle.std.specs.Prelude.{◌≡◌, ◌+◌, ◌<◌, min};
ghost use Rattle.loader80_trace.specs.Traces.{last_number};

use loader80::Ended;

/// How long a run may last.
#[derive(Clone, Copy, PartialEq, Eq)]
pub struct Limits {
    /// The greatest number of steps.
    pub steps: u64,
    /// The greatest number of outputs; the next one is refused.
    pub outputs: usize,
}

/// Consecutive instructions of a run.
#[derive(Clone, Copy, PartialEq, Eq)]
pub struct Span {
    /// How many steps of the run come before the first instruction.
    pub from: u64,
    /// The greatest number of instructions.
    pub count: u64,
}

impl Span {
    /// The last instructions of a run that ended so, `count` of them at most: the very last is the one that ended the
    /// run, or the next one if the steps were used up. `count` must be at least 1.
    pub fn last_of(ended: &Ended, count: u64) -> Span
        requires { 0 < count }
        ensures count { result.count ≡ min count (last_number ended.now.end ended.now.steps + 1) }
        ensures last { result.from + result.count ≡ last_number ended.now.end ended.now.steps + 1 }
    {
        let last = match ended.end {
            None => ended.steps,
            Some(_) => ended.steps.saturating_sub(1),
        };
        Span::last_to(last, count)
    }

    /// The last instructions up to the one before which `last` steps were made, `count` of them at most. `count` must be at
    /// least 1.
    fn last_to(last: u64, count: u64) -> Span
        requires { 0 < count }
        ensures count { result.count ≡ min count (last + 1) }
        ensures last { result.from + result.count ≡ last + 1 }
    {
        if count > last {
            return Span {
                from: 0,
                count: last + 1,
            };
        }
        Span {
            from: last - (count - 1),
            count,
        }
    }
}
