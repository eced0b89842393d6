//! The versions of regions texts.

ghost use Rattle.std.specs.Prelude.{◌≡◌, ◌≢◌, IfSome, IfNone};
ghost use Rattle.image80.specs.RegionsText.{heading};

/// A version of the format of regions texts.
#[derive(Clone, Copy)]
pub(crate) enum Version {
    /// Version 1, without CASE lines.
    One,
    /// Version 2, with CASE lines.
    Two,
}

/// The first line of a text of version 1.
const FIRST: &[u8] = b"REGIONS 1";
/// The first line of a text of version 2.
const SECOND: &[u8] = b"REGIONS 2";

impl Version {
    /// The version whose heading the line is; `None` if it is neither `REGIONS 1` nor `REGIONS 2`.
    pub(crate) fn of_heading(line: &[u8]) -> Option<Version>
        ensures known { IfSome result (λ version. line.now ≡ heading version) }
        ensures unknown { IfNone result ((version : Version) → line.now ≢ heading version) }
    {
        if line == FIRST {
            Some(Version::One)
        } else if line == SECOND {
            Some(Version::Two)
        } else {
            None
        }
    }

    /// The first line of a text of this version, without its line feed.
    pub(crate) fn heading(self) -> &'static [u8]
        ensures { result.now ≡ heading self }
    {
        match self {
            Version::One => FIRST,
            Version::Two => SECOND,
        }
    }
}
