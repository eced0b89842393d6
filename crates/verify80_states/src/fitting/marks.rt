//! Marks and entries by address.

ghost use Rattle.std.specs.Prelude.{◌≡◌};
ghost use Rattle.verify80_states.specs.Marks.{entry_at, is_marked};

/// Whether an address is marked.
pub fn is_marked(marks: &[bool], address: u16) -> bool
    ensures { result ≡ is_marked marks.now address }
{
    marks.get(usize::from(address)).copied().unwrap_or(false)
}

/// What stands in a table at an address; `None` if nothing does.
pub fn entry_at<T: Copy>(table: &[Option<T>], at: u16) -> Option<T>
    ensures { result ≡ entry_at table.now at }
{
    match table.get(usize::from(at)) {
        Some(entry) => *entry,
        None => None,
    }
}
