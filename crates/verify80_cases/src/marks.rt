//! Tables with a mark for each address.

ghost use Rattle.std.specs.Prelude.{◌≡◌};
ghost use Rattle.verify80_cases.specs.Marks.{marked};

/// Whether an address is marked; false if the table doesn't have it.
pub(crate) fn is_marked(marks: &[bool], address: u16) -> bool
    ensures { result ≡ marked marks.now address }
{
    match marks.get(usize::from(address)) {
        Some(marked) => *marked,
        None => false,
    }
}

/// Marks an address; nothing changes if the table doesn't have it.
pub(crate) fn mark(marks: &mut Vec<bool>, address: u16) {
    if let Some(marked) = marks.get_mut(usize::from(address)) {
        *marked = true;
    }
}
