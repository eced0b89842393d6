//! A program's segments at their places.

ghost use Rattle.std.specs.Prelude.{◌≡◌, ◌==◌, find};
ghost use Rattle.place80.specs.Layout.{placed_in};

/// A segment at its place: it takes `length` bytes from the address `base` on, the last of them below 65536 in a layout. A
/// segment without bytes may stand at 65536.
#[derive(Clone, Copy, Debug, PartialEq, Eq)]
pub struct Placed {
    /// The segment's id: 1 CODE, 2 DATA, 3 STACK, 4 MEMORY, 6 to 254 named commons, 255 the unnamed common; 0 for an
    /// absolute content.
    pub id: u8,
    /// The segment's first address.
    pub base: u32,
    /// The number of its bytes.
    pub length: u32,
}

/// The placed segments of a program, in the order CODE, STACK, the named commons by id, the unnamed common, DATA, MEMORY.
#[derive(Debug, Drop)]
pub struct Layout {
    /// The placed segments: CODE, STACK, the named commons by id, the unnamed common, DATA, MEMORY.
    pub segments: Vec<Placed>,
}

/// The placed segment with this id, or an empty one at 0 if there is none.
pub(crate) fn placed_in(segments: &[Placed], id: u8) -> Placed
    ensures { result ≡ placed_in segments.now id }
{
    find_placed(segments, id).unwrap_or(Placed {
        id,
        base: 0,
        length: 0,
    })
}

/// The placed segment with this id, `None` if there is none.
fn find_placed(segments: &[Placed], id: u8) -> Option<Placed>
    ensures { result ≡ find (λ p. p.id == id) segments.now }
{
    for placed in segments {
        if placed.id == id {
            return Some(*placed);
        }
    }
    None
}
