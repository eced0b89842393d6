//! The addresses of a vouched image that its procedures reach.

ghost use Rattle.std.specs.Prelude.{◌≡◌, IfOk, length, slice_set};
ghost use Rattle.std.specs.Result.{result_ok};
ghost use Rattle.verify80.specs.Looking.{code_of};
ghost use Rattle.verify80.specs.Reached.{AreReached};

use crate::image_code::ImageCode;
use crate::vouched::Vouched;
use decode80::Fetched;
use frames80::Code;
use std::alloc::{AllocError, Global};
use std::marker::Model;
use verify80_flow::fitting_tables_cover_walks;

/// The instruction at each address that a walk of an image's procedures reaches.
#[derive(Drop)]
pub struct Reached {
    table: Vec<Option<Fetched>>,
}

impl Model for Reached {
    ghost use Rattle.std.specs.Prelude.{◌≡◌, List, Option, length};
    ghost use Rattle.decode80.specs.declared.fetching.Fetched.{Fetched};

    ghost Value = { List (Option Fetched) };

    ghost view = { λ r. r.table.items };

    ghost invariant = { λ r. length r.table.items ≡ 65536 };
}

impl Reached {
    ghost use Rattle.std.specs.Prelude.{◌≡◌, length};
    ghost use Rattle.verify80.specs.Reached.{found_at};

    /// The instruction at each address, or `None` if no walk reaches the address: 65,536 entries.
    pub fn instructions(&self) -> &[Option<Fetched>]
        ensures table { result.now ≡ self.now }
        ensures whole { length result.now ≡ 65536 }
    {
        self.table.as_slice()
    }

    /// The instruction at an address and the address after it; `None` if no walk reaches the address.
    pub fn at(&self, address: u16) -> Option<Fetched>
        ensures { result ≡ found_at self.now address }
    {
        self.table[usize::from(address)]
    }
}

/// The instruction at each address that the walks of an image's procedures reach, from its start on.
///
/// A walk goes on after a call only if the procedure that is called returns, and after a PCHL at its declared targets. So each
/// step of each run of the image is at one of these addresses; that a run reaches each of them isn't said.
///
/// # Example
/// ```
/// let reached = find_reached(rt.alloc(), &vouched)?;
/// assert!(rt; reached.at(0x300B).is_some());
/// ```
///
/// # Errors
/// `AllocError` if memory runs out.
pub fn find_reached(alloc: Global, vouched: &Vouched) -> Result<Reached, AllocError>
    ensures { IfOk result (AreReached (code_of vouched.now.image)) }
{
    fitting_tables_cover_walks();
    let code = ImageCode::new(alloc, vouched.image())?;
    let mut table = vec![in alloc; None; 65536]?;
    let points = vouched.points();
    for point in points {
        note(&mut table, &code, point.at);
    }
    Ok(Reached { table })
}

/// Sets the table's entry for an address to the instruction there; `None` if none may be executed
/// there. `table` must have an entry for each address.
fn note(table: &mut Vec<Option<Fetched>>, code: &ImageCode, at: u16)
    requires { length table.old.items ≡ 65536 }
    ensures { table.new.items ≡ slice_set table.old.items at (result_ok ((code_of code.now).look at)) }
{
    table[usize::from(at)] = code.look(at).ok();
}
