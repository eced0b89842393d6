//! The map of a program.

ghost use Rattle.std.specs.Prelude.{◌≡◌, ◌⊎◌, ◌<◌, None, Some, IfOk, IfErr, OnOk};
ghost use Rattle.std.specs.List.{AllByRecursion};
ghost use Rattle.place80.specs.Layout.{layout_of};
ghost use Rattle.place80.specs.PlaceFault.{locate_fault};
ghost use Rattle.place80.specs.declared.place_fault.PlaceFault.TheVariants.{Memory};
ghost use Rattle.place80_text.specs.Map.{IsMap};

use crate::public_lines::append_publics;
use crate::segment_lines::append_segments;
use omf_model::Module;
use place80::{Options, PlaceFault, Placed, layout, locate};
use std::alloc::{AllocError, Global};

/// The map of the program that LOCATE would place by these options: a line for each segment, also an empty one, in the order of
/// their places, such as `CODE 3000 009B`, a named common with its name behind; and then a line for each public name, such as
/// `3040 LIMIT`, by address, those of one address in the order of their records.
///
/// # Errors
/// The faults of `locate`.
pub fn map_text(alloc: Global, program: &Module, options: &Options) -> Result<Vec<u8>, PlaceFault>
    ensures text { IfOk result (λ text. IsMap (layout_of options.now program.now) program.now text.items) }
    ensures none { OnOk result (locate_fault options.now program.now ≡ None) }
    ensures fault { IfErr result (λ fault. (fault ≡ Memory) ⊎ (locate_fault options.now program.now ≡ Some fault)) }
{
    locate(alloc, program, options)?;
    // The layout has no fault but `Memory`, since the program can be located.
    let Ok(layout) = layout(alloc, program, options) else {
        return Err(PlaceFault::Memory);
    };
    Ok(text_of(alloc, program, &layout.segments)?)
}

/// The map of a program with its segments at these places: a line for each segment, and then one for each public name,
/// by address. Each segment's length must be below 65536.
fn text_of(alloc: Global, program: &Module, segments: &[Placed]) -> Result<Vec<u8>, AllocError>
    requires { AllByRecursion (λ p. p.length < 65536) segments.now }
    ensures { IfOk result (λ text. IsMap segments.now program.now text.items) }
{
    let mut text = Vec::new(alloc);
    append_segments(&mut text, program.commons(), segments)?;
    append_publics(alloc, &mut text, program.publics(), segments)?;
    Ok(text)
}
