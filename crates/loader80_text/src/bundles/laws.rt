//! What holds of the parts of a bundle, over the definitions alone.

ghost use Rattle.loader80_text.specs.InputsLineLaws.{PartedAtTheFirst};

/// A law: a bundle's regions end, and its inputs begin, at the first line that is `INPUTS`.
pub fn inputs_begin_at_the_first_inputs_line()
    ensures { PartedAtTheFirst }
{}
