//! What holds of the modules that a link takes, over the definitions alone. The law is ensured by a function that does nothing:
//! a layer above that calls it has the law in its proof.

ghost use Rattle.link80_select.specs.SelectionLaws.{SelectionsAreUnique};

/// The modules that a link takes are determined: two lists that have all of them and no others,
/// both in ascending order, are the same.
pub fn selections_are_unique()
    ensures { SelectionsAreUnique }
{}
