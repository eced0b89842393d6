//! What holds of all texts with names, over the definitions alone. Each law is ensured by a function that does nothing.

ghost use Rattle.image80_text.specs.NameText.{NearestIsGreatest, NoPublicsNoNames, PrintedAddressIsNamed};

/// A law: without publics, naming and labelling leave a text as it is, byte for byte.
pub fn texts_without_names_are_as_before()
    ensures { NoPublicsNoNames }
{}

/// A law: an address that is printed in four digits is read back as the same address, so that it is the one that is
/// named.
pub fn printed_addresses_are_named()
    ensures { PrintedAddressIsNamed }
{}

/// A law: the public that names an address is the one with the highest address at or below it in the same range of
/// code, and the first of several there.
pub fn nearest_publics_are_greatest()
    ensures { NearestIsGreatest }
{}
