//! What a look at an address of an image says.

ghost use Rattle.verify80.specs.LookLaws.{LooksFindWhatIsAdmitted, LooksAnswerFaultsThatHold};

/// A law of [`ImageCode`]: an instruction is found at an address exactly where it is fetched inside
/// CODE, stores to no direct address outside data, is followed by a HLT in CODE if it is an EI, and
/// has declared targets if it is a PCHL; and a fault is answered exactly where that one holds.
pub fn looks_are_exact()
    ensures found { LooksFindWhatIsAdmitted }
    ensures fault { LooksAnswerFaultsThatHold }
{}
