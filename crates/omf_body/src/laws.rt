//! What holds of all bodies, whatever calls are made. Each law is ensured by a function that does nothing: a layer above that
//! calls it has the law in its proof.

ghost use Rattle.omf_body.specs.Laws.{OneBody, OneFault, NeverBoth, WrittenIsSpelled};

/// The bytes of a record's body spell at most one body.
pub fn one_body()
    ensures { OneBody }
{}

/// The bytes of a record's body have at most one first fault, and none if they spell a body.
#[tactic(auto, using(crate::proofs::Bodies::one_fault, crate::proofs::Bodies::never_both))]
pub fn one_fault()
    ensures one { OneFault }
    ensures never_both { NeverBoth }
{}

/// The bytes that are written for a body spell it: they are read as the same body.
pub fn written_is_spelled()
    ensures { WrittenIsSpelled }
{}
