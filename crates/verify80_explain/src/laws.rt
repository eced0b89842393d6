//! What explanations mean, as contracts.

ghost use Rattle.verify80_explain.specs.Chains.{ChainsAreUses};
ghost use Rattle.verify80_explain.specs.Shows.{ShownHolds};

/// A law of explanations: what an explanation shows holds of the program, so the refusal names a
/// fault that is there.
pub fn what_is_shown_holds()
    ensures { ShownHolds }
{}

/// A law of chains: the bytes of a [`Chain`](crate::Chain) are one of the sums of which the bound
/// is the greatest.
pub fn chains_are_uses()
    ensures { ChainsAreUses }
{}
