//! What holds of every graph's chain, over the definitions alone. The law is ensured by a function that does nothing.

ghost use Rattle.verify80_calls.specs.Laws.{BoundsAreMadeOfChains, ChainsEndInWalks};

/// A law of graphs: the bound of a procedure is the sum of the caller's depth at each call of its
/// chain, two bytes for each return address, and the bound of the procedure to which the chain
/// leads (`made`). The last procedure of a program's chain has a walk whose depth is its bound
/// (`ends`); so the main program's bound is the sum over the chain's calls and that depth.
pub fn bounds_are_made_of_chains()
    ensures made { BoundsAreMadeOfChains }
    ensures ends { ChainsEndInWalks }
{}
