//! What holds of the definitions alone. The functions do nothing: their contracts are the laws.

ghost use Rattle.verify80_cases.specs.Added.{FoundCasesCanBeAdded};
ghost use Rattle.verify80_cases.specs.Changes.{StepsLeaveTheRest};

use machine80::laws::instructions_keep_to_facts;

/// A law of the machine's step: the pairs, A and the carry flag stay as they are unless the
/// instruction is one that may change them, as the search for tables reads it; only A may be
/// doubled, if its double is a byte.
pub fn steps_leave_the_rest()
    ensures { StepsLeaveTheRest }
{
    instructions_keep_to_facts();
}

/// A law of what is found of an image's PCHLs, as [`Search`](crate::Search) finds it: the cases
/// among it, by address, can be added to the image's regions.
pub fn found_cases_can_be_added()
    ensures { FoundCasesCanBeAdded }
{}
