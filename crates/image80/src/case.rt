//! The declared targets of a PCHL.

ghost use Rattle.std.specs.Prelude.{◌≡◌, ◌==◌, find, IfSome, IfNone};
ghost use Rattle.image80.specs.Case.{AreByAddress};

use std::marker::Model;

/// The declared targets of one PCHL: the addresses that it may jump to, at least one, ascending, without duplicates.
///
/// Whoever makes a case must ensure this.
#[derive(Debug, Drop)]
pub struct Case {
    /// The address of the PCHL.
    pub at: u16,
    /// The addresses that the PCHL may jump to, ascending, without duplicates.
    pub targets: Vec<u16>,
}

impl Model for Case {
    ghost use Rattle.image80.specs.Case.{DeclaredCase, IsCase};

    ghost Value = { DeclaredCase };

    ghost view = { λ c. record { at = c.at; targets = c.targets.items } };

    ghost invariant = { λ c. IsCase (record { at = c.at; targets = c.targets.items }) };
}

/// The case for the PCHL at the address, `None` if no case has that address. The cases must be sorted by address, at
/// most one for an address. The time grows with the logarithm of the number of cases.
pub(crate) fn case_at(cases: &[Case], address: u16) -> Option<&Case>
    requires { AreByAddress cases.now }
    ensures found { IfSome result (λ case. find (λ c. c.at == address) cases.now ≡ Some case.now) }
    ensures none { IfNone result (find (λ c. c.at == address) cases.now ≡ None) }
{
    match cases.binary_search_by_key(&address, |case| case.at) {
        Ok(place) => Some(&cases[place]),
        Err(_) => None,
    }
}
