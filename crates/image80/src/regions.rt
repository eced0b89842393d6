//! The regions of a program: its code, its stack and its data, and the targets of its PCHLs.

ghost use Rattle.std.specs.Prelude.{◌≡◌};

use crate::case::{Case, case_at};
use crate::ordered::{are_disjoint, sort};
use crate::range::{Range, in_ranges};
use std::alloc::{AllocError, Global};
use std::marker::Model;

/// The addresses that a program may use: the set CODE that it is fetched from, the set data that
/// it stores to directly, and the one range STACK that it pushes on; and the targets of its jumps by PCHL.
///
/// The ranges of code and of data are kept by address, none of them empty, each ending at or below
/// 65536, and no address lies in two ranges. The stack may be empty. Ranges that touch stay apart.
/// The cases are kept by address, one for an address at most.
#[derive(Debug, Drop)]
pub struct Regions {
    /// The ranges of code, by address.
    code: Vec<Range>,
    /// The range of the stack, which may be empty.
    stack: Range,
    /// The ranges of data, by address.
    data_ranges: Vec<Range>,
    /// The declared targets of PCHLs, by the address of the PCHL.
    cases: Vec<Case>,
}

impl Model for Regions {
    ghost use Rattle.image80.specs.Regions.{Areas, AreRegions};

    ghost Value = { Areas };

    ghost view = { λ r. record {
      code = r.code.items;
      stack = r.stack;
      data_ranges = r.data_ranges.items;
      cases = r.cases.items;
    } };

    ghost invariant = { λ r. AreRegions (record {
      code = r.code.items;
      stack = r.stack;
      data_ranges = r.data_ranges.items;
      cases = r.cases.items;
    }) };
}

impl Regions {
    ghost use Rattle.std.specs.Prelude.{◌<◌, ◌∷◌, ◌++◌, All, AllPairs, IfOk, IfSome, IfNone};
    ghost use Rattle.image80.specs.Case.{AreByAddress, IsCase};
    ghost use Rattle.image80.specs.Range.{IsInMemory};
    ghost use Rattle.image80.specs.Regions.{AreDisjoint, AreRegions, Arranges, in_code, in_data, targets_at, top_of};

    /// Makes regions without cases of these ranges, in any order; `None` if an address lies in two of them. All
    /// ranges must end in memory, and those of code and data must not be empty.
    pub(crate) fn from_ranges(
        alloc: Global,
        code: Vec<Range>,
        stack: Range,
        data_ranges: Vec<Range>,
    ) -> Result<Option<Self>, AllocError>
        requires code_filled { All (λ range. 0 < range.length) code.items }
        requires data_filled { All (λ range. 0 < range.length) data_ranges.items }
        requires code_in_memory { All IsInMemory code.items }
        requires stack_in_memory { IsInMemory stack }
        requires data_in_memory { All IsInMemory data_ranges.items }
        ensures ranges { IfOk result (λ made. IfSome made (Arranges code.items stack data_ranges.items)) }
        ensures overlap { IfOk result (λ made. IfNone made (¬ (AreDisjoint (code.items ++ stack ∷ data_ranges.items)))) }
    {
        if !are_disjoint(alloc, &code, stack, &data_ranges)? {
            return Ok(None);
        }
        Ok(Some(Regions::from_disjoint(alloc, code, stack, data_ranges)))
    }

    /// Makes regions without cases of these ranges, in any order. All ranges must end in memory, those of code and
    /// data must not be empty, and no two may share an address.
    pub fn from_disjoint(
        alloc: Global,
        mut code: Vec<Range>,
        stack: Range,
        mut data_ranges: Vec<Range>,
    ) -> Self
        requires code_filled { All (λ range. 0 < range.length) code.items }
        requires data_filled { All (λ range. 0 < range.length) data_ranges.items }
        requires code_in_memory { All IsInMemory code.items }
        requires stack_in_memory { IsInMemory stack }
        requires data_in_memory { All IsInMemory data_ranges.items }
        requires disjoint { AreDisjoint (code.items ++ stack ∷ data_ranges.items) }
        ensures { Arranges code.items stack data_ranges.items result }
    {
        sort(&mut code);
        sort(&mut data_ranges);
        Regions {
            code,
            stack,
            data_ranges,
            cases: Vec::new(alloc),
        }
    }

    /// Returns the regions with their cases replaced by these, which must be sorted by address, at most one for an
    /// address, each with one target at least and its targets ascending.
    pub(crate) fn with_cases(self, cases: Vec<Case>) -> Self
        requires by_address { AreByAddress cases.items }
        requires each { All IsCase cases.items }
        ensures { result ≡ record self { cases = cases.items } }
    {
        let Regions {
            code,
            stack,
            data_ranges,
            cases: _,
        } = self;
        Regions {
            code,
            stack,
            data_ranges,
            cases,
        }
    }

    /// The ranges of code, sorted by address: none is empty or passes the end of memory, and no address lies in two
    /// ranges of the regions.
    pub fn code(&self) -> &[Range]
        ensures ranges { result.now ≡ self.now.code }
        ensures rules { AreRegions self.now }
    {
        &self.code
    }

    /// The ranges of data, sorted by address: none is empty or passes the end of memory, and no address lies in two
    /// ranges of the regions.
    pub fn data_ranges(&self) -> &[Range]
        ensures ranges { result.now ≡ self.now.data_ranges }
        ensures rules { AreRegions self.now }
    {
        &self.data_ranges
    }

    /// The range of the stack, which may be empty: it ends in memory and shares no address with code or data.
    pub fn stack(&self) -> Range
        ensures range { result ≡ self.now.stack }
        ensures rules { AreRegions self.now }
    {
        self.stack
    }

    /// The cases, sorted by the address of their PCHL, at most one for an address.
    pub fn cases(&self) -> &[Case]
        ensures cases { result.now ≡ self.now.cases }
        ensures rules { AreRegions self.now }
    {
        &self.cases
    }

    /// The targets that are declared for the PCHL at the address, ascending, each once; `None` if none are declared.
    /// The time grows with the logarithm of the number of cases.
    #[inline]
    pub fn targets(&self, address: u16) -> Option<&[u16]>
        ensures declared { IfSome result (λ targets. targets_at self.now address ≡ Some targets.now) }
        ensures ascending { IfSome result (λ targets. AllPairs (λ a b. a < b) targets.now) }
        ensures none { IfNone result (targets_at self.now address ≡ None) }
    {
        let case = case_at(&self.cases, address)?;
        Some(case.targets.as_slice())
    }

    /// Whether the address is in the code.
    #[inline]
    pub fn in_code(&self, address: u16) -> bool
        ensures { result ≡ in_code self.now address }
    {
        in_ranges(&self.code, address)
    }

    /// Whether the address is in the data.
    #[inline]
    pub fn in_data(&self, address: u16) -> bool
        ensures { result ≡ in_data self.now address }
    {
        in_ranges(&self.data_ranges, address)
    }

    /// The stack's top: the address just past the stack, 0 if the stack ends with memory.
    #[inline]
    pub fn top(&self) -> u16
        ensures { result ≡ top_of self.now }
    {
        self.stack.first.wrapping_add(self.stack.length)
    }
}
