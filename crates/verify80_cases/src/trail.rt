//! The instructions before a PCHL, as PL/M-80 compiles DO CASE:
//!
//! ```text
//! LXI D,table    (or LXI B,table)
//! DAD D          (or DAD B)
//! MOV E,M
//! INX H
//! MOV D,M
//! XCHG
//! PCHL
//! ```
//!
//! and as others write it: `LXI H,table` and `DAD` of a pair, once or more, in place of the first two, and
//!
//! ```text
//! MOV A,M
//! INX H
//! MOV H,M
//! MOV L,A
//! ```
//!
//! in place of the four before the PCHL. Other instructions may come before each of the first three,
//! if they leave the pair, or then HL, as it is. A PCHL right after the first two goes into a table of
//! JMPs.

ghost use Rattle.std.specs.Prelude.{◌≡◌, ◌⊎◌, Contains, IfSome, List, Some, ℕ};
ghost use Rattle.verify80_cases.specs.Trails.{ArePassed, IsPassed, cpi_of, lxi_of};
ghost use Rattle.verify80_cases.specs.declared.table.TableKind.TheVariants.{Words, Jumps};

use crate::bound::Bound;
use crate::changes::may_change;
use crate::table::{Table, TableKind};
use decode80::{Instr, Pair, Register};

/// What the instructions that lead to an address one after another show of a table: how far its
/// word is loaded, and which comparison bounds its index. A table is known by the address of the
/// LXI that loads the table's address.
#[derive(Clone, Copy)]
pub(crate) struct Trail {
    /// The address of the LXI whose word is in BC.
    bc: Option<u16>,
    /// The address of the LXI whose word is in DE.
    de: Option<u16>,
    /// How far the word of a table is loaded.
    load: Load,
    /// How far the comparison that bounds the index is seen.
    bound: Bound,
}

/// How far a table's word is loaded, with the address of the LXI that loads the table's address.
#[derive(Clone, Copy)]
enum Load {
    /// HL points to no table that is known.
    Nothing,
    /// HL has the word of this LXI.
    Base(u16),
    /// HL has the word of this LXI with a pair added.
    Indexed(u16),
    /// HL points into this table: the table's address, in a pair, was added to HL.
    Points(u16),
    /// HL points to the low byte of a word of this table, which is in A.
    LowInA(u16),
    /// The low byte of a word of this table is in A, and HL points to the high byte.
    NextOfA(u16),
    /// The low byte of a word of this table is in A, and the high byte in H.
    HighInH(u16),
    /// The low byte of a word of this table is in E, and HL points to it.
    Low(u16),
    /// The low byte of a word of this table is in E, and HL points to the high byte.
    Next(u16),
    /// A word of this table is in DE.
    Word(u16),
    /// A word of this table is in HL.
    Exchanged(u16),
}

impl Trail {
    /// Nothing is known of the code before.
    pub(crate) fn unknown() -> Trail
        ensures { (passed : List ℕ) → ArePassed passed result }
    {
        Trail {
            bc: None,
            de: None,
            load: Load::Nothing,
            bound: Bound::Unknown,
        }
    }

    /// The table by which a PCHL goes now: a word of it is in HL, or HL points into it. `None` if
    /// neither is known.
    pub(crate) fn table(self) -> Option<Table>
        ensures lxi { IfSome result (λ table. lxi_of self.load ≡ Some table.lxi) }
        ensures comparison { IfSome result (λ table. IfSome table.comparison (λ cpi. cpi_of self.bound ≡ Some cpi)) }
        ensures kind { IfSome result (λ table. (table.kind ≡ Words) ⊎ (table.kind ≡ Jumps)) }
    {
        let (lxi, kind) = match self.load {
            Load::Exchanged(lxi) => (lxi, TableKind::Words),
            Load::Indexed(lxi) | Load::Points(lxi) => (lxi, TableKind::Jumps),
            _ => return None,
        };
        Some(Table {
            lxi,
            kind,
            comparison: self.bound.comparison(),
        })
    }

    /// What is known after the instruction at address `at`, if it goes on to the next one.
    pub(crate) fn after(self, at: u16, instr: Instr) -> Trail
        ensures { (passed : List ℕ) → Contains passed at → ArePassed passed self → ArePassed passed result }
    {
        Trail {
            bc: loaded_after(self.bc, Pair::Bc, at, instr),
            de: loaded_after(self.de, Pair::De, at, instr),
            load: self.load_after(at, instr),
            bound: self.bound.after(at, instr),
        }
    }

    /// How far a table's word is loaded after the instruction at address `at`.
    fn load_after(self, at: u16, instr: Instr) -> Load
        ensures { (passed : List ℕ) → Contains passed at → ArePassed passed self → IsPassed passed (lxi_of result) }
    {
        match (self.load, instr) {
            (_, Instr::Lxi(Pair::Hl, _)) => Load::Base(at),
            (load, Instr::Dad(Pair::Bc)) => load.after_dad(self.bc),
            (load, Instr::Dad(Pair::De)) => load.after_dad(self.de),
            (load, Instr::Load(Register::A)) => load.low_in_a(),
            (load, Instr::Load(Register::E)) => load.low_in_e(),
            (Load::LowInA(table), Instr::Inx(Pair::Hl)) => Load::NextOfA(table),
            (Load::NextOfA(table), Instr::Load(Register::H)) => Load::HighInH(table),
            (Load::HighInH(table), Instr::Mov(Register::L, Register::A)) => Load::Exchanged(table),
            (Load::Low(table), Instr::Inx(Pair::Hl)) => Load::Next(table),
            (Load::Next(table), Instr::Load(Register::D)) => Load::Word(table),
            (Load::Word(table), Instr::Xchg) => Load::Exchanged(table),
            (load, _) if !may_change(instr, Pair::Hl) => load.with_hl_kept(),
            _ => Load::Nothing,
        }
    }
}

impl Load {
    /// The table to a word of which HL points; `None` if none is known.
    fn table(self) -> Option<u16>
        ensures { IfSome result (λ lxi. lxi_of self ≡ Some lxi) }
    {
        match self {
            Load::Indexed(table) | Load::Points(table) | Load::LowInA(table) => Some(table),
            _ => None,
        }
    }

    /// The state after DAD of a pair that has the word of the LXI at `lxi`, or any word if that is
    /// `None`.
    fn after_dad(self, lxi: Option<u16>) -> Load
        ensures { (passed : List ℕ) → IsPassed passed lxi → IsPassed passed (lxi_of self) → IsPassed passed (lxi_of result) }
    {
        match (lxi, self) {
            (Some(table), _) => Load::Points(table),
            (None, Load::Base(table) | Load::Indexed(table)) => Load::Indexed(table),
            _ => Load::Nothing,
        }
    }

    /// The state after MOV A,M.
    fn low_in_a(self) -> Load
        ensures { (passed : List ℕ) → IsPassed passed (lxi_of self) → IsPassed passed (lxi_of result) }
    {
        match self.table() {
            Some(table) => Load::LowInA(table),
            None => self.with_hl_kept(),
        }
    }

    /// The state after MOV E,M.
    fn low_in_e(self) -> Load
        ensures { (passed : List ℕ) → IsPassed passed (lxi_of self) → IsPassed passed (lxi_of result) }
    {
        match self.table() {
            Some(table) => Load::Low(table),
            None => self.with_hl_kept(),
        }
    }

    /// The state after an instruction that leaves HL as it is, and loads no byte of a word.
    fn with_hl_kept(self) -> Load
        ensures { (passed : List ℕ) → IsPassed passed (lxi_of self) → IsPassed passed (lxi_of result) }
    {
        match self {
            Load::Base(word) => Load::Base(word),
            Load::Indexed(table) => Load::Indexed(table),
            Load::Points(table) | Load::LowInA(table) => Load::Points(table),
            _ => Load::Nothing,
        }
    }
}

/// The address of the LXI whose word is in `pair`, after the instruction at address `at`; `None` if
/// the pair may have another word. `lxi` is that before it.
fn loaded_after(lxi: Option<u16>, pair: Pair, at: u16, instr: Instr) -> Option<u16>
    ensures { (passed : List ℕ) → Contains passed at → IsPassed passed lxi → IsPassed passed result }
{
    match instr {
        Instr::Lxi(loaded, _) if loaded == pair => Some(at),
        _ if may_change(instr, pair) => None,
        _ => lxi,
    }
}
