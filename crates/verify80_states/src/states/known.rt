//! What is known of a machine at an instruction, beside its stack.

use crate::fitting::is_marked;
use crate::states::cells::Cells;
use crate::states::pairs::PairSpan;
use crate::states::variables::{Variable, is_bit};
use decode80::{Pair, Register};
use verify80_spans::{ByteSpan, Outcome};

/// What registers, flags and some bytes of memory may be, before an instruction.
#[derive(Clone, Copy, PartialEq, Eq)]
pub struct Known {
    pub a: ByteSpan,
    pub bc: PairSpan,
    pub de: PairSpan,
    pub hl: PairSpan,
    /// The register that has the byte of A: A itself, if none else is known to.
    pub copy: Register,
    /// Whether Z is set; `None` if that isn't known.
    pub zero: Option<bool>,
    /// Whether CY is set; `None` if that isn't known.
    pub carry: Option<bool>,
    /// Whether S is set; `None` if that isn't known.
    pub sign: Option<bool>,
    /// The byte that A was compared with, if it is known: Z says whether A is that byte, and CY whether A is below it.
    pub compared: Option<u8>,
    pub cells: Cells,
    /// The address of a byte of memory that A is known to have; `None` if there is none.
    pub source: Option<u16>,
    /// The variables that are known to have one of their bytes: a bit for each.
    pub set: u64,
}

ghost use Rattle.std.specs.Prelude.{◌≡◌, ℕ, true, Some, slice_get};
ghost use Rattle.verify80_states.specs.declared.states.variables.Variable.{Variable};
ghost use Rattle.verify80_states.specs.Known.{copy_without, copy_outside, IsSameIfKnown, IsCopyInside, IsVariableInside};

/// The register that has A's byte after a register is written: A itself, if none else does.
fn copy_without(written: Register, copy: Register) -> Register
    ensures { result ≡ copy_without written copy }
{
    match (written, copy) {
        (Register::A, _)
        | (Register::B, Register::B)
        | (Register::C, Register::C)
        | (Register::D, Register::D)
        | (Register::E, Register::E)
        | (Register::H, Register::H)
        | (Register::L, Register::L) => Register::A,
        (_, copy) => copy,
    }
}

/// The register that has A's byte after a pair is written: A itself, if none else does.
fn copy_outside(written: Pair, copy: Register) -> Register
    ensures { result ≡ copy_outside written copy }
{
    match (written, copy) {
        (Pair::Bc, Register::B | Register::C)
        | (Pair::De, Register::D | Register::E)
        | (Pair::Hl, Register::H | Register::L) => Register::A,
        (_, copy) => copy,
    }
}

/// Whether `inner`, what is known of a flag, says all that `outer` does.
fn is_flag_inside(inner: Option<bool>, outer: Option<bool>) -> bool
    ensures { result ≡ true → IsSameIfKnown inner outer }
{
    outer.is_none() || inner == outer
}

/// Whether `inner`, what A is known to be compared with, says all that `outer` does.
fn is_comparison_inside(inner: Option<u8>, outer: Option<u8>) -> bool
    ensures { result ≡ true → IsSameIfKnown inner outer }
{
    outer.is_none() || inner == outer
}

/// Whether `inner`, the known address of the byte that A has, says all that `outer` does.
fn is_source_inside(inner: Option<u16>, outer: Option<u16>) -> bool
    ensures { result ≡ true → IsSameIfKnown inner outer }
{
    outer.is_none() || inner == outer
}

/// Whether `inner`, the register that has the byte of A, says all that `outer` does.
fn is_copy_inside(inner: Register, outer: Register) -> bool
    ensures { result ≡ true → IsCopyInside inner outer }
{
    outer == Register::A || inner == outer
}

/// Whether each variable that the set `outer` names is named by `inner`, or said by cells.
fn is_set_inside(variables: &[Variable], inner: u64, cells: Cells, outer: u64) -> bool
    ensures { result ≡ true → (number : ℕ) (v : Variable) → slice_get variables.now number ≡ Some v → IsVariableInside number v inner cells outer }
{
    variables.iter().enumerate().all(|(number, variable)| is_variable_inside(
        number, *variable, inner, cells, outer,
    ))
}

/// Whether a variable, if the set `outer` names it, is named by `inner`, or cells say that its byte is one of the variable's.
fn is_variable_inside(
    number: usize,
    variable: Variable,
    inner: u64,
    cells: Cells,
    outer: u64,
) -> bool
    ensures { result ≡ true → IsVariableInside number variable inner cells outer }
{
    !is_bit(outer, number)
        || is_bit(inner, number)
        || cells.bytes_at(variable.at).is_inside(variable.bytes)
}

impl Known {
    ghost use Rattle.std.specs.Prelude.{◌≡◌, true};
    ghost use Rattle.verify80_states.specs.Marks.{is_marked};
    ghost use Rattle.verify80_states.specs.Known.{byte_of, span_of, with_byte, with_pair, with_span, with_outcome, with_carry, cut, cut_copy, AreRegistersInside, IsKnownInside, IsQuietKnown};

    /// Nothing is known.
    pub const ANY: Known = Known {
        a: ByteSpan::ANY,
        bc: PairSpan::ANY,
        de: PairSpan::ANY,
        hl: PairSpan::ANY,
        copy: Register::A,
        zero: None,
        carry: None,
        sign: None,
        compared: None,
        cells: Cells::ANY,
        source: None,
        set: 0,
    };

    /// Whether this says all that another does; `variables` are those that both may name.
    pub fn is_inside(self, other: Known, variables: &[Variable]) -> bool
        ensures { result ≡ true → IsKnownInside variables.now self other }
    {
        if !is_set_inside(variables, self.set, self.cells, other.set) {
            return false;
        }
        self.are_registers_inside(other)
            && is_copy_inside(self.copy, other.copy)
            && is_flag_inside(self.zero, other.zero)
            && is_flag_inside(self.carry, other.carry)
            && is_flag_inside(self.sign, other.sign)
            && is_comparison_inside(self.compared, other.compared)
            && is_source_inside(self.source, other.source)
            && self.cells.are_inside(other.cells, variables, self.set)
    }

    /// Whether this says of A, BC, DE and HL all that another does.
    fn are_registers_inside(self, other: Known) -> bool
        ensures { result ≡ true → AreRegistersInside self other }
    {
        self.hl.is_inside(other.hl)
            && self.a.is_inside(other.a)
            && self.bc.is_inside(other.bc)
            && self.de.is_inside(other.de)
    }

    /// What a register may hold.
    pub fn byte(self, register: Register) -> ByteSpan
        ensures { result ≡ byte_of self register }
    {
        match register {
            Register::A => self.a,
            Register::B => self.bc.high(),
            Register::C => self.bc.low,
            Register::D => self.de.high(),
            Register::E => self.de.low,
            Register::H => self.hl.high(),
            Register::L => self.hl.low,
        }
    }

    /// What a pair may be; SP may be any word.
    pub fn pair(self, pair: Pair) -> PairSpan
        ensures { result ≡ span_of self pair }
    {
        match pair {
            Pair::Bc => self.bc,
            Pair::De => self.de,
            Pair::Hl => self.hl,
            Pair::Sp => PairSpan::ANY,
        }
    }

    /// What is known with another span for a pair, and with the copy of A unchanged. Of SP nothing is known.
    fn with_pair(self, pair: Pair, span: PairSpan) -> Known
        ensures { result ≡ with_pair self pair span }
    {
        match pair {
            Pair::Bc => Known { bc: span, ..self },
            Pair::De => Known { de: span, ..self },
            Pair::Hl => Known { hl: span, ..self },
            Pair::Sp => self,
        }
    }

    /// What is known after a register is written: the other half of its pair stays.
    pub fn with_byte(self, register: Register, byte: ByteSpan) -> Known
        ensures { result ≡ with_byte self register byte }
    {
        let after = Known {
            copy: copy_without(register, self.copy),
            ..self
        };
        match register {
            Register::A => Known {
                a: byte,
                copy: Register::A,
                compared: None,
                source: None,
                ..self
            },
            Register::B => after.with_pair(Pair::Bc, PairSpan::of_halves(byte, self.bc.low)),
            Register::C => after.with_pair(Pair::Bc, PairSpan::of_halves(self.bc.high(), byte)),
            Register::D => after.with_pair(Pair::De, PairSpan::of_halves(byte, self.de.low)),
            Register::E => after.with_pair(Pair::De, PairSpan::of_halves(self.de.high(), byte)),
            Register::H => after.with_pair(Pair::Hl, PairSpan::of_halves(byte, self.hl.low)),
            Register::L => after.with_pair(Pair::Hl, PairSpan::of_halves(self.hl.high(), byte)),
        }
    }

    /// What is known after a pair is written. Of SP nothing is known.
    pub fn with_span(self, pair: Pair, span: PairSpan) -> Known
        ensures { result ≡ with_span self pair span }
    {
        Known {
            copy: copy_outside(pair, self.copy),
            ..self.with_pair(pair, span)
        }
    }

    /// What is known after the flags are set by a result.
    pub fn with_outcome(self, outcome: Outcome) -> Known
        ensures { result ≡ with_outcome self outcome }
    {
        Known {
            zero: outcome.value.zero(),
            sign: outcome.value.sign(),
            carry: outcome.carry,
            compared: None,
            ..self
        }
    }

    /// What is known after CY alone is written.
    pub fn with_carry(self, carry: Option<bool>) -> Known
        ensures { result ≡ with_carry self carry }
    {
        Known {
            carry,
            compared: None,
            ..self
        }
    }

    /// What is known when the register that has A's byte is known to hold one of `byte`.
    fn cut_copy(self, byte: ByteSpan) -> Known
        ensures { result ≡ cut_copy self self.copy byte }
    {
        match self.copy {
            Register::A => self,
            Register::B => self.with_pair(Pair::Bc, self.bc.cut_high(byte)),
            Register::C => self.with_pair(Pair::Bc, self.bc.cut_low(byte)),
            Register::D => self.with_pair(Pair::De, self.de.cut_high(byte)),
            Register::E => self.with_pair(Pair::De, self.de.cut_low(byte)),
            Register::H => self.with_pair(Pair::Hl, self.hl.cut_high(byte)),
            Register::L => self.with_pair(Pair::Hl, self.hl.cut_low(byte)),
        }
    }

    /// What is known when A is known to hold one of `byte`, and so do the register and the byte of memory that have A's byte.
    pub fn cut(self, byte: ByteSpan) -> Known
        ensures { result ≡ cut self byte }
    {
        Known {
            a: self.a.meet(byte),
            cells: self.cells.cut(self.source, byte),
            ..self.cut_copy(byte)
        }
    }

    /// Whether this says something only of addresses that are marked as quiet.
    pub fn is_quiet(self, quiet: &[bool]) -> bool
        ensures { result ≡ true → IsQuietKnown (is_marked quiet.now) self }
    {
        self.cells.are_quiet(quiet) && self.source.is_none_or(|at| is_marked(quiet, at))
    }
}
