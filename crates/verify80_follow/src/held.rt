//! What a handler still has of what it was entered with.

ghost use Rattle.std.specs.Prelude.{◌≡◌, ℕ, Some, true};
ghost use Rattle.std.specs.Option.{option_map};
ghost use Rattle.verify80_follow.specs.Follows.{beside_call};
ghost use Rattle.verify80_follow.specs.Held.{IsBesideInside, IsPairInside, beside_after, beside_then, changes_pair, count_of, first_of};
ghost use Rattle.verify80_follow.specs.Held.{is_at, is_pair, left_of, no_pair, nothing_beside, pair_after, pops_pair, pushes_pair, still};

use crate::interrupts::enabled_after;
use decode80::{AffectedFlags, Flow, Instr, Pair, Register, StackPair, Writes};
use verify80_spans::ByteSpan;

/// What is said of a pair of registers: of PSW, of A and the flags.
#[derive(Clone, Copy, PartialEq, Eq)]
pub struct HeldPair {
    /// Whether it is what it was when the handler was entered.
    pub in_place: bool,
    /// How many bytes are on the stack from the first one on of a word that has what it was; `None` if no such word is known.
    pub saved: Option<usize>,
}

/// What is said beside a state's registers and stack.
#[derive(Clone, Copy, PartialEq, Eq)]
pub struct Beside {
    /// Whether interrupts may come, by EI and DI.
    pub is_enabled: bool,
    pub psw: HeldPair,
    pub bc: HeldPair,
    pub de: HeldPair,
    pub hl: HeldPair,
    /// How many bytes are on the stack from the first one on of the word to which the handler returns; `None` if it isn't known.
    pub back: Option<usize>,
}

/// An instruction, with how many bytes are on the stack before it and after it.
#[derive(Clone, Copy)]
struct StackStep {
    instr: Instr,
    before: usize,
    after: usize,
}

impl HeldPair {
    /// Nothing is said.
    pub const NONE: HeldPair = HeldPair {
        in_place: false,
        saved: None,
    };

    /// The pair is what it was.
    const ENTERED: HeldPair = HeldPair {
        in_place: true,
        saved: None,
    };

    /// Whether this says all that `outer` does.
    fn is_inside(self, outer: HeldPair) -> bool
        ensures { result ≡ true → IsPairInside self outer }
    {
        (self.in_place || !outer.in_place) && is_saved_inside(self.saved, outer.saved)
    }

    /// What is said of the pair after an instruction.
    fn after(self, step: StackStep, pair: StackPair) -> HeldPair
        ensures { result ≡ pair_after step.instr step.before step.after pair self }
    {
        let StackStep {
            instr,
            before,
            after,
        } = step;
        let pushed = if pushes_pair(instr, pair) && self.in_place {
            Some(after)
        } else {
            None
        };
        let left = still(left_of(instr.flow(), before, after), self.saved);
        HeldPair {
            in_place: if pops_pair(instr, pair) {
                is_at(self.saved, before)
            } else {
                self.in_place && !changes_pair(instr, pair)
            },
            saved: first_of(left, pushed),
        }
    }
}

impl Beside {
    /// Nothing is said, and no interrupt may come.
    pub const NOTHING: Beside = Beside {
        is_enabled: false,
        psw: HeldPair::NONE,
        bc: HeldPair::NONE,
        de: HeldPair::NONE,
        hl: HeldPair::NONE,
        back: None,
    };

    /// A handler is entered: each pair is what it was, and the word at SP is the address to which it returns.
    pub const ENTERED: Beside = Beside {
        is_enabled: false,
        psw: HeldPair::ENTERED,
        bc: HeldPair::ENTERED,
        de: HeldPair::ENTERED,
        hl: HeldPair::ENTERED,
        back: Some(2),
    };

    /// Behind a call that is stepped over: only where the caller's own return address is, is known, and interrupts may come.
    pub fn behind_call(back: Option<usize>) -> Beside
        ensures { result ≡ beside_call back }
    {
        Beside {
            is_enabled: true,
            back,
            ..Beside::NOTHING
        }
    }

    /// Whether this says all that `outer` does, and interrupts may come there if they may by this.
    pub fn is_inside(self, outer: Beside) -> bool
        ensures { result ≡ true → IsBesideInside self outer }
    {
        (outer.is_enabled || !self.is_enabled)
            && self.psw.is_inside(outer.psw)
            && self.bc.is_inside(outer.bc)
            && self.de.is_inside(outer.de)
            && self.hl.is_inside(outer.hl)
            && is_saved_inside(self.back, outer.back)
    }

    /// What is said after an instruction, once SP is set.
    fn after(self, step: StackStep) -> Beside
        ensures { result ≡ beside_after step.instr step.before step.after self }
    {
        let left = left_of(step.instr.flow(), step.before, step.after);
        Beside {
            is_enabled: enabled_after(step.instr, self.is_enabled),
            psw: self.psw.after(step, StackPair::Psw),
            bc: self.bc.after(step, StackPair::Bc),
            de: self.de.after(step, StackPair::De),
            hl: self.hl.after(step, StackPair::Hl),
            back: still(left, self.back),
        }
    }
}

/// Whether a word is known if another one is, at the same place.
fn is_saved_inside(inner: Option<usize>, outer: Option<usize>) -> bool
    ensures { result ≡ true → (depth : ℕ) → outer ≡ Some depth → inner ≡ Some depth }
{
    match outer {
        None => true,
        Some(_) => inner == outer,
    }
}

/// Whether a pair is another one.
fn is_pair(one: StackPair, other: StackPair) -> bool
    ensures { result ≡ is_pair one other }
{
    matches!(
        (one, other),
        (StackPair::Bc, StackPair::Bc)
            | (StackPair::De, StackPair::De)
            | (StackPair::Hl, StackPair::Hl)
            | (StackPair::Psw, StackPair::Psw)
    )
}

/// Whether an instruction pushes a pair.
fn pushes_pair(instr: Instr, pair: StackPair) -> bool
    ensures { result ≡ pushes_pair instr pair }
{
    match instr {
        Instr::Push(pushed) => is_pair(pushed, pair),
        _ => false,
    }
}

/// Whether an instruction pops a pair.
fn pops_pair(instr: Instr, pair: StackPair) -> bool
    ensures { result ≡ pops_pair instr pair }
{
    match instr {
        Instr::Pop(popped) => is_pair(popped, pair),
        _ => false,
    }
}

/// Whether an instruction may change a pair; of PSW A or a flag.
fn changes_pair(instr: Instr, pair: StackPair) -> bool
    ensures { result ≡ changes_pair instr pair }
{
    let writes = instr.writes();
    match pair {
        StackPair::Bc => writes.includes(Pair::Bc),
        StackPair::De => writes.includes(Pair::De),
        StackPair::Hl => writes.includes(Pair::Hl),
        StackPair::Psw => {
            matches!(writes, Writes::One(Register::A))
                || !matches!(instr.facts().flags, AffectedFlags::NoFlags)
        }
    }
}

/// How many bytes, from the stack's top down, an instruction leaves on it.
fn left_of(flow: Flow, before: usize, after: usize) -> usize
    ensures { result ≡ left_of flow before after }
{
    match flow {
        Flow::Exchanges => before.saturating_sub(2).min(after),
        _ => before.min(after),
    }
}

/// A word that is left.
fn still(left: usize, saved: Option<usize>) -> Option<usize>
    ensures { result ≡ still left saved }
{
    match saved {
        None => None,
        Some(depth) => (depth <= left).then_some(depth),
    }
}

/// Whether a word is known at a place.
fn is_at(saved: Option<usize>, depth: usize) -> bool
    ensures { result ≡ is_at saved depth }
{
    match saved {
        None => false,
        Some(other) => other == depth,
    }
}

/// The first word that is known.
fn first_of(saved: Option<usize>, other: Option<usize>) -> Option<usize>
    ensures { result ≡ first_of saved other }
{
    match saved {
        None => other,
        Some(_) => saved,
    }
}

/// What is said beside a state after an instruction, by the stack before it and after it.
pub fn beside_then(
    instr: Instr,
    before: Option<&[ByteSpan]>,
    after: Option<&[ByteSpan]>,
    beside: Beside,
) -> Beside
    ensures { result ≡ beside_then instr (option_map (λ bytes. bytes.now) before.entry) (option_map (λ bytes. bytes.now) after.entry) beside }
{
    let Some(bytes) = before else {
        return Beside {
            is_enabled: enabled_after(instr, beside.is_enabled),
            ..Beside::NOTHING
        };
    };
    beside.after(StackStep {
        instr,
        before: bytes.len(),
        after: count_of(after),
    })
}

/// How many bytes are on a stack.
pub(crate) fn count_of(stack: Option<&[ByteSpan]>) -> usize
    ensures { result ≡ count_of (option_map (λ bytes. bytes.now) stack.entry) }
{
    match stack {
        None => 0,
        Some(bytes) => bytes.len(),
    }
}
