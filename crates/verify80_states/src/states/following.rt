//! What becomes of a state at an instruction.

ghost use Rattle.std.specs.Prelude.{◌≡◌};
ghost use Rattle.verify80_states.specs.Following.{loaded_at, loaded, moved, counted, resulted, tested, operand_bytes, after_operation};
ghost use Rattle.verify80_states.specs.Following.{added_carry, turned, exchanged_pairs, index_words, popped_to, summand, registers_after};
ghost use Rattle.verify80_states.specs.Following.{known_after, pushed_pair, called, returned, words_after, state_after};
ghost use Rattle.verify80_spans.specs.Span.{uncarried};
ghost use Rattle.verify80_states.specs.Known.{compared_with, with_outcome};

use crate::fitting::entry_at;
use crate::states::cells::Cells;
use crate::states::known::Known;
use crate::states::memory_after::{source_after, stored_bytes};
use crate::states::pairs::PairSpan;
use crate::states::state::State;
use crate::states::words::Words;
use decode80::{IndexPair, Instr, Operand, Operation, Pair, Register, StackPair, ahead};
use verify80_spans::{ByteSpan, Outcome, Span, operated, rotated};

/// What a byte that is read at an address may be: the byte of code there, or what a cell says.
fn loaded_at(code: &[Option<u8>], cells: Cells, at: u16) -> ByteSpan
    ensures { result ≡ loaded_at code.now cells at }
{
    match entry_at(code, at) {
        Some(byte) => ByteSpan::alone(byte),
        None => cells.bytes_at(at),
    }
}

/// What a byte that is read at one of these addresses may be: any byte, if there are several.
pub(crate) fn loaded(code: &[Option<u8>], cells: Cells, at: Span) -> ByteSpan
    ensures { result ≡ loaded code.now cells at }
{
    if at.is_alone() {
        loaded_at(code, cells, at.first)
    } else {
        ByteSpan::ANY
    }
}

/// The state after MOV copies a register.
fn moved(to: Register, from: Register, state: Known) -> Known
    ensures { result ≡ moved to from state }
{
    let after = state.with_byte(to, state.byte(from));
    match (to, from) {
        (Register::A, from) => Known {
            copy: from,
            ..after
        },
        (to, Register::A) => Known { copy: to, ..after },
        _ => after,
    }
}

/// The state after a register is counted up or down to one of these bytes; CY stays.
fn counted(register: Register, byte: ByteSpan, state: Known) -> Known
    ensures { result ≡ counted register byte state }
{
    let outcome = Outcome {
        value: byte,
        carry: state.carry,
    };
    state.with_byte(register, byte).with_outcome(outcome)
}

/// The state after a result comes into A.
fn resulted(outcome: Outcome, state: Known) -> Known
    ensures { result ≡ resulted outcome state }
{
    state
        .with_byte(Register::A, outcome.value)
        .with_outcome(outcome)
}

/// The state in which Z and CY are as if A had been compared with 0.
fn tested(state: Known) -> Known
    ensures { result ≡ tested state }
{
    Known {
        compared: Some(0),
        ..state
    }
}

/// The state after an operation that leaves A's byte, and sets Z, S and CY by it.
fn unchanged(state: Known) -> Known
    ensures { result ≡ tested (with_outcome state (uncarried state.a)) }
{
    tested(state.with_outcome(Outcome::uncarried(state.a)))
}

/// What the operand of an operation on A may be.
fn operand_bytes(code: &[Option<u8>], operand: Operand, state: Known) -> ByteSpan
    ensures { result ≡ operand_bytes code.now operand state }
{
    match operand {
        Operand::Register(register) => state.byte(register),
        Operand::Memory => loaded(code, state.cells, state.hl.words),
        Operand::Immediate(byte) => ByteSpan::alone(byte),
    }
}

/// The byte with which A is compared; `None` if it may be one of several.
fn compared_with(byte: ByteSpan) -> Option<u8>
    ensures { result ≡ compared_with byte }
{
    byte.is_alone().then_some(byte.first)
}

/// The state after an operation on A and a byte; `itself` says that this is A's own.
fn after_operation(operation: Operation, itself: bool, byte: ByteSpan, state: Known) -> Known
    ensures { result ≡ after_operation operation itself byte state }
{
    let outcome = operated(operation, state.a, byte, state.carry);
    match (operation, itself) {
        (Operation::Compare, _) => Known {
            compared: compared_with(byte),
            ..state.with_outcome(outcome)
        },
        (Operation::And | Operation::Or, true) => unchanged(state),
        (Operation::ExclusiveOr | Operation::Subtract, true) => {
            tested(resulted(Outcome::uncarried(ByteSpan::alone(0)), state))
        }
        (Operation::And | Operation::Or | Operation::ExclusiveOr, false) => {
            tested(resulted(outcome, state))
        }
        (Operation::Subtract, false)
        | (Operation::Add | Operation::AddCarry | Operation::SubtractBorrow, _) => {
            resulted(outcome, state)
        }
    }
}

/// What is known of the stack at SP, by whoever follows it.
#[derive(Clone, Copy)]
pub struct StackTop {
    /// SP; `None` if it isn't known.
    pub pointer: Option<u16>,
    /// What the word at SP may be.
    pub word: PairSpan,
}

/// What DAD may add to HL. `pointer` is SP, if it is known.
fn summand(pair: Pair, pointer: Option<u16>, state: Known) -> PairSpan
    ensures { result ≡ summand pair pointer state }
{
    match (pair, pointer) {
        (Pair::Sp, Some(pointer)) => PairSpan::of_words(Span::alone(pointer)),
        (pair, _) => state.pair(pair),
    }
}

/// The carry after DAD adds a pair to HL; `None` if it isn't known. `pointer` is SP, if it is known.
fn added_carry(pair: Pair, pointer: Option<u16>, state: Known) -> Option<bool>
    ensures { result ≡ added_carry pair pointer state }
{
    match (pair, pointer) {
        (Pair::Sp, None) => None,
        (pair, pointer) => state.hl.words.carries(summand(pair, pointer, state).words),
    }
}

/// The carry after CMC; `None` if it isn't known.
fn turned(carry: Option<bool>) -> Option<bool>
    ensures { result ≡ turned carry }
{
    carry.map(|carry| !carry)
}

/// The state after DE and HL are exchanged.
fn exchanged_pairs(state: Known) -> Known
    ensures { result ≡ exchanged_pairs state }
{
    let copy = match state.copy {
        Register::D => Register::H,
        Register::E => Register::L,
        Register::H => Register::D,
        Register::L => Register::E,
        other => other,
    };
    Known {
        de: state.hl,
        hl: state.de,
        copy,
        ..state
    }
}

/// The words that the pair of LDAX or STAX may be.
pub fn index_words(state: Known, pair: IndexPair) -> Span
    ensures { result ≡ index_words state pair }
{
    match pair {
        IndexPair::Bc => state.bc.words,
        IndexPair::De => state.de.words,
    }
}

/// The state after POP takes a word into a pair.
fn popped_to(pair: StackPair, word: PairSpan, state: Known) -> Known
    ensures { result ≡ popped_to pair word state }
{
    match pair {
        StackPair::Bc => state.with_span(Pair::Bc, word),
        StackPair::De => state.with_span(Pair::De, word),
        StackPair::Hl => state.with_span(Pair::Hl, word),
        StackPair::Psw => state
            .with_byte(Register::A, word.high())
            .with_outcome(Outcome::ANY),
    }
}

/// What the word that PUSH pushes may be; PSW is A and the flags.
pub fn pushed_pair(state: Known, pair: StackPair) -> PairSpan
    ensures { result ≡ pushed_pair state pair }
{
    match pair {
        StackPair::Bc => state.bc,
        StackPair::De => state.de,
        StackPair::Hl => state.hl,
        StackPair::Psw => PairSpan::of_halves(state.a, ByteSpan::ANY),
    }
}

/// What is known of registers and flags after an instruction.
fn registers_after(code: &[Option<u8>], instr: Instr, top: StackTop, state: Known) -> Known
    ensures { result ≡ registers_after code.now instr top state }
{
    match instr {
        Instr::Mov(to, from) => moved(to, from, state),
        Instr::Load(to) => state.with_byte(to, loaded(code, state.cells, state.hl.words)),
        Instr::Mvi(to, byte) => state.with_byte(to, ByteSpan::alone(byte)),
        Instr::Inr(register) => counted(register, state.byte(register).next(), state),
        Instr::Dcr(register) => counted(register, state.byte(register).previous(), state),
        Instr::InrMemory => state.with_outcome(Outcome {
            value: loaded(code, state.cells, state.hl.words).next(),
            carry: state.carry,
        }),
        Instr::DcrMemory => state.with_outcome(Outcome {
            value: loaded(code, state.cells, state.hl.words).previous(),
            carry: state.carry,
        }),
        Instr::Lxi(pair, word) => state.with_span(pair, PairSpan::of_words(Span::alone(word))),
        Instr::Inx(pair) => state.with_span(pair, state.pair(pair).next()),
        Instr::Dcx(pair) => state.with_span(pair, state.pair(pair).previous()),
        Instr::Dad(pair) => state
            .with_span(Pair::Hl, state.hl.plus(summand(pair, top.pointer, state)))
            .with_carry(added_carry(pair, top.pointer, state)),
        Instr::Operate(operation, operand) => after_operation(
            operation,
            matches!(operand, Operand::Register(Register::A)),
            operand_bytes(code, operand, state),
            state,
        ),
        Instr::Rotate(rotation) => state
            .with_byte(Register::A, rotated(rotation, state.a, state.carry))
            .with_carry(None),
        Instr::Daa => state
            .with_byte(Register::A, ByteSpan::ANY)
            .with_outcome(Outcome::ANY),
        Instr::Cma => state.with_byte(Register::A, state.a.complemented()),
        Instr::Stc => state.with_carry(Some(true)),
        Instr::Cmc => state.with_carry(turned(state.carry)),
        Instr::Ldax(pair) => {
            state.with_byte(
                Register::A,
                loaded(code, state.cells, index_words(state, pair)),
            )
        }
        Instr::Lda(address) => {
            state.with_byte(Register::A, loaded_at(code, state.cells, address))
        }
        Instr::In(_) => state.with_byte(Register::A, ByteSpan::ANY),
        Instr::Lhld(address) => state
            .with_byte(Register::H, loaded_at(code, state.cells, ahead(address, 1)))
            .with_byte(Register::L, loaded_at(code, state.cells, address)),
        Instr::Xchg => exchanged_pairs(state),
        Instr::Pop(pair) => popped_to(pair, top.word, state),
        Instr::Xthl => state.with_span(Pair::Hl, top.word),
        Instr::Store(_)
        | Instr::MviMemory(_)
        | Instr::Jmp(_)
        | Instr::JumpIf(_, _)
        | Instr::Call(_)
        | Instr::CallIf(_, _)
        | Instr::Ret
        | Instr::ReturnIf(_)
        | Instr::Rst(_)
        | Instr::Push(_)
        | Instr::Stax(_)
        | Instr::Shld(_)
        | Instr::Sta(_)
        | Instr::Pchl
        | Instr::Sphl
        | Instr::Out(_)
        | Instr::Ei
        | Instr::Di
        | Instr::Nop
        | Instr::Hlt => state,
    }
}

/// The words on the stack after a call, which pushes the address behind it, `next`, if it is taken.
fn called(taken: bool, next: u16, words: Words) -> Words
    ensures { result ≡ called taken next words }
{
    if taken {
        words.pushed(Some(PairSpan::of_words(Span::alone(next))))
    } else {
        words
    }
}

/// The words on the stack after a return, which pops one if it is taken.
fn returned(taken: bool, words: Words) -> Words
    ensures { result ≡ returned taken words }
{
    if taken { words.popped() } else { words }
}

/// The words on the stack after an instruction at which a call or a return is taken or not; `next` is the address after it.
fn words_after(instr: Instr, taken: bool, next: u16, state: State) -> Words
    ensures { result ≡ words_after instr taken next state }
{
    match instr {
        Instr::Push(pair) => state.words.pushed(Some(pushed_pair(state.known, pair))),
        Instr::Pop(_) | Instr::Ret => state.words.popped(),
        Instr::ReturnIf(_) => returned(taken, state.words),
        Instr::Xthl => Words {
            first: Some(state.known.hl),
            ..state.words
        },
        Instr::Call(_) | Instr::CallIf(_, _) | Instr::Rst(_) => called(taken, next, state.words),
        Instr::Sphl | Instr::Lxi(Pair::Sp, _) | Instr::Inx(Pair::Sp) | Instr::Dcx(Pair::Sp) =>
            Words::NONE,
        _ => state.words,
    }
}

/// What is known of registers, flags and memory after an instruction, given what is known before it, of the top of the stack, and the
/// bytes of code by address.
///
/// What comes from memory is known of code and of the cells. Sums and counts are followed until some of them wrap and others don't.
pub fn known_after(code: &[Option<u8>], instr: Instr, top: StackTop, state: Known) -> Known
    ensures { result ≡ known_after code.now instr top state }
{
    let after = registers_after(code, instr, top, state);
    let stored = stored_bytes(code, instr, state);
    Known {
        cells: state.cells.after(stored.0).after(stored.1),
        source: source_after(instr, state, stored, after.source),
        set: state.set,
        ..after
    }
}

/// What is known after an instruction, given what is known before it, the bytes of code by address, and whether its call or return is
/// taken; `next` is the address after it.
pub fn state_after(code: &[Option<u8>], instr: Instr, taken: bool, next: u16, state: State) -> State
    ensures { result ≡ state_after code.now instr taken next state }
{
    let top = StackTop {
        pointer: None,
        word: state.words.first.unwrap_or(PairSpan::ANY),
    };
    State {
        known: known_after(code, instr, top, state.known),
        words: words_after(instr, taken, next, state),
    }
}
