//! The stack, byte by byte from SP to its top.

ghost use Rattle.std.specs.Prelude.{◌≡◌, ◌≤◌, ◌++◌, IfOk, length, true};
ghost use Rattle.std.specs.Option.{option_map};
ghost use Rattle.verify80.specs.Boards.{uses_sp};
ghost use Rattle.verify80_follow.specs.Stack.{pointer_at, word_on, top_of_stack, return_address, pushed_onto, popped_from};
ghost use Rattle.verify80_follow.specs.Stack.{exchanged_on, count_above, resized, moved_to, without_one, with_one, called_on};
ghost use Rattle.verify80_follow.specs.Stack.{returned_from, stack_after, set_stack, stack_then, after_of, AreBytesInside, IsStackInside};

use decode80::{Fetched, Instr, Pair};
use std::alloc::{AllocError, Global};
use verify80_spans::ByteSpan;
use verify80_states::{Known, PairSpan, StackTop, pushed_pair};

/// The stack after an instruction.
#[derive(Drop)]
pub enum StackAfter {
    /// The instruction uses SP before it is set, leaves the stack, or sets SP to what isn't known.
    Refused,
    /// SP isn't set yet.
    Unset,
    /// What each byte may be, from SP up to the stack's top.
    Set(Vec<ByteSpan>),
}

/// The stack's end and length.
#[derive(Clone, Copy)]
pub struct StackBounds {
    /// The address just above the stack, modulo 65536.
    pub top: u16,
    /// How many bytes it has.
    pub length: u16,
}

/// SP when `count` bytes are on the stack.
fn pointer_at(bounds: StackBounds, count: usize) -> u16
    ensures { result ≡ pointer_at bounds count }
{
    ((usize::from(bounds.top) + 65_536).saturating_sub(count) % 65_536) as u16
}

/// What the word at SP may be.
fn word_on(bytes: &[ByteSpan]) -> PairSpan
    ensures { result ≡ word_on bytes.now }
{
    if bytes.len() < 2 {
        return PairSpan::ANY;
    }
    PairSpan::of_halves(bytes[1], bytes[0])
}

/// What is known of the stack at SP.
pub fn top_of_stack(bounds: StackBounds, bytes: Option<&[ByteSpan]>) -> StackTop
    ensures { result ≡ top_of_stack bounds (option_map (λ bytes. bytes.now) bytes.entry) }
{
    match bytes {
        None => StackTop {
            pointer: None,
            word: PairSpan::ANY,
        },
        Some(bytes) => StackTop {
            pointer: Some(pointer_at(bounds, bytes.len())),
            word: word_on(bytes),
        },
    }
}

/// Where a return goes; `None` if that isn't known.
pub fn return_address(bytes: &[ByteSpan]) -> Option<u16>
    ensures { result ≡ return_address bytes.now }
{
    let words = word_on(bytes).words;
    words.is_alone().then_some(words.first)
}

/// Bytes, and others behind them.
fn chained(
    alloc: Global,
    first: &[ByteSpan],
    rest: &[ByteSpan],
) -> Result<Vec<ByteSpan>, AllocError>
    ensures { IfOk result (λ bytes. bytes.items ≡ first.now ++ rest.now) }
{
    let mut bytes = Vec::new(alloc);
    bytes.extend_from_slice(first)?;
    bytes.extend_from_slice(rest)?;
    Ok(bytes)
}

/// The stack after two bytes are pushed; `None` if there is no room for them.
fn pushed_onto(
    alloc: Global,
    room: u16,
    high: ByteSpan,
    low: ByteSpan,
    bytes: &[ByteSpan],
) -> Result<Option<Vec<ByteSpan>>, AllocError>
    ensures { IfOk result (λ after. option_map (λ b. b.items) after ≡ pushed_onto room high low bytes.now) }
{
    if bytes.len() + 2 > usize::from(room) {
        return Ok(None);
    }
    let after = chained(alloc, &[low, high], bytes)?;
    Ok(Some(after))
}

/// The stack after two bytes are popped; `None` if it has fewer.
fn popped_from(alloc: Global, bytes: &[ByteSpan]) -> Result<Option<Vec<ByteSpan>>, AllocError>
    ensures { IfOk result (λ after. option_map (λ b. b.items) after ≡ popped_from bytes.now) }
{
    if bytes.len() < 2 {
        return Ok(None);
    }
    let after = chained(alloc, &[], &bytes[2..])?;
    Ok(Some(after))
}

/// The stack after XTHL; `None` if it has fewer than two bytes.
fn exchanged_on(
    alloc: Global,
    high: ByteSpan,
    low: ByteSpan,
    bytes: &[ByteSpan],
) -> Result<Option<Vec<ByteSpan>>, AllocError>
    ensures { IfOk result (λ after. option_map (λ b. b.items) after ≡ exchanged_on high low bytes.now) }
{
    if bytes.len() < 2 {
        return Ok(None);
    }
    let after = chained(alloc, &[low, high], &bytes[2..])?;
    Ok(Some(after))
}

/// A stack of `count` bytes with what is known of the topmost ones.
fn resized(alloc: Global, count: usize, bytes: &[ByteSpan]) -> Result<Vec<ByteSpan>, AllocError>
    ensures { IfOk result (λ after. after.items ≡ resized count bytes.now) }
{
    let mut after = vec![in alloc; ByteSpan::ANY; count.saturating_sub(bytes.len())]?;
    after.extend_from_slice(&bytes[bytes.len().saturating_sub(count)..])?;
    Ok(after)
}

/// The stack after SP is set to an address; `None` if that is neither one of the stack nor its top.
fn moved_to(
    alloc: Global,
    bounds: StackBounds,
    pointer: u16,
    bytes: &[ByteSpan],
) -> Result<Option<Vec<ByteSpan>>, AllocError>
    ensures { IfOk result (λ after. option_map (λ b. b.items) after ≡ moved_to bounds pointer bytes.now) }
{
    let count = (usize::from(bounds.top) + 65_536 - usize::from(pointer)) % 65_536;
    if count > usize::from(bounds.length) {
        return Ok(None);
    }
    let after = resized(alloc, count, bytes)?;
    Ok(Some(after))
}

/// The stack after INX SP; `None` if it is empty.
fn without_one(alloc: Global, bytes: &[ByteSpan]) -> Result<Option<Vec<ByteSpan>>, AllocError>
    ensures { IfOk result (λ after. option_map (λ b. b.items) after ≡ without_one bytes.now) }
{
    if bytes.is_empty() {
        return Ok(None);
    }
    let after = chained(alloc, &[], &bytes[1..])?;
    Ok(Some(after))
}

/// The stack after DCX SP; `None` if there is no room.
fn with_one(
    alloc: Global,
    room: u16,
    bytes: &[ByteSpan],
) -> Result<Option<Vec<ByteSpan>>, AllocError>
    ensures { IfOk result (λ after. option_map (λ b. b.items) after ≡ with_one room bytes.now) }
{
    if bytes.len() + 1 > usize::from(room) {
        return Ok(None);
    }
    let after = chained(alloc, &[ByteSpan::ANY], bytes)?;
    Ok(Some(after))
}

/// The stack after a call, which pushes the address behind it, `next`, if it is taken.
fn called_on(
    alloc: Global,
    taken: bool,
    room: u16,
    next: u16,
    bytes: &[ByteSpan],
) -> Result<Option<Vec<ByteSpan>>, AllocError>
    ensures { IfOk result (λ after. option_map (λ b. b.items) after ≡ called_on taken room next bytes.now) }
{
    if taken {
        let high = ByteSpan::alone((next / 256) as u8);
        let low = ByteSpan::alone((next % 256) as u8);
        pushed_onto(alloc, room, high, low, bytes)
    } else {
        Ok(Some(chained(alloc, &[], bytes)?))
    }
}

/// The stack after a return, which pops a word if it is taken.
fn returned_from(
    alloc: Global,
    taken: bool,
    bytes: &[ByteSpan],
) -> Result<Option<Vec<ByteSpan>>, AllocError>
    ensures { IfOk result (λ after. option_map (λ b. b.items) after ≡ returned_from taken bytes.now) }
{
    if taken {
        popped_from(alloc, bytes)
    } else {
        Ok(Some(chained(alloc, &[], bytes)?))
    }
}

/// The stack after an instruction, once SP is set; `None` if it isn't known or leaves the stack. `taken` says whether a call or a return is
/// taken.
fn stack_after(
    alloc: Global,
    bounds: StackBounds,
    found: Fetched,
    taken: bool,
    known: Known,
    bytes: &[ByteSpan],
) -> Result<Option<Vec<ByteSpan>>, AllocError>
    ensures { IfOk result (λ after. option_map (λ b. b.items) after ≡ stack_after bounds found.instr taken found.next known bytes.now) }
{
    let Fetched { instr, next } = found;
    let room = bounds.length;
    match instr {
        Instr::Push(pair) => {
            let pair = pushed_pair(known, pair);
            pushed_onto(alloc, room, pair.high(), pair.low, bytes)
        }
        Instr::Pop(_) => popped_from(alloc, bytes),
        Instr::Xthl => exchanged_on(alloc, known.hl.high(), known.hl.low, bytes),
        Instr::Call(_) | Instr::CallIf(_, _) | Instr::Rst(_) => {
            called_on(alloc, taken, room, next, bytes)
        }
        Instr::Ret | Instr::ReturnIf(_) => returned_from(alloc, taken, bytes),
        Instr::Lxi(Pair::Sp, pointer) => moved_to(alloc, bounds, pointer, bytes),
        Instr::Inx(Pair::Sp) => without_one(alloc, bytes),
        Instr::Dcx(Pair::Sp) => with_one(alloc, room, bytes),
        Instr::Sphl if known.hl.words.is_alone() => {
            moved_to(alloc, bounds, known.hl.words.first, bytes)
        }
        Instr::Sphl => Ok(None),
        _ => Ok(Some(chained(alloc, &[], bytes)?)),
    }
}

/// Whether what an instruction does depends on what SP is.
fn uses_sp(instr: Instr) -> bool
    ensures { result ≡ uses_sp instr }
{
    matches!(
        instr,
        Instr::Dad(Pair::Sp)
            | Instr::Inx(Pair::Sp)
            | Instr::Dcx(Pair::Sp)
            | Instr::Sphl
            | Instr::Push(_)
            | Instr::Pop(_)
            | Instr::Xthl
            | Instr::Call(_)
            | Instr::CallIf(_, _)
            | Instr::Ret
            | Instr::ReturnIf(_)
            | Instr::Rst(_)
    )
}

/// The stack after an instruction, as long as SP isn't set.
fn set_stack(alloc: Global, bounds: StackBounds, instr: Instr) -> Result<StackAfter, AllocError>
    ensures { IfOk result (λ after. after_of after ≡ set_stack bounds instr) }
{
    match instr {
        Instr::Lxi(Pair::Sp, pointer) => match moved_to(alloc, bounds, pointer, &[])? {
            Some(bytes) => Ok(StackAfter::Set(bytes)),
            None => Ok(StackAfter::Refused),
        },
        instr if uses_sp(instr) => Ok(StackAfter::Refused),
        _ => Ok(StackAfter::Unset),
    }
}

/// The stack after an instruction. `taken` says whether a call or a return is taken; `known` is what is known before it.
///
/// # Errors
/// `AllocError` if memory runs out.
pub fn stack_then(
    alloc: Global,
    bounds: StackBounds,
    found: Fetched,
    taken: bool,
    known: Known,
    bytes: Option<&[ByteSpan]>,
) -> Result<StackAfter, AllocError>
    ensures { IfOk result (λ after. after_of after ≡ stack_then bounds found.instr taken found.next known (option_map
        (λ bytes. bytes.now) bytes.entry)) }
{
    match bytes {
        None => set_stack(alloc, bounds, found.instr),
        Some(bytes) => match stack_after(alloc, bounds, found, taken, known, bytes)? {
            Some(after) => Ok(StackAfter::Set(after)),
            None => Ok(StackAfter::Refused),
        },
    }
}

/// Whether bytes of a stack say all that others do.
fn are_bytes_inside(inner: &[ByteSpan], outer: &[ByteSpan]) -> bool
    ensures { result ≡ true → AreBytesInside inner.now outer.now }
{
    inner.len() == outer.len() && inner.iter().zip(outer.iter()).all(|(p, q)| p.is_inside(*q))
}

/// Whether what is known of a stack says all that something else does.
pub(crate) fn is_stack_inside(inner: Option<&[ByteSpan]>, outer: Option<&[ByteSpan]>) -> bool
    ensures { result ≡ true → IsStackInside (option_map (λ bytes. bytes.now) inner.entry) (option_map (λ bytes. bytes.now) outer.entry) }
{
    match (inner, outer) {
        (None, None) => true,
        (Some(inner), Some(outer)) => are_bytes_inside(inner, outer),
        (None, Some(_)) | (Some(_), None) => false,
    }
}
