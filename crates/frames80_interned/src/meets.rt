//! How kept frames meet at a point.

ghost use Rattle.std.specs.Prelude.{◌≡◌, ◌<◌, ◌↔◌, ◌++◌, ℕ, true, false, drop, length, Err, IfOk, OnOk};
ghost use Rattle.frames80.specs.Calls.{agree, merged, words_met};
ghost use Rattle.frames80_interned.specs.declared.link.Link.{Link};
ghost use Rattle.frames80_interned.specs.declared.meets.Top.TheVariants as top;
ghost use Rattle.frames80_interned.specs.Stacks.{words_at, IsLink, IsMet, IsStack, StacksStay};
ghost use Rattle.frames80_interned.specs.InternedFrame.{frame_of, IsInterned};
ghost use Rattle.frames80_interned.specs.Meets.{IsMeeting};

use crate::fault::MeetFault;
use crate::interned_frame::InternedFrame;
use crate::link::Link;
use crate::pair::Pair;
use crate::stacks::{STRIDE, Stacks};
use frames80::Word;
use std::alloc::AllocError;

/// Two stacks as far as they were gone through together: the merged words, and the merged stack
/// beneath.
#[derive(Drop)]
struct Meeting {
    /// What is known of the words of both stacks at each place gone through, top first.
    words: Vec<Word>,
    /// The number of the merged stack beneath these words.
    rest: u32,
    /// Whether the merged stack differs from the first of the two.
    changed: bool,
}

/// The tops of two stacks, or their merged stack.
enum Top {
    /// The top word of each stack.
    Words(Link, Link),
    /// The number of the stack that the two merge into, if that is known without going down.
    Met(u32),
}

/// The frame with what is known of both frames: a word or a pair is the return address only if it
/// is in both. The result is `one` itself if that frame wouldn't change. The words of both must be
/// stacks of `stacks`, whose stacks keep their numbers.
///
/// # Errors
/// `HeightsDiffer` exactly where the frames differ in the words taken or in the number of words; `Memory` only if they don't
/// and memory runs out.
pub(crate) fn meet_frames(
    stacks: &mut Stacks,
    one: InternedFrame,
    other: InternedFrame,
) -> Result<InternedFrame, MeetFault>
    requires one { one.words < length stacks.old }
    requires other { other.words < length stacks.old }
    ensures agree { OnOk result (agree (frame_of stacks.old one) (frame_of stacks.old other) ≡ true) }
    ensures merged { IfOk result (λ interned. IsInterned stacks.new interned (merged (frame_of stacks.old one) (frame_of stacks.old other))) }
    ensures unchanged { IfOk result (λ interned. merged (frame_of stacks.old one) (frame_of stacks.old other)
        ≡ frame_of stacks.old one → interned ≡ one) }
    ensures differ { result ≡ Err MeetFault.HeightsDiffer → agree (frame_of stacks.old one) (frame_of stacks.old other) ≡ false }
    ensures memory { result ≡ Err MeetFault.Memory → agree (frame_of stacks.old one) (frame_of stacks.old other) ≡ true }
    ensures stays { StacksStay stacks.old stacks.new }
{
    if one.taken != other.taken || stacks.height(one.words) != stacks.height(other.words) {
        return Err(MeetFault::HeightsDiffer);
    }
    let words = meet_words(stacks, one.words, other.words)?;
    Ok(InternedFrame {
        taken: one.taken,
        words,
        bc: one.bc.meet(other.bc),
        de: one.de.meet(other.de),
        hl: one.hl.meet(other.hl),
    })
}

/// The number of the stack that two equally high stacks merge into: each word is the return address
/// only if it is in both. The result is `one` if that stack wouldn't change. Both must be stacks of
/// `stacks`, whose stacks keep their numbers.
///
/// Deep stacks that meet again and again take few steps, since a pair of stacks whose height is a
/// multiple of 16 is kept with the stack that it merges into. Pairs that aren't kept yet are merged
/// first, from the bottom up.
///
/// # Errors
/// `AllocError` if memory runs out.
fn meet_words(stacks: &mut Stacks, one: u32, other: u32) -> Result<u32, AllocError>
    requires one { one < length stacks.old }
    requires other { other < length stacks.old }
    requires even { length (words_at stacks.old one) ≡ length (words_at stacks.old other) }
    ensures met { IfOk result (λ number.
        IsStack stacks.new number (words_met (words_at stacks.old one) (words_at stacks.old other))) }
    ensures unchanged { IfOk result (λ number. words_met (words_at stacks.old one) (words_at stacks.old other)
        ≡ words_at stacks.old one → number ≡ one) }
    ensures stays { StacksStay stacks.old stacks.new }
{
    let pair = Pair { one, other };
    let mut depth = depth_to_met(stacks, pair);
    while depth >= STRIDE {
        depth -= STRIDE;
        meet_beneath(stacks, pair, depth)?;
    }
    meet_to_kept(stacks, pair)
}

/// A pair of stacks without the top `depth` words of each. Both must be stacks of `stacks`.
fn beneath(stacks: &Stacks, pair: Pair, depth: u32) -> Pair
    requires one { pair.one < length stacks.now }
    requires other { pair.other < length stacks.now }
    ensures one { IsStack stacks.now result.one (drop depth (words_at stacks.now pair.one)) }
    ensures other { IsStack stacks.now result.other (drop depth (words_at stacks.now pair.other)) }
{
    Pair {
        one: stacks.beneath(pair.one, depth),
        other: stacks.beneath(pair.other, depth),
    }
}

/// How many words down from the top of two stacks the first pair lies that is equal or kept, of
/// those whose height is a multiple of `STRIDE`; their whole height if there is none, and 0 if the
/// two are equal. Only speed depends on the answer. Both must be stacks of `stacks`.
fn depth_to_met(stacks: &Stacks, pair: Pair) -> u32
    requires one { pair.one < length stacks.now }
    requires other { pair.other < length stacks.now }
{
    if pair.one == pair.other {
        return 0;
    }
    let height = stacks.height(pair.one);
    let mut depth = height % STRIDE;
    while depth < height {
        let lower = beneath(stacks, pair, depth);
        if lower.one == lower.other || stacks.meet_of(lower).is_some() {
            return depth;
        }
        depth = depth.saturating_add(STRIDE);
    }
    depth
}

/// Merges a pair of stacks without the top `depth` words of each, and keeps the result for that
/// pair. Both must be stacks of `stacks`, with equally many words. All stacks keep their numbers.
///
/// # Errors
/// `AllocError` if memory runs out.
fn meet_beneath(stacks: &mut Stacks, pair: Pair, depth: u32) -> Result<(), AllocError>
    requires one { pair.one < length stacks.old }
    requires other { pair.other < length stacks.old }
    requires even { length (words_at stacks.old pair.one) ≡ length (words_at stacks.old pair.other) }
    ensures { StacksStay stacks.old stacks.new }
{
    let lower = beneath(stacks, pair, depth);
    let number = meet_to_kept(stacks, lower)?;
    stacks.keep_met(lower, number)
}

/// The number of the stack that two equally high stacks merge into, going from the top down to a
/// pair that is equal or kept. The result is `pair.one` if that stack wouldn't change. Both must be
/// stacks of `stacks`, whose stacks keep their numbers.
///
/// # Errors
/// `AllocError` if memory runs out.
fn meet_to_kept(stacks: &mut Stacks, pair: Pair) -> Result<u32, AllocError>
    requires one { pair.one < length stacks.old }
    requires other { pair.other < length stacks.old }
    requires even { length (words_at stacks.old pair.one) ≡ length (words_at stacks.old pair.other) }
    ensures met { IfOk result (λ number.
        IsStack stacks.new number (words_met (words_at stacks.old pair.one) (words_at stacks.old pair.other))) }
    ensures unchanged { IfOk result (λ number. words_met (words_at stacks.old pair.one) (words_at stacks.old pair.other)
        ≡ words_at stacks.old pair.one → number ≡ pair.one) }
    ensures stays { StacksStay stacks.old stacks.new }
{
    let meeting = meet_tops(stacks, pair)?;
    if meeting.changed {
        push_all(stacks, meeting.rest, meeting.words)
    } else {
        Ok(pair.one)
    }
}

/// Goes down two equally high stacks until they are equal or a kept pair, and gathers what is known
/// of both words at each place. Both must be stacks of `stacks`.
///
/// # Errors
/// `AllocError` if memory runs out.
fn meet_tops(stacks: &Stacks, pair: Pair) -> Result<Meeting, AllocError>
    requires one { pair.one < length stacks.now }
    requires other { pair.other < length stacks.now }
    requires even { length (words_at stacks.now pair.one) ≡ length (words_at stacks.now pair.other) }
    ensures { IfOk result (λ meeting. IsMeeting stacks.now (words_at stacks.now pair.one) (words_at stacks.now pair.other) meeting) }
{
    let mut words = Vec::new(stacks.alloc());
    let mut left = pair;
    let mut changed = false;
    loop {
        match tops(stacks, left) {
            Top::Words(link, other_link) => {
                let word = link.word.meet(other_link.word);
                words.push(word)?;
                changed |= is_other_word(word, link.word);
                left = Pair {
                    one: link.below,
                    other: other_link.below,
                };
            }
            Top::Met(rest) => {
                changed |= is_other_stack(rest, left.one);
                return Ok(Meeting {
                    words,
                    rest,
                    changed,
                });
            }
        }
    }
}

/// The top words of two equally high stacks; or the number of the stack that they merge into, if
/// they are equal, have no words, or are a kept pair. Both must be stacks of `stacks`.
fn tops(stacks: &Stacks, pair: Pair) -> Top
    requires one { pair.one < length stacks.now }
    requires other { pair.other < length stacks.now }
    requires even { length (words_at stacks.now pair.one) ≡ length (words_at stacks.now pair.other) }
    ensures one { (one other : Link) → result ≡ top.Words one other → IsLink stacks.now pair.one one }
    ensures other { (one other : Link) → result ≡ top.Words one other → IsLink stacks.now pair.other other }
    ensures met { (number : ℕ) → result ≡ top.Met number → IsMet stacks.now pair number }
{
    if pair.one == pair.other {
        return Top::Met(pair.one);
    }
    if let Some(number) = stacks.meet_of(pair) {
        return Top::Met(number);
    }
    match (stacks.top(pair.one), stacks.top(pair.other)) {
        (Some(link), Some(other_link)) => Top::Words(link, other_link),
        _ => Top::Met(pair.one),
    }
}

/// The number of the stack with these words, top first, on stack `below`. There must be a stack
/// `below`; all stacks keep their numbers.
///
/// # Errors
/// `AllocError` if memory runs out.
pub(crate) fn push_all(stacks: &mut Stacks, below: u32, words: Vec<Word>) -> Result<u32, AllocError>
    requires { below < length stacks.old }
    ensures pushed { IfOk result (λ number. IsStack stacks.new number (words.items ++ words_at stacks.old below)) }
    ensures stays { StacksStay stacks.old stacks.new }
{
    let mut left = words;
    let mut number = below;
    while let Some(word) = left.pop() {
        number = stacks.push(number, word)?;
    }
    Ok(number)
}

/// Whether two numbers differ.
fn is_other_stack(one: u32, other: u32) -> bool
    ensures { (result ≡ false) ↔ (one ≡ other) }
{
    one != other
}

/// Whether two words differ.
fn is_other_word(one: Word, other: Word) -> bool
    ensures { (result ≡ false) ↔ (one ≡ other) }
{
    one != other
}
