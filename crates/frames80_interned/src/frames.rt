//! The frames by number.

ghost use Rattle.std.specs.Prelude.{◌≡◌, ◌≤◌, ◌<◌, [], true, false, length, Ok, Err, IfOk, OnOk, IfSome, IfNone};
ghost use Rattle.frames80.specs.StackFrame.{entry_frame, main_frame};
ghost use Rattle.frames80.specs.Moves.{changed, moves_of};
ghost use Rattle.frames80.specs.Calls.{agree, depth_of, merged, returned, room};
ghost use Rattle.frames80_interned.specs.Frames.{frame_at, IsFrame, IsLesserFrame, StayNumbered};
ghost use Rattle.frames80_interned.specs.Admitted.{move_of};

use crate::changes::change_frame;
use crate::fault::MeetFault;
use crate::forgetting::{Asked, forget_word, forget_words};
use crate::frame_id::FrameId;
use crate::holding::holding_of;
use crate::interned_frame::{InternedFrame, intern, interned_at};
use crate::meets::meet_frames;
use crate::stacks::{EMPTY, Stacks};
use frames80::{CallFault, Change, Effect, FrameFault, Role, Word, depth_by};
use indexmap::IndexSet;
use std::alloc::{AllocError, Global};
use std::marker::Model;

/// Frames by number: each distinct frame is kept once, in order of first sight. A contract sees the
/// list of frames, and a frame keeps its number. Words that frames have in common, from the bottom
/// up, are kept once. If there are 4,294,967,295 frames, or as many words, a call that would add
/// one answers as if memory ran out.
#[derive(Drop)]
pub struct Frames {
    /// The words of all frames, as stacks by number.
    stacks: Stacks,
    /// Each distinct frame once, in order of first sight.
    interned: IndexSet<InternedFrame>,
}

impl Model for Frames {
    ghost use Rattle.std.specs.Prelude.{List};
    ghost use Rattle.frames80.specs.StackFrame.{StackFrame};
    ghost use Rattle.frames80_interned.specs.InternedFrame.{frames_of, AreInterned};

    ghost Value = { List StackFrame };

    ghost view = { λ s. frames_of s.stacks s.interned.keys };

    ghost invariant = { λ s. AreInterned s.stacks s.interned.keys };
}

impl Frames {
    /// An empty list of frames. The call takes no memory; later ones take it from `alloc`.
    pub fn new(alloc: Global) -> Frames
        ensures { result ≡ [] }
    {
        Frames {
            stacks: Stacks::new(alloc),
            interned: IndexSet::new(alloc),
        }
    }

    /// The number of the frame at the start of a procedure that is called: its one word is its return address.
    ///
    /// # Errors
    /// `AllocError` if memory runs out.
    pub fn entry(&mut self) -> Result<FrameId, AllocError>
        ensures entry { IfOk result (λ id. IsFrame self.new id entry_frame) }
        ensures stays { StayNumbered self.old self.new }
    {
        let words = self.stacks.push(EMPTY, Word::Own)?;
        intern(&mut self.interned, InternedFrame::of_words(0, words))
    }

    /// The number of the frame at the start of the main program: it has no words.
    ///
    /// # Errors
    /// `AllocError` if memory runs out.
    pub fn main_entry(&mut self) -> Result<FrameId, AllocError>
        ensures entry { IfOk result (λ id. IsFrame self.new id main_frame) }
        ensures stays { StayNumbered self.old self.new }
    {
        intern(&mut self.interned, InternedFrame::of_words(0, EMPTY))
    }

    /// Why an effect is refused with a frame, or `None` if it is admitted. `frame` must be the
    /// number of one of these frames. The call takes no memory.
    pub fn fault_of(&self, frame: FrameId, role: Role, effect: Effect) -> Option<FrameFault>
        requires { frame < length self.now }
        ensures refused { IfSome result (λ fault. moves_of role effect (frame_at self.now frame) ≡ Err fault) }
        ensures admitted { IfNone result (moves_of role effect (frame_at self.now frame)
            ≡ Ok (move_of effect (frame_at self.now frame))) }
    {
        if let Effect::Refuse(fault) = effect {
            return Some(fault);
        }
        let interned = interned_at(&self.interned, frame);
        holding_of(&self.stacks, interned.words).fault_of(role, effect)
    }

    /// The number of the frame after a change of `frame`, which is kept unchanged. `frame` must be
    /// the number of one of these frames, with at most 1,000,000 words taken. Whether the change is
    /// admitted must be checked before: here a pop of no words takes one from beneath.
    ///
    /// # Errors
    /// `AllocError` if memory runs out.
    pub fn change(&mut self, frame: FrameId, change: Change) -> Result<FrameId, AllocError>
        requires there { frame < length self.old }
        requires taken { (frame_at self.old frame).taken ≤ 1000000 }
        ensures changed { IfOk result (λ id. IsFrame self.new id (changed change (frame_at self.old frame))) }
        ensures stays { StayNumbered self.old self.new }
    {
        let interned = interned_at(&self.interned, frame);
        let changed = change_frame(&mut self.stacks, interned, change)?;
        intern(&mut self.interned, changed)
    }

    /// The number of a caller's frame after a call of a procedure that takes `taken` words: the top
    /// `taken` words are gone, and BC, DE and HL may hold anything. `frame` must be the number of
    /// one of these frames.
    ///
    /// # Errors
    /// `ShortArguments` exactly where the caller has fewer words above its bottom word; in the main program, if it has fewer
    /// words. `Memory` only if it has enough and memory runs out.
    pub fn after(&mut self, frame: FrameId, role: Role, taken: u32) -> Result<FrameId, CallFault>
        requires { frame < length self.old }
        ensures enough { OnOk result (taken ≤ room role (frame_at self.old frame).words) }
        ensures back { IfOk result (λ id. IsFrame self.new id (returned taken (frame_at self.old frame))) }
        ensures short { result ≡ Err CallFault.ShortArguments → room role (frame_at self.old frame).words < taken }
        ensures memory { result ≡ Err CallFault.Memory → taken ≤ room role (frame_at self.old frame).words }
        ensures stays { StayNumbered self.old self.new }
    {
        let interned = interned_at(&self.interned, frame);
        if self.stacks.room(interned.words, role) < taken {
            return Err(CallFault::ShortArguments);
        }
        let words = self.stacks.beneath(interned.words, taken);
        Ok(intern(
            &mut self.interned,
            InternedFrame::of_words(interned.taken, words),
        )?)
    }

    /// The number of the frame with what is known of both frames: a word or a pair is the return
    /// address only if it is in both. The result is `one` itself if that frame wouldn't change.
    /// Both must be numbers of these frames.
    ///
    /// # Errors
    /// `HeightsDiffer` exactly where the frames differ in the words taken or in the number of words; `Memory` only if they
    /// don't and memory runs out.
    pub fn meet(&mut self, one: FrameId, other: FrameId) -> Result<FrameId, MeetFault>
        requires one { one < length self.old }
        requires other { other < length self.old }
        ensures agree { OnOk result (agree (frame_at self.old one) (frame_at self.old other) ≡ true) }
        ensures merged { IfOk result (λ id. IsFrame self.new id (merged (frame_at self.old one) (frame_at self.old other))) }
        ensures unchanged { IfOk result (λ id. merged (frame_at self.old one) (frame_at self.old other) ≡ frame_at self.old one →
            id ≡ one) }
        ensures differ { result ≡ Err MeetFault.HeightsDiffer → agree (frame_at self.old one) (frame_at self.old other) ≡ false }
        ensures memory { result ≡ Err MeetFault.Memory → agree (frame_at self.old one) (frame_at self.old other) ≡ true }
        ensures stays { StayNumbered self.old self.new }
    {
        let first = interned_at(&self.interned, one);
        let second = interned_at(&self.interned, other);
        let met = meet_frames(&mut self.stacks, first, second)?;
        if met == first {
            return Ok(one);
        }
        Ok(intern(&mut self.interned, met)?)
    }

    /// The number of a frame like `frame`, in which words and pairs that aren't asked for may have
    /// become `Any`: it has the same counts, and the return address only where `frame` has it.
    /// `frame` must be the number of one of these frames.
    ///
    /// # Errors
    /// `AllocError` if memory runs out.
    pub fn forget(&mut self, frame: FrameId, asked: Asked<'_>) -> Result<FrameId, AllocError>
        requires { frame < length self.old }
        ensures lesser { IfOk result (λ id. IsLesserFrame self.new id (frame_at self.old frame)) }
        ensures stays { StayNumbered self.old self.new }
    {
        let interned = interned_at(&self.interned, frame);
        let words = forget_words(&mut self.stacks, interned.words, asked.heights)?;
        let lesser = InternedFrame {
            taken: interned.taken,
            words,
            bc: forget_word(interned.bc, asked.bc),
            de: forget_word(interned.de, asked.de),
            hl: forget_word(interned.hl, asked.hl),
        };
        intern(&mut self.interned, lesser)
    }

    /// How many words a frame has popped from beneath the procedure's own. `frame` must be the
    /// number of one of these frames. The call takes no memory.
    pub fn taken(&self, frame: FrameId) -> u32
        requires { frame < length self.now }
        ensures { result ≡ (frame_at self.now frame).taken }
    {
        interned_at(&self.interned, frame).taken
    }

    /// How many own words a frame has. `frame` must be the number of one of these frames. The call
    /// takes no memory.
    pub fn words(&self, frame: FrameId) -> u32
        requires { frame < length self.now }
        ensures { result ≡ length (frame_at self.now frame).words }
    {
        let interned = interned_at(&self.interned, frame);
        self.stacks.height(interned.words)
    }

    /// How many words of a caller's frame a callee may take: those above the bottom word, and in
    /// the main program all. `frame` must be the number of one of these frames. The call takes no
    /// memory.
    pub fn room(&self, frame: FrameId, role: Role) -> u32
        requires { frame < length self.now }
        ensures { result ≡ room role (frame_at self.now frame).words }
    {
        let interned = interned_at(&self.interned, frame);
        self.stacks.room(interned.words, role)
    }

    /// By how many bytes the stack has grown since the procedure's start: `2 * (words - 1 - taken)`
    /// in an entry, which starts with its return address on it, and `2 * words` in the main
    /// program. `frame` must be the number of one of these frames. The call takes no memory.
    pub fn depth(&self, frame: FrameId, role: Role) -> i64
        requires { frame < length self.now }
        ensures { result ≡ depth_of role (frame_at self.now frame) }
    {
        let interned = interned_at(&self.interned, frame);
        depth_by(role, self.stacks.height(interned.words), interned.taken)
    }
}
