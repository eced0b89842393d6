//! The points that are known, each with what is known of its frame.

ghost use Rattle.std.specs.Prelude.{◌≡◌, ◌≤◌, ◌<◌, [], ◌∷◌, ◌++◌, true, false, length, slice_get, Err, IfSome, IfNone, IfOk, OnOk};
ghost use Rattle.frames80.specs.StackFrame.{entry_frame, main_frame};
ghost use Rattle.frames80.specs.Moves.{changed};
ghost use Rattle.frames80.specs.Calls.{agree, merged, returned, room};
ghost use Rattle.frames80_interned.specs.Frames.{frame_at, IsFrame, IsLesserFrame, StayNumbered};
ghost use Rattle.verify80_flow.specs.Points.{AreAddresses, AreApart, IsPointAt, IsNoPoint, Reframes};

use frames80::{CallFault, Change, PointNumbers, Procedure, Role, numbers_are_of_addresses};
use frames80_interned::{Asked, FrameId, Frames, MeetFault};
use std::alloc::{AllocError, Global};
use std::marker::Model;

/// A point, with its frame by number.
#[derive(Clone, Copy)]
struct StoredPoint {
    procedure: Procedure,
    at: u16,
    frame: FrameId,
}

/// The points that are known: addresses of procedures, each with what is known of its frame, in order of first sight; and the
/// frames that they and what leads to them have.
#[derive(Drop)]
pub(crate) struct Points {
    /// The frames, by number.
    frames: Frames,
    /// The points, in order of first sight.
    stored: Vec<StoredPoint>,
    /// The index in `stored` of the point at each address of each procedure.
    numbers: PointNumbers,
}

impl Model for Points {
    ghost use Rattle.verify80_flow.specs.Points.{StoredPoints};

    ghost Value = { StoredPoints };

    ghost use Rattle.verify80_flow.specs.PointStore.{points_of, AreStored};

    ghost view = { λ s. record { points = points_of s.frames s.stored.items; frames = s.frames } };

    ghost invariant = { λ s. AreStored s.frames s.stored.items s.numbers };
}

impl Points {
    /// No points and no frames.
    ///
    /// # Errors
    /// `AllocError` if memory runs out.
    pub(crate) fn new(alloc: Global) -> Result<Points, AllocError>
        ensures { IfOk result (λ points. points ≡ record { points = []; frames = [] }) }
    {
        let numbers = PointNumbers::new(alloc)?;
        Ok(Points {
            frames: Frames::new(alloc),
            stored: Vec::new(alloc),
            numbers,
        })
    }

    /// How many points there are.
    pub(crate) fn len(&self) -> usize
        ensures count { result ≡ length self.now.points }
        ensures apart { AreApart self.now.points }
        ensures addresses { AreAddresses self.now.points }
    {
        numbers_are_of_addresses();
        self.stored.len()
    }

    /// The index of the point at an address of a procedure, or `None` if it isn't known.
    pub(crate) fn position(&self, procedure: Procedure, at: u16) -> Option<usize>
        ensures found { IfSome result (λ i. IsPointAt self.now.points procedure at i) }
        ensures none { IfNone result (IsNoPoint self.now.points procedure at) }
    {
        let number = self.numbers.get(procedure, at)?;
        Some(number as usize)
    }

    /// The procedure and the address of the point with index `i`. `i` must be below the number of
    /// points.
    pub(crate) fn place(&self, i: usize) -> (Procedure, u16)
        requires { i < length self.now.points }
        ensures { IfSome (slice_get self.now.points i) (λ point. (point.procedure ≡ result.0) × (point.at ≡ result.1)) }
    {
        let point = self.stored[i];
        (point.procedure, point.at)
    }

    /// The number of the frame of the point with index `i`. `i` must be below the number of points.
    pub(crate) fn frame(&self, i: usize) -> FrameId
        requires { i < length self.now.points }
        ensures { IfSome (slice_get self.now.points i) (λ point. IsFrame self.now.frames result point.frame) }
    {
        self.stored[i].frame
    }

    /// The frames, by number.
    pub(crate) fn frames(&self) -> &Frames
        ensures { result.now ≡ self.now.frames }
    {
        &self.frames
    }

    /// Appends a point, which must not be known yet; there must be fewer than 4,294,967,295 points
    /// before, and `frame` must be the number of one of the frames here.
    ///
    /// # Errors
    /// `AllocError` if memory runs out: the points are unchanged.
    pub(crate) fn add(
        &mut self,
        procedure: Procedure,
        at: u16,
        frame: FrameId,
    ) -> Result<(), AllocError>
        requires new { IsNoPoint self.old.points procedure at }
        requires room { length self.old.points < 4294967295 }
        requires there { frame < length self.old.frames }
        ensures added { OnOk result (self.new.points ≡ self.old.points
            ++ record { procedure = procedure; at = at; frame = frame_at self.old.frames frame } ∷ []) }
        ensures frames { self.new.frames ≡ self.old.frames }
    {
        self.stored.reserve(1)?;
        self.numbers.put(procedure, at, self.stored.len() as u32)?;
        self.stored.push(StoredPoint {
            procedure,
            at,
            frame,
        })?;
        Ok(())
    }

    /// Sets the frame of the point with index `i`, and nothing else. `i` must be below the number
    /// of points, and `frame` must be the number of one of the frames here.
    pub(crate) fn replace(&mut self, i: usize, frame: FrameId)
        requires here { i < length self.old.points }
        requires there { frame < length self.old.frames }
        ensures reframed { Reframes self.old.points self.new.points i (frame_at self.old.frames frame) }
        ensures frames { self.new.frames ≡ self.old.frames }
    {
        self.stored[i].frame = frame;
    }
}

#[tactic(auto, using(crate::proofs::PointLemmas::stored_stay, crate::proofs::PointLemmas::points_stay, crate::proofs::PointLemmas::frames_stay))]
impl Points {
    /// The number of the frame at the start of a procedure that is called.
    ///
    /// # Errors
    /// `AllocError` if memory runs out.
    pub(crate) fn entry(&mut self) -> Result<FrameId, AllocError>
        ensures entry { IfOk result (λ id. IsFrame self.new.frames id entry_frame) }
        ensures points { self.new.points ≡ self.old.points }
        ensures stays { StayNumbered self.old.frames self.new.frames }
    {
        self.frames.entry()
    }

    /// The number of the frame at the start of the main program.
    ///
    /// # Errors
    /// `AllocError` if memory runs out.
    pub(crate) fn main_entry(&mut self) -> Result<FrameId, AllocError>
        ensures entry { IfOk result (λ id. IsFrame self.new.frames id main_frame) }
        ensures points { self.new.points ≡ self.old.points }
        ensures stays { StayNumbered self.old.frames self.new.frames }
    {
        self.frames.main_entry()
    }

    /// The number of a frame after a change. `frame` must be the number of one of the frames here,
    /// with at most 1,000,000 words taken. The points are unchanged, and frames keep their numbers.
    ///
    /// # Errors
    /// `AllocError` if memory runs out.
    pub(crate) fn change(&mut self, frame: FrameId, change: Change) -> Result<FrameId, AllocError>
        requires there { frame < length self.old.frames }
        requires taken { (frame_at self.old.frames frame).taken ≤ 1000000 }
        ensures changed { IfOk result (λ id. IsFrame self.new.frames id (changed change (frame_at self.old.frames frame))) }
        ensures points { self.new.points ≡ self.old.points }
        ensures stays { StayNumbered self.old.frames self.new.frames }
    {
        self.frames.change(frame, change)
    }

    /// The number of a caller's frame after a call of a procedure that takes `taken` words. `frame`
    /// must be the number of one of the frames here. The points are unchanged, and frames keep
    /// their numbers.
    ///
    /// # Errors
    /// `ShortArguments` if the caller has fewer words above its bottom word (in the main program:
    /// fewer words), or out of memory.
    pub(crate) fn after(
        &mut self,
        frame: FrameId,
        role: Role,
        taken: u32,
    ) -> Result<FrameId, CallFault>
        requires { frame < length self.old.frames }
        ensures enough { OnOk result (taken ≤ room role (frame_at self.old.frames frame).words) }
        ensures back { IfOk result (λ id. IsFrame self.new.frames id (returned taken (frame_at self.old.frames frame))) }
        ensures short { result ≡ Err CallFault.ShortArguments → room role (frame_at self.old.frames frame).words < taken }
        ensures points { self.new.points ≡ self.old.points }
        ensures stays { StayNumbered self.old.frames self.new.frames }
    {
        self.frames.after(frame, role, taken)
    }

    /// The number of a frame like `frame`, in which words and pairs that aren't asked for may have
    /// become `Any`. `frame` must be the number of one of the frames here. The points are
    /// unchanged, and frames keep their numbers.
    ///
    /// # Errors
    /// `AllocError` if memory runs out.
    pub(crate) fn forget(&mut self, frame: FrameId, asked: Asked<'_>) -> Result<FrameId, AllocError>
        requires { frame < length self.old.frames }
        ensures lesser { IfOk result (λ id. IsLesserFrame self.new.frames id (frame_at self.old.frames frame)) }
        ensures points { self.new.points ≡ self.old.points }
        ensures stays { StayNumbered self.old.frames self.new.frames }
    {
        self.frames.forget(frame, asked)
    }

    /// The number of the frame with what is known of both frames; `one` itself if that frame
    /// wouldn't change. Both must be numbers of frames here. The points are unchanged, and frames
    /// keep their numbers.
    ///
    /// # Errors
    /// `HeightsDiffer` if the counts differ, or out of memory.
    pub(crate) fn meet(&mut self, one: FrameId, other: FrameId) -> Result<FrameId, MeetFault>
        requires one { one < length self.old.frames }
        requires other { other < length self.old.frames }
        ensures agree { OnOk result (agree (frame_at self.old.frames one) (frame_at self.old.frames other) ≡ true) }
        ensures merged { IfOk result (λ id.
            IsFrame self.new.frames id (merged (frame_at self.old.frames one) (frame_at self.old.frames other))) }
        ensures unchanged { IfOk result (λ id. merged (frame_at self.old.frames one) (frame_at self.old.frames other)
            ≡ frame_at self.old.frames one → id ≡ one) }
        ensures differ { result ≡ Err MeetFault.HeightsDiffer →
            agree (frame_at self.old.frames one) (frame_at self.old.frames other) ≡ false }
        ensures points { self.new.points ≡ self.old.points }
        ensures stays { StayNumbered self.old.frames self.new.frames }
    {
        self.frames.meet(one, other)
    }
}
