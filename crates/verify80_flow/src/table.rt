//! The table of frames while it fills.

ghost use Rattle.std.specs.Prelude.{◌≡◌, ◌+◌, ◌<◌, ◌≤◌, ℕ, Bool, is_some, List, false, true, Some, None, Ok, Err, IfOk, IfErr, OnOk, IfSome, length, replicate, slice_get};
ghost use Rattle.frames80.specs.declared.procedure.Procedure.TheVariants.{Main, Entry};
ghost use Rattle.verify80_flow.specs.Points.{AreAddresses, IsPointAt, IsNoPoint};
ghost use Rattle.verify80_flow.specs.Known.{CanLead, IsSmall, Stands, Flows, Exits, CallsOut, Steps, Visits, ManyVisits};
ghost use Rattle.verify80_flow.specs.Known.{Sweeps, Lessens, Refused, AreClosed, AllClosed, IsShort, exit_of, nothing_known};
ghost use Rattle.frames80.specs.declared.moves.Moves.TheVariants.{Either, Case, MaybeCall, MaybeReturn};
ghost use Rattle.frames80.specs.Calls.{room, returned};
ghost use Rattle.frames80.specs.Moves.{changed};
ghost use Rattle.frames80.specs.StackFrame.{entry_frame, main_frame};
ghost use Rattle.frames80_interned.specs.Admitted.{move_of};
ghost use Rattle.frames80_interned.specs.Frames.{frame_at, IsFrame, StayNumbered};
ghost use Rattle.verify80_flow.specs.Survey.{EffectIsAt, IsEntered};
ghost use Rattle.verify80_flow.specs.ProgramPoints.{program_point};
ghost use Rattle.frames80.specs.Code.{role_of};

mod leading;

use crate::laws::frame_laws;
use crate::points::Points;
use crate::refusal::Refusal;
use crate::report::ProgramPoint;
use crate::site::Site;
use frames80::{CallFault, Change, Code, Effect, MOST_POINTS, Procedure, Role, effect_of, role_of};
use frames80_interned::{FrameId, Frames, MeetFault};
use std::alloc::{AllocError, Global};
use std::marker::Model;
use verify80_hints::{AskedPlaces, Callers, Pending};

/// How many visits each new point adds to those that are allowed. In most programs a point is
/// visited once or twice.
const VISITS_FOR_A_POINT: u64 = 4;

/// What is known so far: the points with their frames, how many words each procedure takes where it
/// returns, once a return of it was seen, and the points that are still to be visited. A table is
/// small if it has at most `MOST_POINTS` points, no two at one address of a procedure, and no frame
/// of a point has more words, or more words taken, than there are points.
#[derive(Drop)]
pub(crate) struct Table {
    points: Points,
    /// For each entry how many words its procedure takes, once a return of it was seen.
    exits: Vec<Option<u32>>,
    /// The points that wait for a callee to return.
    callers: Callers,
    /// The points that are still to be visited.
    pending: Pending,
    /// What returns ask for, if frames are to forget the rest.
    asked: Option<AskedPlaces>,
    /// How many points may still be visited before the table is spent.
    visits_left: u64,
}

impl Model for Table {
    ghost use Rattle.std.specs.Prelude.{◌≡◌, is_some, length};
    ghost use Rattle.verify80_flow.specs.Known.{KnownFrames};

    ghost Value = { KnownFrames };

    ghost view = { λ t. record { known = record { points = t.points.points; exits = t.exits.items; forgets = is_some t.asked }; frames = t.points.frames } };

    ghost invariant = { λ t. length t.exits.items ≡ 65536 };
}

impl Table {
    /// An empty table for `program`. With `forgets`, the frames of new points forget what no return
    /// asks for. The table is spent after `visits_left` visits, and four more for each point that is
    /// added before.
    ///
    /// # Errors
    /// `AllocError` if memory runs out.
    pub(crate) fn new<C: Code>(
        alloc: Global,
        program: &C,
        forgets: bool,
        visits_left: u64,
    ) -> Result<Table, AllocError>
        ensures { IfOk result (λ table. table.known ≡ nothing_known forgets) }
    {
        // The points are made last: what is made before them is given back if they can't be.
        let exits = no_exits(alloc)?;
        let callers = Callers::new(alloc)?;
        let pending = Pending::new(alloc, program)?;
        let asked = find_asked(alloc, program, forgets)?;
        let points = Points::new(alloc)?;
        Ok(Table {
            points,
            exits,
            callers,
            pending,
            asked,
            visits_left,
        })
    }

    /// Adds a frame that reaches an address of a procedure: the point is new with this frame, or
    /// its frame becomes what is known of both. Answers whether the table changed. `frame` must be
    /// one of the table's frames, with at most one word more, and one more taken, than there are
    /// points. The table must be small: no more words in a frame than there are points.
    ///
    /// # Errors
    /// A refusal that holds, or out of memory.
    fn flow(&mut self, procedure: Procedure, to: u16, frame: FrameId) -> Result<bool, Refusal>
        requires { CanLead self.old frame (length self.old.known.points + 1) }
        ensures flows { Flows self.old.known self.new.known procedure to (frame_at self.old.frames frame) result }
        ensures stays { StayNumbered self.old.frames self.new.frames }
    {
        match self.points.position(procedure, to) {
            Some(i) => self.merge(i, procedure, to, frame),
            None => self.add(procedure, to, frame),
        }
    }

    /// Adds a new point, whose frame may forget what no return asks for; the point is to be
    /// visited. Always answers true. There must be no point at this address of the procedure yet.
    /// `frame` must be one of the table's frames, with at most one word more, and one more taken,
    /// than there are points. The table must be small: no more words in a frame than there are
    /// points.
    ///
    /// # Errors
    /// `TooManyPoints` if there are `MOST_POINTS` already, or out of memory.
    fn add(&mut self, procedure: Procedure, to: u16, frame: FrameId) -> Result<bool, Refusal>
        requires frame { CanLead self.old frame (length self.old.known.points + 1) }
        requires new { IsNoPoint self.old.known.points procedure to }
        ensures flows { Flows self.old.known self.new.known procedure to (frame_at self.old.frames frame) result }
        ensures stays { StayNumbered self.old.frames self.new.frames }
    {
        let number = self.points.len();
        if number >= MOST_POINTS {
            return Err(Refusal::TooManyPoints);
        }
        let lesser = self.lessen(procedure, to, frame)?;
        self.points.add(procedure, to, lesser)?;
        // A table that is spent stays so.
        self.visits_left = self
            .visits_left
            .saturating_add(self.visits_left.min(VISITS_FOR_A_POINT));
        self.visit_again(number, to)?;
        Ok(true)
    }

    /// The number of the frame for a new point: `frame` without what no return asks for there, or
    /// `frame` itself in a table that forgets nothing. `frame` must be one of the table's frames.
    /// What is known is unchanged.
    ///
    /// # Errors
    /// `AllocError` if memory runs out.
    fn lessen(
        &mut self,
        procedure: Procedure,
        to: u16,
        frame: FrameId,
    ) -> Result<FrameId, AllocError>
        requires { frame < length self.old.frames }
        ensures lesser { IfOk result (λ id. Lessens self.old.known.forgets self.new.frames id (frame_at self.old.frames frame)) }
        ensures known { self.new.known ≡ self.old.known }
        ensures stays { StayNumbered self.old.frames self.new.frames }
    {
        match &mut self.asked {
            Some(asked) => {
                asked.look_up(procedure, to)?;
                self.points.forget(frame, asked.found())
            }
            None => Ok(frame),
        }
    }

    /// Merges a frame into that of the known point with index `i`, which is to be visited again if
    /// its frame changes. Answers whether it does. Point `i` must be the one at address `to` of the
    /// procedure, and `frame` one of the table's frames. The table must be small: no more words in
    /// a frame than there are points.
    ///
    /// # Errors
    /// `HeightsDiffer` if the frames differ in their counts, or out of memory.
    fn merge(
        &mut self,
        i: usize,
        procedure: Procedure,
        to: u16,
        frame: FrameId,
    ) -> Result<bool, Refusal>
        requires small { IsSmall self.old.known }
        requires there { frame < length self.old.frames }
        requires at { IsPointAt self.old.known.points procedure to i }
        ensures flows { Flows self.old.known self.new.known procedure to (frame_at self.old.frames frame) result }
        ensures stays { StayNumbered self.old.frames self.new.frames }
    {
        frame_laws();
        let kept = self.points.frame(i);
        let merged = match self.points.meet(kept, frame) {
            Ok(merged) => merged,
            Err(MeetFault::HeightsDiffer) => return Err(Refusal::HeightsDiffer(to)),
            Err(MeetFault::Memory) => return Err(Refusal::Memory),
        };
        if merged == kept {
            return Ok(false);
        }
        self.points.replace(i, merged);
        self.visit_again(i, to)?;
        Ok(true)
    }

    /// Records that a procedure returns from `at` with `taken` words taken. At its first return the
    /// points that wait for it are to be visited again. Answers whether that was the first; false
    /// for the main program. The table must be small: no more words in a frame than there are
    /// points.
    ///
    /// # Errors
    /// `UnevenArguments` if another return of the procedure takes another number of words, or out
    /// of memory.
    fn exit(&mut self, procedure: Procedure, at: u16, taken: u32) -> Result<bool, Refusal>
        requires { IsSmall self.old.known }
        ensures exits { Exits self.old.known self.new.known procedure at taken result }
        ensures stays { StayNumbered self.old.frames self.new.frames }
    {
        let Procedure::Entry(entry) = procedure else {
            return Ok(false);
        };
        match self.exits[usize::from(entry)] {
            None => {
                self.callers.wake(entry, &mut self.pending)?;
                self.exits[usize::from(entry)] = Some(taken);
                Ok(true)
            }
            Some(seen) if seen == taken => Ok(false),
            Some(_) => Err(Refusal::UnevenArguments(at)),
        }
    }

    /// Adds the main program's frame at its start. Answers whether the table changed. The table
    /// must be small: no more words in a frame than there are points.
    ///
    /// # Errors
    /// A refusal that holds, or out of memory.
    fn begin(&mut self, start: u16) -> Result<bool, Refusal>
        requires { IsSmall self.old.known }
        ensures { Flows self.old.known self.new.known Main start main_frame result }
    {
        let frame = self.points.main_entry()?;
        self.flow(Procedure::Main, start, frame)
    }

    /// Adds a callee's frame at its entry `target`. Answers whether the table changed. The table
    /// must be small: no more words in a frame than there are points.
    ///
    /// # Errors
    /// A refusal that holds, or out of memory.
    fn enter(&mut self, target: u16) -> Result<bool, Refusal>
        requires { IsSmall self.old.known }
        ensures flows { Flows self.old.known self.new.known (Entry target) target entry_frame result }
        ensures stays { StayNumbered self.old.frames self.new.frames }
    {
        let frame = self.points.entry()?;
        self.flow(Procedure::Entry(target), target, frame)
    }

    /// The point with index `point` as a site, and the effect of its instruction, if the
    /// instruction may be executed there with the point's frame. `point` must be below the number
    /// of points.
    ///
    /// # Errors
    /// A refusal that holds.
    pub(crate) fn effect_at<C: Code>(
        &self,
        program: &C,
        point: usize,
    ) -> Result<(Site, Effect), Refusal>
        requires { point < length self.now.known.points }
        ensures moves { IfOk result (λ r. EffectIsAt (C.code program.now) self.now point r.0 r.1) }
        ensures refused { IfErr result (λ refusal. (exact : Bool) → Stands exact (C.code program.now) self.now.known →
            Refused exact (C.code program.now) refusal) }
    {
        frame_laws();
        let (procedure, at) = self.points.place(point);
        let found = match program.look(at) {
            Ok(found) => found,
            Err(fault) => return Err(Refusal::of_look(fault, at)),
        };
        let role = role_of(program, procedure);
        let frame = self.points.frame(point);
        let effect = effect_of(found.instr);
        if let Some(fault) = self.points.frames().fault_of(frame, role, effect) {
            return Err(Refusal::of(fault, at));
        }
        let site = Site {
            procedure,
            role,
            at,
            next: found.next,
            point,
            frame,
        };
        Ok((site, effect))
    }

    /// Visits the point with index `point`, which must be below the number of points: adds the
    /// frames that its instruction leads to. Answers whether the table changed. The table must be
    /// small: no more words in a frame than there are points.
    ///
    /// # Errors
    /// A refusal that holds, or out of memory.
    fn visit<C: Code>(&mut self, program: &C, point: usize) -> Result<bool, Refusal>
        requires small { IsSmall self.old.known }
        requires there { point < length self.old.known.points }
        ensures { Visits (C.code program.now) self.old.known self.new.known point result }
    {
        let (site, effect) = self.effect_at(program, point)?;
        self.follow(&site, program.targets(site.at), effect)
    }

    /// Visits the points that wait, and those that then have to, until none waits or the visits are
    /// spent. Answers whether the table changed. The table must be small: no more words in a frame
    /// than there are points. `Err` is a refusal that holds, or `Memory`.
    fn drain<C: Code>(&mut self, program: &C) -> Result<bool, Refusal>
        requires { IsSmall self.old.known }
        ensures { ManyVisits (C.code program.now) self.old.known self.new.known result }
    {
        let mut changed = false;
        // (The bound is never met: a point is put there only if a frame has changed, which no frame can do for ever. Nothing
        // rests on it, since a pass over all points follows.)
        for _ in 0..u64::MAX {
            let Some(point) = self.next_pending() else {
                break;
            };
            let here = self.visit(program, point)?;
            changed |= here;
        }
        Ok(changed)
    }

    /// Whether no visits are left of those that are allowed.
    pub(crate) fn is_spent(&self) -> bool {
        self.visits_left == 0
    }

    /// Takes the next point that waits, and one of the visits that are left; `None` if no point
    /// waits or no visits are left.
    fn next_pending(&mut self) -> Option<usize>
        ensures same { self.new ≡ self.old }
        ensures there { IfSome result (λ point. point < length self.new.known.points) }
    {
        self.visits_left = self.visits_left.checked_sub(1)?;
        match self.pending.take() {
            Some(point) if point < self.points.len() => Some(point),
            _ => None,
        }
    }

    /// Visits each point once. Answers whether the table changed; if not, each point's instruction
    /// leads to frames that the table covers. The table must be small: no more words in a frame
    /// than there are points. `Err` is a refusal that holds, or `Memory`.
    fn pass<C: Code>(&mut self, program: &C) -> Result<bool, Refusal>
        requires { IsSmall self.old.known }
        ensures visits { ManyVisits (C.code program.now) self.old.known self.new.known result }
        ensures closed { IfOk result (λ changed. changed ≡ false →
            AreClosed (C.code program.now) self.new.known (length self.new.known.points)) }
    {
        let mut changed = false;
        for point in 0..self.len() {
            let here = self.visit(program, point)?;
            changed |= here;
        }
        Ok(changed)
    }

    /// Visits the points that wait, then adds the main program's start, and visits every point.
    /// Answers whether the last two changed the table; if not, the table is filled. The table must
    /// be small: no more words in a frame than there are points.
    ///
    /// # Errors
    /// A refusal that holds, or out of memory.
    pub(crate) fn sweep<C: Code>(&mut self, program: &C) -> Result<bool, Refusal>
        requires { IsSmall self.old.known }
        ensures sweeps { Sweeps (C.code program.now) self.old.known self.new.known result }
        ensures closed { IfOk result (λ changed. changed ≡ false → AllClosed (C.code program.now) self.new.known) }
    {
        self.drain(program)?;
        let begun = self.begin(program.start())?;
        let passed = self.pass(program)?;
        Ok(begun | passed)
    }

    /// How many points there are.
    pub(crate) fn len(&self) -> usize
        ensures count { result ≡ length self.now.known.points }
        ensures addresses { AreAddresses self.now.known.points }
    {
        self.points.len()
    }

    /// The procedure of the point with index `i`. `i` must be below the number of points.
    pub(crate) fn procedure(&self, i: usize) -> Procedure
        requires { i < length self.now.known.points }
        ensures { IfSome (slice_get self.now.known.points i) (λ point. point.procedure ≡ result) }
    {
        self.points.place(i).0
    }

    /// How many words are taken at the point with index `i`. `i` must be below the number of
    /// points.
    pub(crate) fn taken(&self, i: usize) -> u32
        requires { i < length self.now.known.points }
        ensures { IfSome (slice_get self.now.known.points i) (λ point. result ≡ point.frame.taken) }
    {
        self.frames().taken(self.points.frame(i))
    }

    /// The procedure, the address and the counts of the point with index `i`, as they are reported.
    /// `i` must be below the number of points.
    pub(crate) fn program_point(&self, i: usize) -> ProgramPoint
        requires { i < length self.now.known.points }
        ensures { IfSome (slice_get self.now.known.points i) (λ point. result ≡ program_point point) }
    {
        let (procedure, at) = self.points.place(i);
        let frame = self.points.frame(i);
        ProgramPoint {
            procedure,
            at,
            words: self.frames().words(frame),
            taken: self.frames().taken(frame),
        }
    }

    /// The frames, by number.
    pub(crate) fn frames(&self) -> &Frames
        ensures { result.now ≡ self.now.frames }
    {
        self.points.frames()
    }

    /// Whether a call reaches the procedure that is entered at an address.
    pub(crate) fn is_entered(&self, entry: u16) -> bool
        ensures yes { result ≡ true → IsEntered self.now.known entry }
        ensures no { result ≡ false → IsNoPoint self.now.known.points (Entry entry) entry }
    {
        self.points
            .position(Procedure::Entry(entry), entry)
            .is_some()
    }

    /// How many words the procedure at `entry` takes where it returns, or `None` if no return of it
    /// was seen.
    pub(crate) fn exit_of(&self, entry: u16) -> Option<u32>
        ensures { result ≡ exit_of self.now.known.exits entry }
    {
        self.exits[usize::from(entry)]
    }

    /// Adds a point, which is at address `at`, to those that wait to be visited. What is known is
    /// unchanged. `AllocError` if memory runs out.
    fn visit_again(&mut self, point: usize, at: u16) -> Result<(), AllocError>
        ensures { self.new ≡ self.old }
    {
        self.pending.add(point, at)
    }
}

/// What a program's returns ask for, if `wanted` is set.
///
/// # Errors
/// `AllocError` if memory runs out.
fn find_asked<C: Code>(
    alloc: Global,
    program: &C,
    wanted: bool,
) -> Result<Option<AskedPlaces>, AllocError>
    ensures { IfOk result (λ asked. is_some asked ≡ wanted) }
{
    if !wanted {
        return Ok(None);
    }
    Ok(Some(AskedPlaces::find(alloc, program)?))
}

/// A table of 65,536 entries without any return seen. `AllocError` if memory runs out.
fn no_exits(alloc: Global) -> Result<Vec<Option<u32>>, AllocError>
    ensures { IfOk result (λ exits. exits.items ≡ replicate 65536 None) }
{
    let exits = vec![in alloc; None; 65536]?;
    Ok(exits)
}
