//! What a move at a point leads to: each way on, with its frame.

ghost use Rattle.std.specs.Prelude.{◌≡◌, ◌<◌, ◌≤◌, ℕ, List, IfOk, IfErr, OnOk, length};
ghost use Rattle.verify80_flow.specs.Known.{CanLead, Flows, CallsOut, Steps, IsShort};
ghost use Rattle.frames80.specs.declared.moves.Moves.TheVariants.{Either, Case, MaybeCall, MaybeReturn};
ghost use Rattle.frames80.specs.Calls.{room, returned};
ghost use Rattle.frames80.specs.Moves.{changed};
ghost use Rattle.frames80_interned.specs.Admitted.{move_of};
ghost use Rattle.frames80_interned.specs.Frames.{frame_at, IsFrame, StayNumbered};

use crate::laws::frame_laws;
use crate::refusal::Refusal;
use crate::site::Site;
use crate::table::Table;
use frames80::{CallFault, Change, Effect};
use frames80_interned::FrameId;

impl Table {
    /// Adds the frame after a change at the next instruction. Answers whether the table changed.
    /// `site` must have a frame of the table, and the table must be small: no more words in a frame
    /// than there are points.
    ///
    /// # Errors
    /// A refusal that holds, or out of memory.
    fn go_on(&mut self, site: &Site, change: Change) -> Result<bool, Refusal>
        requires { CanLead self.old site.now.frame (length self.old.known.points) }
        ensures flows { Flows self.old.known self.new.known site.now.procedure site.now.next
            (changed change (frame_at self.old.frames site.now.frame)) result }
        ensures stays { StayNumbered self.old.frames self.new.frames }
    {
        let frame = self.points.change(site.frame, change)?;
        self.flow(site.procedure, site.next, frame)
    }

    /// The number of the caller's frame at the instruction after a call of a procedure that takes
    /// `taken` words. What is known is unchanged. `site` must have a frame of the table.
    ///
    /// # Errors
    /// `ShortArguments` if the caller has fewer words above its bottom word; any other refusal that holds; out of memory.
    fn come_back(&mut self, site: &Site, taken: u32) -> Result<FrameId, Refusal>
        requires { site.now.frame < length self.old.frames }
        ensures enough { OnOk result (taken ≤ room site.now.role (frame_at self.old.frames site.now.frame).words) }
        ensures back { IfOk result (λ id. IsFrame self.new.frames id (returned taken (frame_at self.old.frames site.now.frame))) }
        ensures short { IfErr result
            (IsShort site.now.at (room site.now.role (frame_at self.old.frames site.now.frame).words) taken) }
        ensures known { self.new.known ≡ self.old.known }
        ensures stays { StayNumbered self.old.frames self.new.frames }
    {
        match self.points.after(site.frame, site.role, taken) {
            Ok(back) => Ok(back),
            Err(CallFault::ShortArguments) => Err(Refusal::ShortArguments(site.at)),
            Err(CallFault::Memory) => Err(Refusal::Memory),
        }
    }

    /// Enters a callee, and if a return of it was seen, adds the caller's frame at the next
    /// instruction, without the words that the callee takes; else the call waits for a return.
    /// Answers whether the table changed. `site` must have a frame of the table, and the table must
    /// be small: no more words in a frame than there are points.
    ///
    /// # Errors
    /// A refusal that holds, or out of memory.
    fn call(&mut self, site: &Site, target: u16) -> Result<bool, Refusal>
        requires { CanLead self.old site.now.frame (length self.old.known.points) }
        ensures calls { CallsOut self.old.known self.new.known site.now.procedure site.now.at site.now.next site.now.role
            (frame_at self.old.frames site.now.frame) target result }
        ensures stays { StayNumbered self.old.frames self.new.frames }
    {
        frame_laws();
        let entered = self.enter(target)?;
        match self.exit_of(target) {
            None => {
                self.callers.add(target, site.point, site.at)?;
                Ok(entered)
            }
            Some(taken) => {
                let back = self.come_back(site, taken)?;
                let went_on = self.flow(site.procedure, site.next, back)?;
                Ok(entered | went_on)
            }
        }
    }

    /// Adds the frame of a conditional jump at the next instruction and at `to`. Answers whether
    /// the table changed. `site` must have a frame of the table, and the table must be small: no
    /// more words in a frame than there are points. `Err` is a refusal that holds, or `Memory`.
    fn branch(&mut self, site: &Site, to: u16) -> Result<bool, Refusal>
        requires { CanLead self.old site.now.frame (length self.old.known.points) }
        ensures steps { (targets : List ℕ) →
            Steps self.old.known self.new.known site.now.procedure site.now.at targets site.now.next site.now.role
            (Either (frame_at self.old.frames site.now.frame) to) result }
        ensures stays { StayNumbered self.old.frames self.new.frames }
    {
        frame_laws();
        let one = self.flow(site.procedure, site.next, site.frame)?;
        let other = self.flow(site.procedure, to, site.frame)?;
        Ok(one | other)
    }

    /// Adds the frame of a PCHL at each of its declared targets. Answers whether the table changed.
    /// `site` must have a frame of the table, and the table must be small: no more words in a frame
    /// than there are points. `Err` is a refusal that holds, or `Memory`.
    fn go_to_each(&mut self, site: &Site, targets: &[u16]) -> Result<bool, Refusal>
        requires { CanLead self.old site.now.frame (length self.old.known.points) }
        ensures steps { Steps self.old.known self.new.known site.now.procedure site.now.at targets.now site.now.next site.now.role
            (Case (frame_at self.old.frames site.now.frame)) result }
        ensures stays { StayNumbered self.old.frames self.new.frames }
    {
        frame_laws();
        let mut changed = false;
        for to in targets {
            let here = self.flow(site.procedure, *to, site.frame)?;
            changed |= here;
        }
        Ok(changed)
    }

    /// Follows a conditional call both ways: adds its frame at the next instruction, and calls.
    /// Answers whether the table changed. `site` must have a frame of the table, and the table must
    /// be small: no more words in a frame than there are points. `Err` is a refusal that holds, or
    /// `Memory`.
    fn call_if(&mut self, site: &Site, target: u16) -> Result<bool, Refusal>
        requires { CanLead self.old site.now.frame (length self.old.known.points) }
        ensures steps { (targets : List ℕ) →
            Steps self.old.known self.new.known site.now.procedure site.now.at targets site.now.next site.now.role
            (MaybeCall (frame_at self.old.frames site.now.frame) target) result }
        ensures stays { StayNumbered self.old.frames self.new.frames }
    {
        frame_laws();
        let one = self.flow(site.procedure, site.next, site.frame)?;
        let other = self.call(site, target)?;
        Ok(one | other)
    }

    /// Follows a conditional return both ways: adds its frame at the next instruction, and returns
    /// with `taken` words taken. Answers whether the table changed. `site` must have a frame of the
    /// table, and the table must be small: no more words in a frame than there are points. `Err` is
    /// a refusal that holds, or `Memory`.
    fn return_if(&mut self, site: &Site, taken: u32) -> Result<bool, Refusal>
        requires { CanLead self.old site.now.frame (length self.old.known.points) }
        ensures steps { (targets : List ℕ) →
            Steps self.old.known self.new.known site.now.procedure site.now.at targets site.now.next site.now.role
            (MaybeReturn (frame_at self.old.frames site.now.frame) taken) result }
        ensures stays { StayNumbered self.old.frames self.new.frames }
    {
        frame_laws();
        let one = self.flow(site.procedure, site.next, site.frame)?;
        let other = self.exit(site.procedure, site.at, taken)?;
        Ok(one | other)
    }

    /// Adds the frames that an effect leads to: at the next instruction, at a target, or at each of
    /// `targets` for a PCHL. Answers whether the table changed. `site` must have a frame of the
    /// table, and the table must be small: no more words in a frame than there are points.
    ///
    /// # Errors
    /// A refusal that holds, or out of memory.
    pub(super) fn follow(
        &mut self,
        site: &Site,
        targets: &[u16],
        effect: Effect,
    ) -> Result<bool, Refusal>
        requires { CanLead self.old site.now.frame (length self.old.known.points) }
        ensures { Steps self.old.known self.new.known site.now.procedure site.now.at targets.now site.now.next site.now.role
            (move_of effect (frame_at self.old.frames site.now.frame)) result }
    {
        frame_laws();
        match effect {
            Effect::Change(change) => self.go_on(site, change),
            Effect::Jump(to) => self.flow(site.procedure, to, site.frame),
            Effect::JumpIf(to) => self.branch(site, to),
            Effect::Case => self.go_to_each(site, targets),
            Effect::Call(target) => self.call(site, target),
            Effect::CallIf(target) => self.call_if(site, target),
            Effect::Return => {
                let taken = self.points.frames().taken(site.frame);
                self.exit(site.procedure, site.at, taken)
            }
            Effect::ReturnIf => {
                let taken = self.points.frames().taken(site.frame);
                self.return_if(site, taken)
            }
            // What is refused in every frame isn't followed.
            Effect::Halt | Effect::Refuse(_) => Ok(false),
        }
    }
}
