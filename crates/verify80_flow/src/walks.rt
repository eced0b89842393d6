//! Walks that are gone step by step, with the very frame that each has at each point: no frames are merged.
//!
//! The steps are taken from a list that may be wrong in any way. A step that isn't there isn't taken, so each point that is noted
//! is one to which a walk comes.

ghost use Rattle.std.specs.Prelude.{◌≡◌, ◌++◌, ◌∷◌, [], true, Some, OnOk, IfOk, IfErr, IfSome};
ghost use Rattle.frames80.specs.StackFrame.{StackFrame};
ghost use Rattle.frames80.specs.Moves.{changed};
ghost use Rattle.frames80_interned.specs.Admitted.{move_of};
ghost use Rattle.frames80_interned.specs.Frames.{StayNumbered};
ghost use Rattle.frames80.specs.Code.{Code as CodeSeen, role_of};
ghost use Rattle.verify80_flow.specs.Faults.{HoldsAnyway};
ghost use Rattle.frames80.specs.Effects.{change_of};
ghost use Rattle.verify80_flow.specs.Walked.{AreWalked, IsCallee, IsMovingFrom, IsWalked};
ghost use Rattle.verify80_flow.specs.Walks.{LeadsTo, called, returning};

use crate::refusal::Refusal;
use crate::survey::target_of;
use frames80::{CallFault, Code, Effect, FrameFault, MOST_WORDS, Procedure, effect_of, role_of};
use frames80_interned::{FrameId, Frames, MeetFault};
use std::alloc::{AllocError, Global};
use verify80_hints::Step;

/// A point that a walk reaches, with the number of the walk's frame there.
#[derive(Clone, Copy)]
pub(crate) struct WalkedPoint {
    procedure: Procedure,
    at: u16,
    frame: FrameId,
}

/// The walks that the steps so far have shown: the point and the frame at the end of each.
#[derive(Drop)]
pub(crate) struct Walks {
    /// The frames, by number.
    frames: Frames,
    /// For each step that was taken the point that it reaches.
    points: Vec<WalkedPoint>,
}

/// Takes steps until one can't be taken or a refusal is shown. `Ok` says nothing of the program.
///
/// # Errors
/// `ReturnNotOwn` or `HeightsDiffer`, if it holds; or `Memory`.
pub(crate) fn go_along<C: Code>(alloc: Global, program: &C, steps: &[Step]) -> Result<(), Refusal>
    ensures { IfErr result (HoldsAnyway (C.code program.now)) }
{
    let mut walks = Walks {
        frames: Frames::new(alloc),
        points: Vec::new(alloc),
    };
    walks.take_all(program, steps)
}

impl Walks {
    /// Takes steps until one can't be taken. A walk must reach each point that is recorded.
    ///
    /// # Errors
    /// `ReturnNotOwn` or `HeightsDiffer`, if it holds; or `Memory`.
    fn take_all<C: Code>(&mut self, program: &C, steps: &[Step]) -> Result<(), Refusal>
        requires { AreWalked (C.code program.now) self.old }
        ensures { IfErr result (HoldsAnyway (C.code program.now)) }
    {
        for step in steps {
            if !self.take(program, *step)? {
                break;
            }
        }
        Ok(())
    }

    /// Takes a step and records the point that it reaches. Answers false, with nothing recorded, if
    /// the step can't be taken. A walk must reach each point that is recorded; one reaches the new
    /// point too.
    ///
    /// # Errors
    /// `ReturnNotOwn` or `HeightsDiffer`, if it holds; or `Memory`.
    fn take<C: Code>(&mut self, program: &C, step: Step) -> Result<bool, Refusal>
        requires { AreWalked (C.code program.now) self.old }
        ensures walked { OnOk result (AreWalked (C.code program.now) self.new) }
        ensures refused { IfErr result (HoldsAnyway (C.code program.now)) }
    {
        match self.next(program, step)? {
            Some(point) => {
                self.add(point)?;
                Ok(true)
            }
            None => Ok(false),
        }
    }

    /// The point that a step reaches, or `None` if the step can't be taken. A walk must reach each
    /// point that is recorded; one reaches the result too.
    ///
    /// # Errors
    /// `ReturnNotOwn` or `HeightsDiffer`, if it holds; or `Memory`.
    fn next<C: Code>(&mut self, program: &C, step: Step) -> Result<Option<WalkedPoint>, Refusal>
        requires { AreWalked (C.code program.now) self.old }
        ensures walked { OnOk result (AreWalked (C.code program.now) self.new) }
        ensures next { IfOk result (λ next. IfSome next (IsWalked (C.code program.now) self.new.frames)) }
        ensures refused { IfErr result (HoldsAnyway (C.code program.now)) }
    {
        match step {
            Step::Begins => self.begin(program),
            Step::GoesOn(from, to) => self.go_on(program, from, to),
            Step::Enters(call) => self.enter(program, call),
            Step::ComesBack(call, exit) => self.come_back(program, call, exit),
            Step::Differs(one, other) => match (self.point(one), self.point(other)) {
                (Some(one), Some(other)) => self.differ(program, &one, &other),
                _ => Ok(None),
            },
        }
    }

    /// Appends the point that a step reached.
    ///
    /// # Errors
    /// `AllocError` if memory runs out.
    fn add(&mut self, point: WalkedPoint) -> Result<(), AllocError>
        ensures points { OnOk result (self.new.points.items ≡ self.old.points.items ++ point ∷ []) }
        ensures frames { self.new.frames ≡ self.old.frames }
    {
        self.points.push(point)?;
        Ok(())
    }

    /// The point that the step with this number reached, or `None` if there is no such step.
    fn point(&self, step: u32) -> Option<WalkedPoint>
        ensures { IfSome result (λ point. (code : CodeSeen) → AreWalked code self.now → IsWalked code self.now.frames point) }
    {
        let number = step as usize;
        if number >= self.points.len() {
            return None;
        }
        Some(self.points[number])
    }

    /// The point that the step with this number reached, its instruction's effect, and the address
    /// after the instruction. `None` if there is no such step, or if the instruction is refused for
    /// anything but the return address. A walk must reach each point that is recorded.
    ///
    /// # Errors
    /// `ReturnNotOwn`, if the instruction is refused for that.
    fn moving<C: Code>(
        &self,
        program: &C,
        step: u32,
    ) -> Result<Option<(WalkedPoint, Effect, u16)>, Refusal>
        requires { AreWalked (C.code program.now) self.now }
        ensures point { IfOk result (λ moving. IfSome moving (λ m. IsWalked (C.code program.now) self.now.frames m.0)) }
        ensures moves { IfOk result (λ moving. IfSome moving (λ m. IsMovingFrom (C.code program.now) self.now.frames m.0 m.1 m.2)) }
        ensures refused { IfErr result (HoldsAnyway (C.code program.now)) }
    {
        let Some(point) = self.point(step) else {
            return Ok(None);
        };
        let Ok(found) = program.look(point.at) else {
            return Ok(None);
        };
        let effect = effect_of(found.instr);
        let role = role_of(program, point.procedure);
        match self.frames.fault_of(point.frame, role, effect) {
            None => Ok(Some((point, effect, found.next))),
            Some(FrameFault::ReturnNotOwn) => Err(Refusal::ReturnNotOwn(point.at)),
            Some(_) => Ok(None),
        }
    }

    /// The main program's start, with its frame there. Never `None`. A walk must reach each point
    /// that is recorded; one reaches the result too.
    ///
    /// # Errors
    /// `Memory`.
    fn begin<C: Code>(&mut self, program: &C) -> Result<Option<WalkedPoint>, Refusal>
        requires { AreWalked (C.code program.now) self.old }
        ensures walked { OnOk result (AreWalked (C.code program.now) self.new) }
        ensures next { IfOk result (λ next. IfSome next (IsWalked (C.code program.now) self.new.frames)) }
        ensures refused { IfErr result (HoldsAnyway (C.code program.now)) }
    {
        let frame = self.frames.main_entry()?;
        Ok(Some(WalkedPoint {
            procedure: Procedure::Main,
            at: program.start(),
            frame,
        }))
    }

    /// The point at `to` if the instruction at the point of step `from` leads there in its
    /// procedure; `None` if it doesn't, is refused, or more than `MOST_WORDS` words are taken. A
    /// walk must reach each point that is recorded; one reaches the result too.
    ///
    /// # Errors
    /// `ReturnNotOwn`, if it holds; or `Memory`.
    fn go_on<C: Code>(
        &mut self,
        program: &C,
        from: u32,
        to: u16,
    ) -> Result<Option<WalkedPoint>, Refusal>
        requires { AreWalked (C.code program.now) self.old }
        ensures walked { OnOk result (AreWalked (C.code program.now) self.new) }
        ensures next { IfOk result (λ next. IfSome next (IsWalked (C.code program.now) self.new.frames)) }
        ensures refused { IfErr result (HoldsAnyway (C.code program.now)) }
    {
        let Some((from, effect, next)) = self.moving(program, from)? else {
            return Ok(None);
        };
        if !leads_to(effect, program.targets(from.at), next, to) {
            return Ok(None);
        }
        if self.frames.taken(from.frame) > MOST_WORDS {
            return Ok(None);
        }
        let frame = self.frames.change(from.frame, effect.change())?;
        Ok(Some(WalkedPoint {
            procedure: from.procedure,
            at: to,
            frame,
        }))
    }

    /// The entry of the procedure that the instruction at the point of step `call` calls; `None` if
    /// it is no call or is refused. A walk must reach each point that is recorded; one reaches the
    /// result too.
    ///
    /// # Errors
    /// `ReturnNotOwn`, if it holds; or `Memory`.
    fn enter<C: Code>(&mut self, program: &C, call: u32) -> Result<Option<WalkedPoint>, Refusal>
        requires { AreWalked (C.code program.now) self.old }
        ensures walked { OnOk result (AreWalked (C.code program.now) self.new) }
        ensures next { IfOk result (λ next. IfSome next (IsWalked (C.code program.now) self.new.frames)) }
        ensures refused { IfErr result (HoldsAnyway (C.code program.now)) }
    {
        let Some((call, effect, _)) = self.moving(program, call)? else {
            return Ok(None);
        };
        let Some(target) = target_of(effect) else {
            return Ok(None);
        };
        let frame = self.frames.entry()?;
        Ok(Some(WalkedPoint {
            procedure: Procedure::Entry(target),
            at: target,
            frame,
        }))
    }

    /// The point after the call at the point of step `call`, if its callee returns at the point of
    /// step `exit`. `None` if that isn't so, an instruction is refused, or the caller has too few
    /// words. A walk must reach each point that is recorded; one reaches the result too.
    ///
    /// # Errors
    /// `ReturnNotOwn`, if it holds; or `Memory`.
    fn come_back<C: Code>(
        &mut self,
        program: &C,
        call: u32,
        exit: u32,
    ) -> Result<Option<WalkedPoint>, Refusal>
        requires { AreWalked (C.code program.now) self.old }
        ensures walked { OnOk result (AreWalked (C.code program.now) self.new) }
        ensures next { IfOk result (λ next. IfSome next (IsWalked (C.code program.now) self.new.frames)) }
        ensures refused { IfErr result (HoldsAnyway (C.code program.now)) }
    {
        let Some((call, effect, next)) = self.moving(program, call)? else {
            return Ok(None);
        };
        let Some((exit, leaving, _)) = self.moving(program, exit)? else {
            return Ok(None);
        };
        if !is_return(leaving) || !is_of_callee(exit.procedure, effect) {
            return Ok(None);
        }
        let taken = self.frames.taken(exit.frame);
        let role = role_of(program, call.procedure);
        match self.frames.after(call.frame, role, taken) {
            Ok(frame) => Ok(Some(WalkedPoint {
                procedure: call.procedure,
                at: next,
                frame,
            })),
            Err(CallFault::ShortArguments) => Ok(None),
            Err(CallFault::Memory) => Err(Refusal::Memory),
        }
    }

    /// Refuses the program if two walks are at one point with different counts; else `None`. A walk
    /// must reach each point that is recorded, and both `one` and `other`.
    ///
    /// # Errors
    /// `HeightsDiffer`, if it holds; or `Memory`.
    fn differ<C: Code>(
        &mut self,
        program: &C,
        one: &WalkedPoint,
        other: &WalkedPoint,
    ) -> Result<Option<WalkedPoint>, Refusal>
        requires walked { AreWalked (C.code program.now) self.old }
        requires one { IsWalked (C.code program.now) self.old.frames one.now }
        requires other { IsWalked (C.code program.now) self.old.frames other.now }
        ensures walked { OnOk result (AreWalked (C.code program.now) self.new) }
        ensures next { IfOk result (λ next. IfSome next (IsWalked (C.code program.now) self.new.frames)) }
        ensures refused { IfErr result (HoldsAnyway (C.code program.now)) }
    {
        if !is_one_point(one, other) {
            return Ok(None);
        }
        match self.frames.meet(one.frame, other.frame) {
            Ok(_) => Ok(None),
            Err(MeetFault::HeightsDiffer) => Err(Refusal::HeightsDiffer(one.at)),
            Err(MeetFault::Memory) => Err(Refusal::Memory),
        }
    }
}

/// Whether two points are one address of one procedure.
fn is_one_point(one: &WalkedPoint, other: &WalkedPoint) -> bool
    ensures { result ≡ true → (one.now.procedure ≡ other.now.procedure) × (one.now.at ≡ other.now.at) }
{
    match (one.procedure, other.procedure) {
        (Procedure::Main, Procedure::Main) => one.at == other.at,
        (Procedure::Entry(entry), Procedure::Entry(other_entry)) => {
            entry == other_entry && one.at == other.at
        }
        _ => false,
    }
}

/// Whether an effect leads to address `to` in its own procedure. `next` is the address after the
/// instruction, and `targets` are the declared targets if it is a PCHL. A call that returns doesn't
/// count.
fn leads_to(effect: Effect, targets: &[u16], next: u16, to: u16) -> bool
    ensures { result ≡ true → (f : StackFrame) → LeadsTo (move_of effect f) targets.now next to (changed (change_of effect) f) }
{
    match effect {
        Effect::Change(_) | Effect::CallIf(_) | Effect::ReturnIf => to == next,
        Effect::Jump(address) => to == address,
        Effect::JumpIf(address) => to == next || to == address,
        Effect::Case => targets.contains(&to),
        Effect::Halt | Effect::Call(_) | Effect::Return | Effect::Refuse(_) => false,
    }
}

/// Whether an effect is a return.
fn is_return(effect: Effect) -> bool
    ensures { result ≡ true → (f : StackFrame) → returning (move_of effect f) ≡ Some f.taken }
{
    matches!(effect, Effect::Return | Effect::ReturnIf)
}

/// Whether an effect calls this procedure.
fn is_of_callee(procedure: Procedure, effect: Effect) -> bool
    ensures { result ≡ true → (f : StackFrame) → IsCallee procedure (called (move_of effect f)) }
{
    match (procedure, target_of(effect)) {
        (Procedure::Entry(entry), Some(target)) => entry == target,
        _ => false,
    }
}
