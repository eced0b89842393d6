//! PCHLs by which a procedure returns: HL has its return address.

use crate::chain::{first_before, passed_at};
use crate::changes::may_change;
use crate::leads::{falls_to, is_call, target_of};
use decode80::{Flow, Instr, Pair, StackPair, fetch};
use frames80::Code;
use std::alloc::{AllocError, Global};
use verify80::ImageCode;

/// For each address how many words a procedure has on the stack there above its return address:
/// along the first way that is found there, as if each call left the stack as it was. `None` in the
/// main program, and once the return address is popped or exchanged. `order` has the addresses as
/// they were reached. `AllocError` if memory runs out.
pub(crate) fn find_heights(
    alloc: Global,
    code: &ImageCode<'_>,
    order: &[u16],
) -> Result<Vec<Option<i32>>, AllocError> {
    let mut heights: Vec<Option<i32>> = vec![in alloc; None; 65536]?;
    for at in order {
        pass_on(&mut heights, code, *at);
    }
    Ok(heights)
}

/// Passes the height at an address on to the addresses that its instruction leads to; a called
/// address gets 0.
fn pass_on(heights: &mut Vec<Option<i32>>, code: &ImageCode<'_>, at: u16) {
    let Ok(found) = fetch(at, code) else {
        return;
    };
    let here = height_at(heights, at);
    if let Some(target) = target_of(found.instr) {
        let is_entry = is_call(found.instr);
        give(heights, target, if is_entry { Some(0) } else { here });
    }
    if let Some(next) = falls_to(found) {
        give(heights, next, height_after(here, found.instr));
    }
    if found.instr == Instr::Pchl {
        for target in code.targets(at) {
            give(heights, *target, here);
        }
    }
}

/// How many words are above the return address at an address; `None` if that isn't known.
pub(crate) fn height_at(heights: &[Option<i32>], at: u16) -> Option<i32> {
    *heights.get(usize::from(at))?
}

/// Sets the height at an address, unless one is set already.
fn give(heights: &mut Vec<Option<i32>>, at: u16, height: Option<i32>) {
    if let Some(known) = heights.get_mut(usize::from(at))
        && known.is_none()
    {
        *known = height;
    }
}

/// The height after an instruction; `None` if it wasn't known, the return address is popped or
/// exchanged, or SP is written.
fn height_after(height: Option<i32>, instr: Instr) -> Option<i32> {
    let height = height?;
    match instr.flow() {
        Flow::Pops | Flow::Exchanges if height == 0 => None,
        Flow::Pushes => Some(height.wrapping_add(1)),
        Flow::Pops => Some(height.wrapping_sub(1)),
        Flow::Continues if instr.writes().includes(Pair::Sp) => None,
        Flow::Continues | Flow::Exchanges | Flow::Halts => Some(height),
        Flow::Jumps(_) | Flow::JumpsIf(_, _) | Flow::JumpsToHl => Some(height),
        Flow::Calls(_) | Flow::CallsIf(_, _) => Some(height),
        Flow::Returns | Flow::ReturnsIf(_) => Some(height),
    }
}

/// Which pairs have the procedure's return address, and how many words are above it on the stack.
#[derive(Clone, Copy)]
struct Holders {
    /// How many words are above the return address; `None` if that isn't known or it isn't on the
    /// stack.
    height: Option<i32>,
    /// Whether BC has the return address.
    bc: bool,
    /// Whether DE has the return address.
    de: bool,
    /// Whether HL has the return address.
    hl: bool,
}

impl Holders {
    /// The state after an instruction.
    fn after(self, instr: Instr) -> Holders {
        let on_top = self.height == Some(0);
        let height = height_after(self.height, instr);
        match instr {
            Instr::Pop(StackPair::Bc) if on_top => Holders {
                height,
                bc: true,
                ..self
            },
            Instr::Pop(StackPair::De) if on_top => Holders {
                height,
                de: true,
                ..self
            },
            Instr::Pop(StackPair::Hl) | Instr::Xthl if on_top => Holders {
                height,
                hl: true,
                ..self
            },
            Instr::Xchg => Holders {
                de: self.hl,
                hl: self.de,
                ..self
            },
            _ => Holders {
                height,
                bc: self.bc && !may_change(instr, Pair::Bc),
                de: self.de && !may_change(instr, Pair::De),
                hl: self.hl && !may_change(instr, Pair::Hl),
            },
        }
    }
}

/// Whether HL has the procedure's return address at an address, as far as the instructions show
/// that lead to it one after another.
pub(crate) fn has_return_address(
    code: &ImageCode<'_>,
    reached: &[bool],
    heights: &[Option<i32>],
    at: u16,
) -> bool {
    let mut place = first_before(code, reached, at);
    let mut holders = Holders {
        height: height_at(heights, place),
        bc: false,
        de: false,
        hl: false,
    };
    for _ in 0..65_536_u32 {
        if place == at {
            return holders.hl;
        }
        let Some(passed) = passed_at(code, reached, place) else {
            break;
        };
        holders = holders.after(passed.instr);
        place = passed.next;
    }
    false
}
