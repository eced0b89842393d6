//! The search for a key, as it is written before a PCHL. Nothing rests on it: what it finds is read again.

use crate::chain::{first_within, passed_at};
use crate::key_trail::{KeyTrail, Place};
use crate::keys::KeyTable;
use crate::leading::{REACH, jumps_to, stands_before};
use crate::leads::{falls_to, is_call};
use crate::marks::is_marked;
use crate::table::KeyOrder;
use decode80::{Condition, Fetched, Instr, Pair, Register, Writes, ahead, behind, fetch};
use verify80::ImageCode;

/// How many bytes an entry has.
const ENTRY: u8 = 3;
/// How far before the PCHL a jump may be that leads to it.
const BEFORE: u16 = 96;
/// How far before the PCHL, and after it, such a jump may be, together.
const AROUND: u16 = 128;
/// How far before the PCHL such a jump may lead.
const LOADING: u16 = 32;

/// Where a key is compared with the one that is looked for.
#[derive(Clone, Copy)]
struct Comparison {
    /// Where the instructions begin that lead there.
    start: u16,
    /// The address of the jump that depends on it.
    fork: u16,
    /// The key that is compared.
    key: Place,
    /// The address where it goes on if the key isn't the one that is looked for.
    missed: u16,
}

/// The table of keys by which the PCHL at an address goes; `None` if no search before it shows one.
pub(crate) fn find_table(code: &ImageCode<'_>, reached: &[bool], at: u16) -> Option<KeyTable> {
    let table = table_by(code, reached, None, at);
    if table.is_some() {
        return table;
    }
    for distance in 0..AROUND {
        let jump = ahead(behind(at, BEFORE), distance);
        let table = table_by_jump(code, reached, jump, at);
        if table.is_some() {
            return table;
        }
    }
    None
}

/// The table of keys by which a PCHL goes if the jump at `jump` leads to it.
fn table_by_jump(code: &ImageCode<'_>, reached: &[bool], jump: u16, at: u16) -> Option<KeyTable> {
    if !is_marked(reached, jump) {
        return None;
    }
    let to = jumps_to(code, jump)?;
    let is_near = behind(at, to) <= LOADING;
    if is_near && (to == at || stands_before(code, reached, to, at)) {
        table_by(code, reached, Some(jump), at)
    } else {
        None
    }
}

/// The table of keys by which a PCHL goes, by the instructions that stand before it, or before the jump at `jump` that leads to it.
fn table_by(
    code: &ImageCode<'_>,
    reached: &[bool],
    jump: Option<u16>,
    at: u16,
) -> Option<KeyTable> {
    let found = comparison_before(code, reached, jump, at)?;
    let word = word_at(code, reached, found.start, jump, at)?;
    let order = order_of(found.key, word)?;
    let passed = passed_over(code, reached, found)?;
    let test = match passed.last {
        Some(test) if test.key == found.key || test.key.is_behind(found.key, ENTRY) => {
            Some(test.at)
        }
        _ => None,
    };
    let count = match passed.counter {
        Some(register) => mvi_before(code, reached, found, register),
        None => None,
    };
    Some(KeyTable {
        lxi: word.lxi,
        order,
        test,
        count,
        jump,
    })
}

/// How the key and the word of an entry lie together; `None` if they aren't those of the first entry, at the address of the LXI.
fn order_of(key: Place, word: Place) -> Option<KeyOrder> {
    if word.is_behind(key, 1) && key.offset == 0 {
        Some(KeyOrder::KeyFirst)
    } else if key.is_behind(word, 2) && word.offset == 0 {
        Some(KeyOrder::KeyLast)
    } else {
        None
    }
}

/// What is known where the instructions come to `to` that stand before it, from `from` on; `None` if they don't.
fn walked(
    code: &ImageCode<'_>,
    reached: &[bool],
    begun: KeyTrail,
    from: u16,
    to: u16,
) -> Option<KeyTrail> {
    let mut trail = begun;
    let mut place = from;
    for _ in 0..=REACH {
        if place == to {
            return Some(trail);
        }
        let passed = passed_at(code, reached, place)?;
        trail = trail.after(place, passed.instr);
        place = passed.next;
    }
    None
}

/// The last comparison of a key before the PCHL at `at`, or before the jump at `jump` that leads to it.
fn comparison_before(
    code: &ImageCode<'_>,
    reached: &[bool],
    jump: Option<u16>,
    at: u16,
) -> Option<Comparison> {
    let end = jump.unwrap_or(at);
    let start = first_within(code, reached, end, REACH);
    let mut trail = KeyTrail::unknown();
    let mut place = start;
    let mut last = None;
    for _ in 0..=REACH {
        let found = comparison_at(code, start, trail, place, jump);
        if found.is_some() {
            last = found;
        }
        if place == end {
            break;
        }
        let passed = passed_at(code, reached, place)?;
        trail = trail.after(place, passed.instr);
        place = passed.next;
    }
    last
}

/// The comparison on which the instruction at `place` depends: a JNZ that goes elsewhere if the key isn't the one that is looked for, or the
/// JZ at `jump`, that goes on to the PCHL if it is.
fn comparison_at(
    code: &ImageCode<'_>,
    start: u16,
    trail: KeyTrail,
    place: u16,
    jump: Option<u16>,
) -> Option<Comparison> {
    let key = trail.compared_key()?;
    let Ok(found) = fetch(place, code) else {
        return None;
    };
    let is_jump = jump == Some(place);
    let missed = match found.instr {
        Instr::JumpIf(Condition::NonZero, to) if !is_jump => to,
        Instr::JumpIf(Condition::Zero, _) if is_jump => found.next,
        _ => return None,
    };
    Some(Comparison {
        start,
        fork: place,
        key,
        missed,
    })
}

/// The word that HL has at the PCHL at `at`, as the low byte's place in the table.
fn word_at(
    code: &ImageCode<'_>,
    reached: &[bool],
    start: u16,
    jump: Option<u16>,
    at: u16,
) -> Option<Place> {
    let unknown = KeyTrail::unknown();
    let trail = match jump {
        None => walked(code, reached, unknown, start, at)?,
        Some(jump) => {
            let before = walked(code, reached, unknown, start, jump)?;
            walked(code, reached, before, jumps_to(code, jump)?, at)?
        }
    };
    trail.word()
}

/// What is known at the next entry of a table, from a key that isn't the one that is looked for; `None` if the walk isn't seen to get there,
/// or the next entry isn't three bytes further on.
fn passed_over(code: &ImageCode<'_>, reached: &[bool], found: Comparison) -> Option<KeyTrail> {
    let unknown = KeyTrail::unknown();
    let mut trail = walked(code, reached, unknown, found.start, found.fork)?.passed_over();
    let mut place = found.missed;
    for _ in 0..REACH {
        if is_in_loop(found, place) {
            let earlier = walked(code, reached, unknown, found.start, place)?;
            let is_next = trail.is_further(earlier, found.key.lxi, ENTRY);
            return if is_next { Some(trail) } else { None };
        }
        if !is_marked(reached, place) {
            return None;
        }
        let Ok(fetched) = fetch(place, code) else {
            return None;
        };
        trail = trail.after(place, fetched.instr);
        place = next_place(found, fetched)?;
    }
    None
}

/// Whether an address is between the LXI that loads the table's address and the comparison.
fn is_in_loop(found: Comparison, place: u16) -> bool {
    let lxi = found.key.lxi;
    place != lxi && behind(place, lxi) <= behind(found.fork, lxi)
}

/// Where the search goes on to the next entry: by each JMP, and by a conditional jump only if that leads back.
fn next_place(found: Comparison, fetched: Fetched) -> Option<u16> {
    match fetched.instr {
        Instr::Jmp(to) => Some(to),
        Instr::JumpIf(_, to) if is_in_loop(found, to) => Some(to),
        _ => falls_to(fetched),
    }
}

/// The address of the MVI that loads a register before a comparison; `None` if the register may have something else.
fn mvi_before(
    code: &ImageCode<'_>,
    reached: &[bool],
    found: Comparison,
    register: Register,
) -> Option<u16> {
    let mut mvi = None;
    let mut place = found.start;
    for _ in 0..=REACH {
        if place == found.fork {
            return mvi;
        }
        let passed = passed_at(code, reached, place)?;
        mvi = match passed.instr {
            Instr::Mvi(to, _) if to == register => Some(place),
            Instr::Dcr(to) if to == register => mvi,
            instr if may_write(instr, register) => None,
            _ => mvi,
        };
        place = passed.next;
    }
    None
}

/// Whether an instruction may write a register; a call may.
fn may_write(instr: Instr, register: Register) -> bool {
    is_call(instr)
        || match instr.writes() {
            Writes::Nothing => false,
            Writes::One(written) => written == register,
            Writes::Both(pair) => has_register(pair, register),
            Writes::DeAndHl => has_register(Pair::De, register) || has_register(Pair::Hl, register),
        }
}

/// Whether a pair has a register.
fn has_register(pair: Pair, register: Register) -> bool {
    match register {
        Register::A => false,
        Register::B | Register::C => pair == Pair::Bc,
        Register::D | Register::E => pair == Pair::De,
        Register::H | Register::L => pair == Pair::Hl,
    }
}
