//! A record is read.

ghost use Rattle.std.specs.Prelude.{◌≡◌, ◌↔◌, ◌+◌, ◌<◌, ◌≤◌, ℕ, List, length, drop, Some, IfOk, IsOk, IsTrue};
ghost use Rattle.std.specs.Result.{result_err};
ghost use Rattle.omf_core.specs.Record.{SpellsRecord, fault_at, head_kind, head_body, record_size, word_at, is_truncated};

use crate::{RecordFault, sum_of};

/// A record as it lies in a file: its type byte and its body, without length word and checksum.
/// A body has at most 65534 bytes. (8080 Object Module Formats, record layout.)
#[derive(Clone, Copy, PartialEq, Eq, Debug)]
pub struct Record<'a> {
    /// The type byte; [`RecordKind`](crate::RecordKind) names those of the standard.
    pub kind: u8,
    /// The bytes between the length word and the checksum.
    pub body: &'a [u8],
}

/// Reads the record of any kind that begins at place `at`, and gives it with the place after its checksum.
///
/// # Errors
/// The first of these that holds, each with the place `at`:
/// `Truncated` if fewer than 3 bytes stand from `at` on, also if `at` is past the end;
/// `ZeroLength` if the length word is 0; `Truncated` if fewer bytes follow than the length word counts;
/// `BadSum` if the record's bytes don't sum to 0 modulo 256.
///
/// Takes no memory: the body borrows from `bytes`.
pub fn next_record<'a>(bytes: &'a [u8], at: usize) -> Result<(Record<'a>, usize), RecordFault>
    // What is read is what the bytes from `at` on spell, and nothing that they spell is refused.
    ensures read { IfOk result (λ r. SpellsRecord bytes.now at r.1 r.0.kind r.0.body.now) }
    ensures every_record { (kind : ℕ) (body : List ℕ) (after : ℕ)
        → SpellsRecord bytes.now at after kind body
        → IsOk result }

    // The same, computed from the bytes that stand from `at` on.
    ensures kind { IfOk result (λ r. r.0.kind ≡ head_kind (drop at bytes.now)) }
    ensures body { IfOk result (λ r. r.0.body.now ≡ head_body (drop at bytes.now)) }
    ensures after { IfOk result (λ r. r.1 ≡ at + record_size (drop at bytes.now)) }
    ensures longest { IfOk result (λ r. length r.0.body.now ≤ 65534) }

    // Each refusal has its cause.
    ensures fault { result_err result ≡ fault_at (drop at bytes.now) at }
{
    let Some(rest) = bytes.get(at..) else {
        return Err(RecordFault::Truncated(at));
    };
    let counted = checked_length(rest, at)?;
    let record = Record {
        kind: rest[0],
        body: &rest[3..2 + counted],
    };
    Ok((record, at + 3 + counted))
}

/// Checks the record that begins `rest`, and returns the number in its length word: the bytes of
/// its body and its checksum. `Err` is the record's first fault, with its place `at`.
fn checked_length(rest: &[u8], at: usize) -> Result<usize, RecordFault>
    ensures word { IfOk result (λ counted. counted ≡ word_at rest.now 1) }
    ensures some { IfOk result (λ counted. 0 < counted) }
    ensures few { IfOk result (λ counted. counted ≤ 65535) }
    ensures whole { IfOk result (λ counted. 3 + counted ≤ length rest.now) }
    ensures fault { result_err result ≡ fault_at rest.now at }
{
    if rest.len() < 3 {
        return Err(RecordFault::Truncated(at));
    }
    let counted = rest[1] as usize + 256 * rest[2] as usize;
    if counted == 0 {
        return Err(RecordFault::ZeroLength(at));
    }
    if rest.len() - 3 < counted {
        return Err(RecordFault::Truncated(at));
    }
    if sum_of(&rest[..3 + counted]) != 0 {
        return Err(RecordFault::BadSum(at));
    }
    Ok(counted)
}

/// Whether [`next_record`] answers `Truncated` for place `at`: the bytes end before the record
/// does. No sum is computed, and it takes no memory.
pub fn is_cut_off(bytes: &[u8], at: usize) -> bool
    ensures { IsTrue result ↔ (fault_at (drop at bytes.now) at ≡ Some (RecordFault.Truncated at)) }
{
    match bytes.get(at..) {
        Some(rest) => is_incomplete(rest),
        None => true,
    }
}

/// Whether `rest` ends before its first record does: it has fewer than 3 bytes, or fewer bytes
/// follow than the length word counts.
fn is_incomplete(rest: &[u8]) -> bool
    ensures { result ≡ is_truncated rest.now }
{
    if rest.len() < 3 {
        return true;
    }
    rest.len() - 3 < rest[1] as usize + 256 * rest[2] as usize
}
