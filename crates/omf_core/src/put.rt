//! Records, and the words and names of their bodies, appended to bytes.

ghost use Rattle.std.specs.Prelude.{◌≡◌, ◌≢◌, ◌+◌, ◌<◌, ◌≤◌, ◌↔◌, [], ◌∷◌, ◌++◌, length, vec_len, vec_capacity, is_ok, Err, OnOk, OnErr, IsErrOf, IsTrue};
ghost use Rattle.omf_core.specs.Name.{is_name, name_spelling};
ghost use Rattle.omf_core.specs.Record.{SpellsRecord, spelling, checksum, word_bytes};
ghost use Rattle.omf_core.specs.declared.fault.PutFault.TheVariants.{TooLong};

use crate::{PutFault, sum_of};
use std::alloc::{AllocError, Global};

/// The most bytes that a record's body has: its length word counts them and the checksum.
const LONGEST_BODY: usize = 65534;

/// Appends the record of this kind and body to `out`: the type byte, the length word, the body and
/// the checksum. `out` grows by its own allocator; `_alloc` isn't used.
///
/// # Errors
/// `TooLong` exactly if the body has more than 65534 bytes, which is tested first; `Memory` only if
/// `out` has no room for the record and can't grow. After either, `out` holds the bytes that it
/// held.
pub fn put_record(_alloc: Global, kind: u8, body: &[u8], out: &mut Vec<u8>) -> Result<(), PutFault>
    ensures appended { OnOk result (out.new.items ≡ out.old.items ++ spelling kind body.now) }
    ensures spells { OnOk result (SpellsRecord out.new.items (vec_len out.old) (vec_len out.new) kind body.now) }
    ensures too_long { IsErrOf result PutFault.TooLong ↔ (65534 < length body.now) }
    ensures refused { OnErr result (out.new.items ≡ out.old.items) }
    ensures memory { IsErrOf result PutFault.Memory → vec_capacity out.old < vec_len out.old + (4 + length body.now) }
{
    if body.len() > LONGEST_BODY {
        return Err(PutFault::TooLong);
    }
    let counted = body.len() + 1;
    let head = [kind, (counted % 256) as u8, (counted / 256) as u8];
    let last = checksum_of(&head, body);
    out.reserve(head.len() + counted)?;
    append_parts(&head, body, last, out);
    Ok(())
}

/// Appends a record to `out`, which must have room for it: `head` is the type byte and the length
/// word, `last` the checksum.
fn append_parts(head: &[u8], body: &[u8], last: u8, out: &mut Vec<u8>)
    requires room { vec_len out.old + (length head.now + (length body.now + 1)) ≤ vec_capacity out.old }
    ensures appended { out.new.items ≡ out.old.items ++ (head.now ++ (body.now ++ last ∷ [])) }
{
    out.extend_from_slice(head).unwrap();
    out.extend_from_slice(body).unwrap();
    out.push(last).unwrap();
}

/// The checksum of a record: the byte that brings the sum of `head` (type byte and length word) and
/// `body` to 0 modulo 256.
fn checksum_of(head: &[u8], body: &[u8]) -> u8
    ensures { result ≡ checksum (head.now ++ body.now) }
{
    sum_of(head).wrapping_add(sum_of(body)).wrapping_neg()
}

/// Converts the result of appending a record whose body fits one: `appended` must not be `TooLong`.
///
/// # Errors
/// `AllocError` exactly if `appended` is `Memory`.
pub fn never_too_long(appended: Result<(), PutFault>) -> Result<(), AllocError>
    requires { appended ≢ Err TooLong }
    ensures { is_ok result ≡ is_ok appended }
{
    match appended {
        Ok(()) => Ok(()),
        Err(PutFault::TooLong) => unreachable!(),
        Err(PutFault::Memory) => Err(AllocError),
    }
}

/// Appends the two bytes of a word to `out`, low byte first.
///
/// # Errors
/// `AllocError` only if `out` can't grow.
pub fn push_word(word: u16, out: &mut Vec<u8>) -> Result<(), AllocError>
    ensures { OnOk result (out.new.items ≡ out.old.items ++ word_bytes word) }
{
    out.extend_from_slice(&[(word % 256) as u8, (word / 256) as u8])
}

/// Appends a name to `out`: its length byte and its bytes. There must be 1 to 255 of them, each 21h
/// to 7Eh.
///
/// # Errors
/// `AllocError` only if `out` can't grow; the length byte may then have been appended.
pub fn push_name(name: &[u8], out: &mut Vec<u8>) -> Result<(), AllocError>
    requires { IsTrue (is_name name.now) }
    ensures { OnOk result (out.new.items ≡ out.old.items ++ name_spelling name.now) }
{
    out.push(name.len() as u8)?;
    out.extend_from_slice(name)
}
