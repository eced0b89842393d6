//! References are applied to bytes: the one kernel that linking and locating share.

ghost use Rattle.std.specs.Prelude.{◌≡◌, IsTrue, length, [], ◌∷◌, ◌+◌, ◌*◌, ◌/◌, ◌%◌};
ghost use Rattle.omf_model.specs.Patches.{with_patches, are_inside, are_apart, is_inside_bytes};

use crate::Field;

/// A word, or one of its bytes, that is added to the bytes at an index.
#[derive(Clone, Copy, PartialEq, Eq)]
pub struct Patch {
    /// The index of the first byte that is changed.
    pub at: usize,
    /// What is added: the low byte of the word to one byte, its high byte to one byte, or the whole
    /// word to two bytes, low byte first.
    pub field: Field,
    /// The word.
    pub word: u16,
}

/// Adds the word of each patch, or one of its bytes, at the patch's index. Each patch must lie
/// inside `bytes`, and no two may share a byte.
pub fn apply_patches(bytes: &mut [u8], patches: &[Patch])
    requires inside { IsTrue (are_inside (length bytes.old) patches.now) }
    requires apart { IsTrue (are_apart patches.now) }
    ensures { bytes.new ≡ with_patches patches.now bytes.old }
{
    for patch in patches {
        apply_patch(bytes, *patch);
    }
}

/// Adds the word of one patch, or one of its bytes, at the patch's index, without carry into other
/// bytes. The patch must lie inside `bytes`.
fn apply_patch(bytes: &mut [u8], patch: Patch)
    requires { IsTrue (is_inside_bytes (length bytes.old) patch) }
    ensures { bytes.new ≡ with_patches (patch ∷ []) bytes.old }
{
    let at = patch.at;
    match patch.field {
        Field::Low => bytes[at] = bytes[at].wrapping_add(low_byte(patch.word)),
        Field::High => bytes[at] = bytes[at].wrapping_add(high_byte(patch.word)),
        Field::Both => {
            let sum = add_words(bytes[at], bytes[at + 1], patch.word);
            bytes[at] = low_byte(sum);
            bytes[at + 1] = high_byte(sum);
        }
    }
}

/// The word of these two bytes plus `word`, modulo 65536.
fn add_words(low: u8, high: u8, word: u16) -> u16
    ensures { result ≡ (low + 256 * high + word) % 65536 }
{
    u16::from_le_bytes([low, high]).wrapping_add(word)
}

/// The low byte of a word.
fn low_byte(word: u16) -> u8
    ensures { result ≡ word % 256 }
{
    (word % 256) as u8
}

/// The high byte of a word.
fn high_byte(word: u16) -> u8
    ensures { result ≡ word / 256 % 256 }
{
    (word / 256) as u8
}
