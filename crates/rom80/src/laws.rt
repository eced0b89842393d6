//! The laws of the chunks of bytes and of the bytes of a range, over the definitions alone.

ghost use Rattle.rom80.specs.RomLaws.{ChunksHoldBytes, BytesAreTakenOutAgain, ZeroFillIsMemory};

/// A law: the memory of a dump's chunks has the dump's bytes at their addresses and the fill everywhere else; so over
/// the dump's range it has just these bytes.
pub fn chunks_hold_their_bytes()
    ensures memory { ChunksHoldBytes }
    ensures range { BytesAreTakenOutAgain }
{}

/// A law: with the fill 0, the bytes of a range are those of the image's memory.
pub fn zero_fill_is_memory()
    ensures { ZeroFillIsMemory }
{}
