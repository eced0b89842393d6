//! The sum that a checksum brings to 0.

ghost use Rattle.std.specs.Prelude.{◌≡◌};
ghost use Rattle.omf_core.specs.Record.{byte_sum};

/// The sum of all bytes, modulo 256, as a record's checksum counts them (8080 Object Module Formats, "CHECK SUM").
/// The sum of no bytes is 0. It takes no memory.
pub fn sum_of(bytes: &[u8]) -> u8
    ensures { result ≡ byte_sum bytes.now }
{
    let mut sum = 0u8;
    for byte in bytes {
        sum = sum.wrapping_add(*byte);
    }
    sum
}
