//! Numbers of rows, operations, blocks and values, which are kept in 32 bits.
ghost use Rattle.std.specs.Prelude.{◌≡◌, min};

/// The number; the greatest where it is greater.
pub fn narrow(number: usize) -> u32
    ensures { result ≡ min number 4294967295 }
{
    if number < 4294967295 {
        number as u32
    } else {
        u32::MAX
    }
}
