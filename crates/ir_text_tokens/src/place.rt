//! Where a byte stands, as an editor counts.
ghost use Rattle.std.specs.Prelude.{◌≡◌, ◌≤◌, length, take};
ghost use Rattle.ir_text_tokens.specs.Places.{place_after};

/// The line and the column of the byte with this index, both counted from 1, the column in bytes.
pub fn line_and_column(text: &[u8], at: u32) -> (u64, u64)
    requires within { at ≤ length text.now }
    ensures { result ≡ place_after 1 1 (take at text.now) }
{
    let front = &text[..at as usize];
    let mut line = 1;
    let mut column = 1;
    for byte in front {
        if *byte == b'\n' {
            line += 1;
            column = 1;
        } else {
            column += 1;
        }
    }
    (line, column)
}
