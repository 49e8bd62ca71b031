//! Bytes and blanks written to the end, or up to where the writer fails.
ghost use Rattle.std.specs.Prelude.{◌≡◌, ◌≤◌};
ghost use Rattle.ir_text_spelling.specs.Marks.{blanks};
ghost use Rattle.ir_text_spelling.specs.Writings.{Writes};

use std::io;
use std::io::{ErrorKind, Write};

/// Writes all of these bytes. The writer isn't flushed.
///
/// # Errors
/// What the writer answers that can't take them, unless it was interrupted; a front part of them was written then.
pub fn write_bytes<W: Write>(output: &mut W, bytes: &[u8]) -> io::Result<()>
    ensures { Writes (W.contents output.old) (W.contents output.new) bytes.now result }
{
    let mut rest = bytes;
    for _ in 0..u64::MAX {
        if rest.is_empty() {
            return Ok(());
        }
        match output.write(rest) {
            Ok(0) => return Err(io::Error::from(ErrorKind::WriteZero)),
            Ok(count) => rest = &rest[count..],
            Err(error) => {
                if error.kind() != ErrorKind::Interrupted {
                    return Err(error);
                }
            }
        }
    }
    Err(io::Error::from(ErrorKind::Interrupted))
}

/// How many levels one write indents by at most.
pub(crate) const MOST: usize = 32;

/// The blanks of so many levels.
pub(crate) fn blanks_of(levels: usize) -> &'static [u8]
    requires { levels ≤ 32 }
    ensures { result.now ≡ blanks levels }
{
    let blanks = "                                                                ".as_bytes();
    &blanks[..2 * levels]
}

/// Writes the blanks of so many levels, those of 32 at once.
///
/// # Errors
/// As `write_bytes`.
pub(crate) fn write_blanks<W: Write>(output: &mut W, levels: usize) -> io::Result<()>
    ensures { Writes (W.contents output.old) (W.contents output.new) (blanks levels) result }
{
    let mut rest = levels;
    while rest > MOST {
        write_bytes(output, blanks_of(MOST))?;
        rest -= MOST;
    }
    write_bytes(output, blanks_of(rest))
}
