//! What is said of a fault.

use crate::fault::Fault;
use crate::options::Options;
use ir_text_reader::line_and_column;
use std::io;
use std::io::Write;

// Says which fault a text has, as `NAME:LINE:COLUMN: error: TEXT`; without line and column where it stands nowhere in the text.
fn write_fault<F: Write>(
    name: &str,
    text: &[u8],
    lines: u64,
    error: Fault,
    log: &mut F,
) -> io::Result<()> {
    match error.at() {
        Some(at) if (at as usize) <= text.len() => {
            let (line, column) = line_and_column(text, at);
            let line = line.saturating_add(lines);
            writeln!(log, "{name}:{line}:{column}: error: {error}")
        }
        _ => writeln!(log, "{name}: error: {error}"),
    }
}

/// Tells of a fault of a text, before which so many lines of the input stand. Where that can't be told, nothing else changes: the status alone tells it.
pub(crate) fn tell<F: Write>(
    options: &Options,
    text: &[u8],
    lines: u64,
    error: Fault,
    log: &mut F,
) {
    let _ = write_fault(options.name, text, lines, error, log);
}
