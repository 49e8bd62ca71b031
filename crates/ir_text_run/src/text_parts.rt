//! The parts of an input that lines `// -----` divide.
ghost use Rattle.std.specs.Prelude.{◌≡◌, ◌<◌, ◌≤◌, ◌+◌, ◌==◌, ◌↔◌, ◌∷◌, length, drop, slice_range, position, IfSome, IsTrue, MatchOption};
ghost use Rattle.ir_text_run.specs.Parts.{IsDivider, IsOnePart, IsDivided, lines_of};

/// The first part of an input.
#[derive(Drop)]
pub struct Front<'a> {
    /// The part: whole lines, but for the last of an input.
    pub part: &'a [u8],
    /// How many lines the part has, with the one that ends it.
    pub lines: u64,
    /// What stands behind the line that ends the part; none where no such line does.
    pub rest: Option<&'a [u8]>,
}

// The index of the first line feed.
fn line_feed(text: &[u8]) -> Option<usize>
    ensures { result ≡ position (λ byte. byte == 10) text.now }
{
    text.iter().position(|byte| *byte == b'\n')
}

// The index behind the line that begins there, with its line feed.
fn line_end(text: &[u8], at: usize) -> usize
    requires { at < length text.now }
    ensures after { at < result }
    ensures within { result ≤ length text.now }
    ensures line { lines_of (drop at text.now) ≡ slice_range text.now at result ∷ lines_of (drop result text.now) }
{
    match line_feed(&text[at..]) {
        Some(length) => at + length + 1,
        None => text.len(),
    }
}

// Whether a line divides parts.
fn is_divider(line: &[u8]) -> bool
    ensures { IsTrue result ↔ IsDivider line.now }
{
    line == b"// -----\n".as_slice()
        || line == b"// -----\r\n".as_slice()
        || line == b"// -----".as_slice()
        || line == b"// -----\r".as_slice()
}

/// The first part of an input.
pub fn first_part<'a>(text: &'a [u8]) -> Front<'a>
    ensures shorter { IfSome result.rest (λ rest. length rest.now < length text.now) }
    ensures divided { MatchOption result.rest ((result.part.now ≡ text.now) × IsOnePart text.now) (λ rest. IsDivided text.now result.part.now rest.now) }
    ensures lines { MatchOption result.rest (result.lines ≡ length (lines_of text.now)) (λ _. result.lines ≡ length (lines_of result.part.now) + 1) }
{
    let mut at = 0;
    let mut lines = 0u64;
    while at < text.len() {
        let end = line_end(text, at);
        lines += 1;
        if is_divider(&text[at..end]) {
            return Front {
                part: &text[..at],
                lines,
                rest: Some(&text[end..]),
            };
        }
        at = end;
    }
    Front {
        part: text,
        lines,
        rest: None,
    }
}
