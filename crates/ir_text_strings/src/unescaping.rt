//! The bytes that a text between quotes stands for.
ghost use Rattle.std.specs.Prelude.{◌≡◌, ◌++◌, length, slice_index_or, IfOk, OnOk, OnErr};
ghost use Rattle.std.specs.Io.{StartsWith};
ghost use Rattle.ir_text_strings.specs.Escapes.{has_escapes, unescaped};

use crate::escapes::first_spelled;
use std::alloc::{AllocError, Global};

/// Whether a text has a backslash: one without stands for itself.
pub fn has_escapes(text: &[u8]) -> bool
    ensures { result ≡ has_escapes text.now }
{
    text.iter().any(|byte| *byte == b'\\')
}

// The byte at that place; 0 past the end.
fn byte_at(text: &[u8], at: usize) -> u8
    ensures { result ≡ slice_index_or text.now at 0 }
{
    match text.get(at) {
        Some(byte) => *byte,
        None => 0,
    }
}

/// Appends the bytes that a text between quotes stands for.
///
/// # Errors
/// Memory was wanting.
pub fn extend_unescaped(out: &mut Vec<u8>, text: &[u8]) -> Result<(), AllocError>
    ensures text { OnOk result (out.new.items ≡ out.old.items ++ unescaped text.now) }
    ensures front { OnErr result (StartsWith out.new.items out.old.items) }
{
    let mut more = 0;
    for (at, byte) in text.iter().enumerate() {
        if more > 0 {
            more -= 1;
        } else {
            let behind = &text[at + 1..];
            let first = first_spelled(*byte, byte_at(behind, 0), byte_at(behind, 1));
            out.push(first.byte)?;
            more = first.more;
        }
    }
    Ok(())
}

/// How many bytes a text between quotes stands for.
pub fn unescaped_len(text: &[u8]) -> usize
    ensures { result ≡ length (unescaped text.now) }
{
    let mut count = 0;
    let mut more = 0;
    for (at, byte) in text.iter().enumerate() {
        if more > 0 {
            more -= 1;
        } else {
            let behind = &text[at + 1..];
            let first = first_spelled(*byte, byte_at(behind, 0), byte_at(behind, 1));
            count += 1;
            more = first.more;
        }
    }
    count
}

/// The bytes that a text between quotes stands for.
///
/// # Errors
/// Memory was wanting.
pub fn unescaped(alloc: Global, text: &[u8]) -> Result<Vec<u8>, AllocError>
    ensures { IfOk result (λ bytes. bytes.items ≡ unescaped text.now) }
{
    let mut bytes = Vec::with_capacity(alloc, text.len())?;
    extend_unescaped(&mut bytes, text)?;
    Ok(bytes)
}
