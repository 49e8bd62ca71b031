// Regions and brackets very deep in one another.
use crate::tree::letters::push_token;
use ir_text_tree::{Part, Piece, parse};
use std::alloc::{AllocError, Global};
use std::test::Fail;

// How deep they are.
const REGIONS: u32 = 100000;

const BRACKETS: u32 = 1000000;

// The tokens of some letters, each so often.
fn pieces_of(alloc: Global, parts: &[(&[u8], u32)]) -> Result<Vec<Piece>, AllocError> {
    let mut pieces = Vec::new(alloc);
    for (letters, times) in parts {
        for _ in 0..*times {
            for letter in *letters {
                push_token(&mut pieces, *letter)?;
            }
        }
    }
    Ok(pieces)
}

#[test]
fn deep_regions(rt: HostRuntime) -> Result<(), Fail> {
    let parts: &[(&[u8], u32)] = &[(b"\"()({", REGIONS), (b"}):()>()", REGIONS)];
    let pieces = pieces_of(rt.alloc(), parts)?;
    let rows = parse(rt.alloc(), 0, pieces.as_slice())?;
    let last = rows.last().map(|row| row.part);
    assert!(rt; rows.len() == 3 * REGIONS as usize && last == Some(Part::Close));
    Ok(())
}

#[test]
fn deep_brackets(rt: HostRuntime) -> Result<(), Fail> {
    let parts: &[(&[u8], u32)] = &[
        (b"\"(){w=", 1),
        (b"[", BRACKETS),
        (b"]", BRACKETS),
        (b"}:()>()", 1),
    ];
    let pieces = pieces_of(rt.alloc(), parts)?;
    let rows = parse(rt.alloc(), 0, pieces.as_slice())?;
    let value = rows.last().copied();
    let length = value.map(|row| row.span.end.saturating_sub(row.span.start));
    assert!(rt; rows.len() == 3 && length == Some(4 * BRACKETS - 1));
    Ok(())
}
