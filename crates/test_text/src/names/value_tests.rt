// Which definition an operand names.
use ir_text_names::{RowTable, resolve, values};
use ir_text_reader::{Row, parse};
use std::alloc::{AllocError, Global};
use std::test::Fail;

// How many operations stand in one another.
const DEPTH: u32 = 100000;

// Texts, and for each operand the index of the first byte of the name at its definition.
const VALUES: &[(&[u8], &[u32])] = &[
    (
        b"%x:2, %y = \"a\"() : () -> (i1, i2, i3)\n\"b\"(%x#1, %y, %x, %x#0) : (i2, i3, i1, i1) -> ()\n",
        &[0, 6, 0, 0],
    ),
    (
        b"\"a\"(%v) ({\n  \"b\"(%v, %w) : (i1, i2) -> ()\n  %w = \"c\"() : () -> i2\n}) : (i1) -> ()\n%v = \"d\"(%v) : (i1) -> i1\n",
        &[82, 82, 44, 82],
    ),
    (
        b"\"f\"() ({\n^a(%p: i1, %q: i2):\n  \"x\"(%q, %p) : (i2, i1) -> ()\n}, {\n^a(%p: i1):\n  \"y\"(%p, %q) ({\n    \"z\"(%p) : (i1) -> ()\n  }) : (i1, i2) -> ()\n^b(%q: i2):\n}) : () -> ()\n\"g\"() ({\n  %p = \"h\"(%p) : (i1) -> i1\n}) : () -> ()",
        &[20, 12, 68, 144, 68, 178],
    ),
    // Digits that make one number are other names where one has more of them.
    (
        b"%0 = \"a\"() : () -> i1\n%00 = \"b\"() : () -> i2\n\"c\"(%00, %0) : (i2, i1) -> ()\n",
        &[22, 0],
    ),
];

// For each row that names a definition, the index of the first byte of that.
fn starts_of(alloc: Global, rows: &[Row], table: &RowTable) -> Result<Vec<u32>, AllocError> {
    let mut out = Vec::new(alloc);
    for at in 0..table.len() {
        if let Some(definition) = table.get(at) {
            if let Some(row) = rows.get(definition) {
                out.push(row.span.start)?;
            }
        }
    }
    Ok(out)
}

#[test]
fn values_of_texts(rt: HostRuntime) -> Result<(), Fail> {
    for (text, wanted) in VALUES {
        let tree = parse(rt.alloc(), *text)?;
        let table = values(rt.alloc(), *text, &tree.rows)?;
        assert!(rt; table.len() == tree.rows.len());
        let starts = starts_of(rt.alloc(), &tree.rows, &table)?;
        assert!(rt; starts.as_slice() == *wanted);
    }
    Ok(())
}

// Texts behind one another, each so often.
fn text_of(alloc: Global, parts: &[(&[u8], u32)]) -> Result<Vec<u8>, AllocError> {
    let mut out = Vec::new(alloc);
    for (text, times) in parts {
        for _ in 0..*times {
            out.extend_from_slice(*text)?;
        }
    }
    Ok(out)
}

// The definition of the value.
const DEFINITION: &[u8] = b"%v = \"d\"() : () -> i1\n";

// A value that is named in the innermost region and defined behind the outermost.
#[test]
fn deep_text(rt: HostRuntime) -> Result<(), Fail> {
    let parts: &[(&[u8], u32)] = &[
        (b"\"a\"() ({\n", DEPTH),
        (b"\"u\"(%v) : (i1) -> ()\n", 1),
        (b"}) : () -> ()\n", DEPTH),
        (DEFINITION, 1),
    ];
    let text = text_of(rt.alloc(), parts)?;
    let end = text.len().saturating_sub(DEFINITION.len());
    let tree = parse(rt.alloc(), text.as_slice())?;
    let names = resolve(rt.alloc(), text.as_slice(), &tree.rows)?;
    let starts = starts_of(rt.alloc(), &tree.rows, &names.values)?;
    assert!(rt; starts.len() == 1);
    assert!(rt; starts.first().map(|at| *at as usize) == Some(end));
    Ok(())
}
