// Which block a successor names.
use ir_text_names::{RowTable, blocks};
use ir_text_reader::{Row, parse};
use std::alloc::{AllocError, Global};
use std::test::Fail;

// Texts, and for each successor the index of the first byte of its block's name.
const BLOCKS: &[(&[u8], &[u32])] = &[
    (
        b"\"f\"() ({\n  \"br\"()[^b] : () -> ()\n^a:\n  \"br\"()[^a, ^b] : () -> ()\n^b:\n  \"end\"() : () -> ()\n}) : () -> ()\n",
        &[65, 33, 65],
    ),
    (
        b"\"f\"() ({\n^a:\n  \"g\"()[^a] ({\n  ^a:\n    \"br\"()[^a] : () -> ()\n  }, {\n    \"br\"()[^a] : () -> ()\n  ^a:\n    \"br\"()[^a] : () -> ()\n  }) : () -> ()\n  \"br\"()[^a] : () -> ()\n}) : () -> ()",
        &[9, 30, 95, 95, 9],
    ),
    (b"\"a\"() : () -> ()", &[]),
];

// For each row that names a block, the index of the first byte of the block's name.
fn starts_of(alloc: Global, rows: &[Row], table: &RowTable) -> Result<Vec<u32>, AllocError> {
    let mut out = Vec::new(alloc);
    for at in 0..table.len() {
        if let Some(block) = table.get(at) {
            if let Some(row) = rows.get(block) {
                out.push(row.span.start)?;
            }
        }
    }
    Ok(out)
}

#[test]
fn blocks_of_texts(rt: HostRuntime) -> Result<(), Fail> {
    for (text, wanted) in BLOCKS {
        let tree = parse(rt.alloc(), *text)?;
        let table = blocks(rt.alloc(), *text, &tree.rows)?;
        assert!(rt; table.len() == tree.rows.len());
        let starts = starts_of(rt.alloc(), &tree.rows, &table)?;
        assert!(rt; starts.as_slice() == *wanted);
    }
    Ok(())
}
