// Texts with what their trees are spelled as.
use ir_text_reader::{Part, Row, Span, Tree, parse};
use ir_text_spelling::{spell, spell_to};
use std::alloc::{AllocError, Global};
use std::io;
use std::io::{ErrorKind, Write};
use std::test::Fail;

// Texts, and the text of their trees.
const SPELLED: &[(&[u8], &[u8])] = &[
    (b"\"a\"():()->()", b"\"a\"() : () -> ()\n"),
    // types of results in parentheses, and in none
    (
        b"%0 = \"a\"() {} : () -> i32 // one\n\n%1=\"b\"(%0):(i32)->(i32) loc(\"f\":1:2) \"c\"():()->tensor <4xf32>loc(a) \"d\"():()->((i32)->i32) \"e\"() : (index)->!t.u<v>",
        b"%0 = \"a\"() : () -> i32\n%1 = \"b\"(%0) : (i32) -> (i32) loc(\"f\":1:2)\n\"c\"() : () -> tensor <4xf32> loc(a)\n\"d\"() : () -> ((i32)->i32)\n\"e\"() : (index) -> !t.u<v>\n",
    ),
    // all that an operation may have
    (
        b"%0:2,%x=\"a.b\"(%y#1,%z)[^bb1,^b]<{k = 1 : i32}>{u,v=@f::@g,\"w x\" = [1,  -2]}:(i32,tensor<4xf32>)->(i1, i2, !t<i32>)loc(unknown)",
        b"%0:2, %x = \"a.b\"(%y#1, %z)[^bb1, ^b] <{k = 1 : i32}> {u, v = @f::@g, \"w x\" = [1,  -2]} : (i32, tensor<4xf32>) -> (i1, i2, !t<i32>) loc(unknown)\n",
    ),
    // several regions, one of them empty, and heads of blocks
    (
        b"\"m\"() ({}, {^bb0: ^bb1(%a: i32 loc(unknown), %b: memref<?xi8>, %c : f32 loc(\"x\")):\n \"r\"(%a)[^bb0] : (i32) -> ()\n ^e():}) {n = (i32) -> i32} : () -> !t<2>",
        b"\"m\"() ({\n}, {\n^bb0:\n^bb1(%a: i32 loc(unknown), %b: memref<?xi8>, %c: f32 loc(\"x\")):\n  \"r\"(%a)[^bb0] : (i32) -> ()\n^e:\n}) {n = (i32) -> i32} : () -> !t<2>\n",
    ),
    // properties before a region
    (
        b"\"p\"() <{}> ({ \"q\"() {k} : () -> () loc(a) \"r\"() : () -> (i1) }) : () -> () \"s\"()[^b] : () -> ()",
        b"\"p\"() <{}> ({\n  \"q\"() {k} : () -> () loc(a)\n  \"r\"() : () -> (i1)\n}) : () -> ()\n\"s\"()[^b] : () -> ()\n",
    ),
    // regions in one another
    (
        b"\"m\"()({%0:2=\"a\"()({^bb0: \"b\"()({},{\"c\"()[^bb0]:()->()}):()->() ^bb1(%x:i32): %y = \"d\"(%0#1){u}:(i1)->i32}):()->(i1,i1)}):()->() \"e\"()({^a:},{^b:\"f\"():()->()}):()->()",
        b"\"m\"() ({\n  %0:2 = \"a\"() ({\n  ^bb0:\n    \"b\"() ({\n    }, {\n      \"c\"()[^bb0] : () -> ()\n    }) : () -> ()\n  ^bb1(%x: i32):\n    %y = \"d\"(%0#1) {u} : (i1) -> i32\n  }) : () -> (i1, i1)\n}) : () -> ()\n\"e\"() ({\n^a:\n}, {\n^b:\n  \"f\"() : () -> ()\n}) : () -> ()\n",
    ),
    // a text that stands so already, but for its comments
    (
        b"\"m\"() ({\n^bb0(%a: i1):\n  \"t\"(%a)[^bb1, ^bb2] : (i1) -> ()\n^bb1:  // pred: ^bb0\n  \"u\"()[^bb2] {v} : () -> ()\n^bb2:  // 2 preds: ^bb0, ^bb1\n  %0 = \"w\"() ({\n  }) : () -> index\n  \"x\"(%0) : (index) -> ()\n}) : () -> ()\n",
        b"\"m\"() ({\n^bb0(%a: i1):\n  \"t\"(%a)[^bb1, ^bb2] : (i1) -> ()\n^bb1:\n  \"u\"()[^bb2] {v} : () -> ()\n^bb2:\n  %0 = \"w\"() ({\n  }) : () -> index\n  \"x\"(%0) : (index) -> ()\n}) : () -> ()\n",
    ),
];

// The pieces of the text that the rows name, each behind a bar.
fn pieces_of(alloc: Global, text: &[u8], tree: &Tree) -> Result<Vec<u8>, AllocError> {
    let mut out = Vec::new(alloc);
    for row in &tree.rows {
        out.push(b'|')?;
        if let Some(piece) = text.get(row.span.start as usize..row.span.end as usize) {
            out.extend_from_slice(piece)?;
        }
    }
    Ok(out)
}

// Whether the rows are the same parts.
fn are_alike(tree: &Tree, other: &Tree) -> bool {
    tree.rows.len() == other.rows.len()
        && tree
            .rows
            .iter()
            .zip(other.rows.iter())
            .all(|(row, with)| row.part == with.part)
}

// The text of the tree of a text.
fn spelled(alloc: Global, text: &[u8]) -> Result<Vec<u8>, Fail> {
    let tree = parse(alloc, text)?;
    let out = spell(alloc, text, tree.rows.as_slice())?;
    Ok(out)
}

// Whether two texts have the same parts with the same pieces.
fn are_same(alloc: Global, text: &[u8], other: &[u8]) -> Result<bool, Fail> {
    let tree = parse(alloc, text)?;
    let again = parse(alloc, other)?;
    let pieces = pieces_of(alloc, text, &tree)?;
    let same_pieces = pieces_of(alloc, other, &again)?;
    Ok(are_alike(&tree, &again) && pieces.as_slice() == same_pieces.as_slice())
}

#[test]
fn spelled_trees(rt: HostRuntime) -> Result<(), Fail> {
    for (text, wanted) in SPELLED {
        let out = spelled(rt.alloc(), *text)?;
        assert!(rt; out.as_slice() == *wanted);
        assert!(rt; are_same(rt.alloc(), *text, out.as_slice())?);
        assert!(rt; spelled(rt.alloc(), out.as_slice())?.as_slice() == out.as_slice());
    }
    Ok(())
}

#[test]
fn spans_beyond_the_text(rt: HostRuntime) -> Result<(), Fail> {
    let rows = [
        Row {
            part: Part::Name,
            span: Span { start: 1, end: 9 },
        },
        Row {
            part: Part::Operand,
            span: Span { start: 2, end: 1 },
        },
    ];
    let out = spell(rt.alloc(), b"abc".as_slice(), rows.as_slice())?;
    assert!(rt; out.as_slice() == b"bc() : () -> ()\n".as_slice());
    Ok(())
}

#[test]
fn no_rows(rt: HostRuntime) -> Result<(), Fail> {
    let rows = Vec::new(rt.alloc());
    let out = spell(rt.alloc(), b"abc".as_slice(), rows.as_slice())?;
    assert!(rt; out.is_empty());
    Ok(())
}

// Takes so many bytes, three at a time, and then breaks.
#[derive(Drop)]
struct Sink {
    taken: Vec<u8>,
    room: usize,
}

impl Write for Sink {
    fn write(&mut self, buf: &[u8]) -> io::Result<usize> {
        let count = buf.len().min(self.room).min(3);
        if count == 0 {
            return Err(io::Error::from(ErrorKind::BrokenPipe));
        }
        self.room -= count;
        self.taken.write(&buf[..count])
    }

    fn flush(&mut self) -> io::Result<()> {
        Ok(())
    }
}

#[test]
fn writers_that_break(rt: HostRuntime) -> Result<(), Fail> {
    for (text, wanted) in SPELLED {
        let tree = parse(rt.alloc(), *text)?;
        for room in 0..wanted.len() + 1 {
            let taken = Vec::new(rt.alloc());
            let mut sink = Sink { taken, room };
            let told = spell_to(*text, tree.rows.as_slice(), &mut sink);
            assert!(rt; told.is_ok() == (room == wanted.len()));
            assert!(rt; sink.taken.as_slice() == &wanted[..room]);
        }
    }
    Ok(())
}

// How many operations stand in one another.
const DEPTH: usize = 70;

// Puts a line behind so many blanks.
fn push_line(out: &mut Vec<u8>, blanks: usize, line: &[u8]) -> Result<(), AllocError> {
    for _ in 0..blanks {
        out.push(b' ')?;
    }
    out.extend_from_slice(line)?;
    Ok(())
}

// Operations in one another, each line with so many blanks for each region around it.
fn nest(alloc: Global, blanks: usize) -> Result<Vec<u8>, AllocError> {
    let mut out = Vec::new(alloc);
    for depth in 0..DEPTH {
        push_line(&mut out, blanks.saturating_mul(depth), b"\"a\"() ({\n")?;
    }
    for depth in 0..DEPTH {
        push_line(
            &mut out,
            blanks.saturating_mul((DEPTH - 1).saturating_sub(depth)),
            b"}) : () -> ()\n",
        )?;
    }
    Ok(out)
}

#[test]
fn deep_nest(rt: HostRuntime) -> Result<(), Fail> {
    let text = nest(rt.alloc(), 0)?;
    let tree = parse(rt.alloc(), text.as_slice())?;
    let out = spell(rt.alloc(), text.as_slice(), tree.rows.as_slice())?;
    let wanted = nest(rt.alloc(), 2)?;
    assert!(rt; out.as_slice() == wanted.as_slice());
    Ok(())
}
