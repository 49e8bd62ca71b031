// Texts with their rows, and texts with their first fault.
use ir_text_reader::{Fault, Part, Tree, Wanted, line_and_column, parse};
use std::alloc::{AllocError, Global};
use std::process::Abort;
use std::test::Fail;

// How many operations stand in one another.
const DEPTH: u32 = 100000;

// Texts, and their rows: a letter for each part, and the piece of the text, each behind a bar.
const ROWS: &[(&[u8], &[u8])] = &[
    (
        b"%0:2, %x = \"a.b\"(%y#1, %z)[^bb1] <{k = 1 : i32}> {u, v = @f::@g} : (i32, tensor<4xf32>) -> (i1, i2, !t<i32>) loc(\"f\":1:2) // end",
        b"|R %0|C 2|R %x|N \"a.b\"|O %y|I #1|O %z|S ^bb1|P <{k = 1 : i32}>|K u|K v|V @f::@g|T i32|T tensor<4xf32>|U i1|U i2|U !t<i32>|L \"f\":1:2",
    ),
    (
        b"\"m\"() ({\n  \"f\"() ({\n  ^bb0(%a: i32 loc(unknown), %b: memref<?xi8>):\n    \"r\"(%a) : (i32) -> ()\n  }) {n = \"x\", t = (i32) -> i32} : () -> ()\n}) : () -> ()\n",
        b"|N \"m\"|{ {|N \"f\"|{ {|B ^bb0|A %a|Y i32|M unknown|A %b|Y memref<?xi8>|N \"r\"|O %a|T i32|} }|K n|V \"x\"|K t|V (i32) -> i32|} }",
    ),
    (
        b"%0 = \"a\"() : () -> index // one\n%1 = \"b\"(%0) {map = affine_map<(d0) -> (d0 + 1)>, set = affine_set<(d0) : (d0 - 1 >= 0)>, loc = loc(\"x\")} : (index) -> vector<4xi1>",
        b"|R %0|N \"a\"|u index|R %1|N \"b\"|O %0|K map|V affine_map<(d0) -> (d0 + 1)>|K set|V affine_set<(d0) : (d0 - 1 >= 0)>|K loc|V loc(\"x\")|T index|u vector<4xi1>",
    ),
    (
        b"\"c\"() {a = dense<\"0xFF\">, \"b c\" = [1, -2.5e+3, {d}], e.f = #g<\"h\">} : () -> ()",
        b"|N \"c\"|K a|V dense<\"0xFF\">|K \"b c\"|V [1, -2.5e+3, {d}]|K e.f|V #g<\"h\">",
    ),
];

// Texts with the first fault, its line and its column.
const FAULTS: &[(&[u8], Fault, u64, u64)] = &[
    (
        b"",
        Fault::Expected {
            wanted: Wanted::Operation,
            at: 0,
        },
        1,
        1,
    ),
    (
        b" // none\n",
        Fault::Expected {
            wanted: Wanted::Operation,
            at: 9,
        },
        2,
        1,
    ),
    (
        b"\"a\"() : () -> ()\n)",
        Fault::Expected {
            wanted: Wanted::Operation,
            at: 17,
        },
        2,
        1,
    ),
    (
        b"\"a\"() :\n  () - ()",
        Fault::Expected {
            wanted: Wanted::Arrow,
            at: 13,
        },
        2,
        6,
    ),
    (
        b"\"a\"() : () -> ( ",
        Fault::Expected {
            wanted: Wanted::FirstType,
            at: 16,
        },
        1,
        17,
    ),
    // a token in front of what is no token
    (b"\"a\" \"b\n", Fault::OpenString { at: 6 }, 1, 7),
    (
        b"\"a\" : ~",
        Fault::Expected {
            wanted: Wanted::OpenParenthesis,
            at: 4,
        },
        1,
        5,
    ),
    (b"\"a\"(\n~", Fault::Character { at: 5 }, 2, 1),
    (b"\"a\"(%b, ~, ~)", Fault::Character { at: 8 }, 1, 9),
    (
        b"\"a\"(%b, c, ~)",
        Fault::Expected {
            wanted: Wanted::ValueName,
            at: 8,
        },
        1,
        9,
    ),
    (b"\"a\"() {b = <", Fault::OpenGroup { at: 12 }, 1, 13),
    (b"\"a\"() {b = <(]>", Fault::Bracket { at: 13 }, 1, 14),
    (b"\"\\q\"", Fault::Escape { at: 2 }, 1, 3),
    // the word `loc`
    (
        b"\"a\"() : (loc) -> ()",
        Fault::Expected {
            wanted: Wanted::FirstType,
            at: 9,
        },
        1,
        10,
    ),
    (
        b"\"a\"() : () -> i32 lo",
        Fault::Expected {
            wanted: Wanted::Operation,
            at: 18,
        },
        1,
        19,
    ),
];

// The letter of a part of a text.
fn letter_of(part: Part) -> u8 {
    match part {
        Part::Result => b'R',
        Part::Count => b'C',
        Part::Name => b'N',
        Part::Operand => b'O',
        Part::Index => b'I',
        Part::Successor => b'S',
        Part::Properties => b'P',
        Part::Open => b'{',
        Part::Close => b'}',
        Part::Key => b'K',
        Part::Value => b'V',
        Part::OperandType => b'T',
        Part::ResultType => b'U',
        Part::OnlyResultType => b'u',
        Part::Location => b'L',
        Part::Label => b'B',
        Part::Argument => b'A',
        Part::ArgumentType => b'Y',
        Part::ArgumentLocation => b'M',
    }
}

// The rows as a text.
fn rows_of(alloc: Global, text: &[u8], tree: &Tree) -> Result<Vec<u8>, AllocError> {
    let mut out = Vec::new(alloc);
    for row in &tree.rows {
        out.push(b'|')?;
        out.push(letter_of(row.part))?;
        out.push(b' ')?;
        if let Some(piece) = text.get(row.span.start as usize..row.span.end as usize) {
            out.extend_from_slice(piece)?;
        }
    }
    Ok(out)
}

#[test]
fn rows_of_texts(rt: HostRuntime) -> Result<(), Fail> {
    for (text, wanted) in ROWS {
        let tree = parse(rt.alloc(), *text)?;
        let rows = rows_of(rt.alloc(), *text, &tree)?;
        assert!(rt; rows.as_slice() == *wanted);
    }
    Ok(())
}

// The fault of a text, with its line and column.
fn fault_of(alloc: Global, text: &[u8]) -> Result<Option<(Fault, u64, u64)>, Fault> {
    match parse(alloc, text) {
        Ok(_) => Ok(None),
        Err(fault) => match fault.at() {
            None => Err(fault),
            Some(at) => {
                let (line, column) = line_and_column(text, at);
                Ok(Some((fault, line, column)))
            }
        },
    }
}

#[test]
fn faults_of_texts(rt: HostRuntime) -> Result<(), Fail> {
    for (text, fault, line, column) in FAULTS {
        let found = fault_of(rt.alloc(), *text)?;
        assert!(rt; found == Some((*fault, *line, *column)));
    }
    Ok(())
}

// Puts a text so often.
fn repeat(out: &mut Vec<u8>, text: &[u8], times: u32) -> Result<(), AllocError> {
    for _ in 0..times {
        out.extend_from_slice(text)?;
    }
    Ok(())
}

#[test]
fn deep_text(rt: HostRuntime) -> Result<(), Fail> {
    let mut text = Vec::new(rt.alloc());
    repeat(&mut text, b"\"a\"() ({\n", DEPTH)?;
    repeat(&mut text, b"}) : () -> ()\n", DEPTH)?;
    let tree = parse(rt.alloc(), text.as_slice())?;
    assert!(rt; tree.rows.len() == 3 * DEPTH as usize);
    Ok(())
}

// Asserts that a fault prints as this text.
fn expect_text(rt: &impl Abort, alloc: Global, fault: Fault, text: &str) -> Result<(), Fail> {
    assert!(rt; format!(in alloc; "{fault}")?.as_str() == text);
    Ok(())
}

#[test]
fn text_fault_texts(rt: HostRuntime) -> Result<(), Fail> {
    for (fault, text) in [
        (Fault::OutOfMemory, "out of memory"),
        (Fault::TooLong, "the text has more than 4294967295 bytes"),
        (
            Fault::Character { at: 7 },
            "this character can't stand here",
        ),
        (
            Fault::Escape { at: 7 },
            "no escape: wanted a backslash, a quote, n, t or two hexadecimal digits",
        ),
        (Fault::OpenString { at: 7 }, "the string isn't closed"),
        (Fault::OpenGroup { at: 7 }, "the group isn't closed"),
        (
            Fault::Bracket { at: 7 },
            "this bracket doesn't close the last one that was opened",
        ),
        (
            Fault::Expected {
                wanted: Wanted::Arrow,
                at: 7,
            },
            "expected `->`",
        ),
    ] {
        expect_text(&rt, rt.alloc(), fault, text)?;
    }
    Ok(())
}
