// Faults of names, with their lines and columns.
use ir_text_names::{Fault, Wrong, keys, operand_types, resolve, result_types};
use ir_text_reader::{line_and_column, parse};
use std::alloc::Global;
use std::process::Abort;
use std::test::Fail;

// Texts with the first fault, its place, line and column.
const FAULTS: &[(&[u8], Wrong, u32, u64, u64)] = &[
    (
        b"\"f\"() ({\n^a:\n  \"x\"() : () -> ()\n^a:\n  \"y\"() : () -> ()\n}) : () -> ()",
        Wrong::BlockTwice,
        32,
        4,
        1,
    ),
    (
        b"\"f\"() ({\n^a:\n  \"g\"() ({\n    \"br\"()[^a] : () -> ()\n  }) : () -> ()\n}) : () -> ()",
        Wrong::UnknownBlock,
        35,
        4,
        12,
    ),
    (
        b"\"f\"() ({\n  \"g\"() ({\n  ^a:\n    \"x\"() : () -> ()\n  }) : () -> ()\n  \"br\"()[^b, ^a] : () -> ()\n^b:\n  \"y\"() : () -> ()\n}) : () -> ()",
        Wrong::UnknownBlock,
        76,
        6,
        14,
    ),
    (
        b"\"f\"() ({\n  \"br\"()[^b] : () -> ()\n^a:\n  \"x\"() : () -> ()\n^a:\n  \"y\"() : () -> ()\n}) : () -> ()",
        Wrong::UnknownBlock,
        18,
        2,
        10,
    ),
    (
        b"\"f\"() ({\n^a:\n  \"x\"() : () -> ()\n^a:\n  \"br\"()[^b] : () -> ()\n}) : () -> ()",
        Wrong::BlockTwice,
        32,
        4,
        1,
    ),
    (
        b"\"f\"() {a, b = 1, a = 2} : () -> ()",
        Wrong::KeyTwice,
        17,
        1,
        18,
    ),
    (
        b"\"f\"() ({\n  \"g\"() {a} : () -> ()\n  \"h\"() {a, a} : () -> ()\n}) {a} : () -> ()",
        Wrong::KeyTwice,
        44,
        3,
        13,
    ),
    (
        b"\"f\"() {\"a b\", c, \"c\"} : () -> ()",
        Wrong::KeyTwice,
        17,
        1,
        18,
    ),
    (
        b"\"f\"() {\"a\\62\", ab} : () -> ()",
        Wrong::KeyTwice,
        15,
        1,
        16,
    ),
    (
        b"\"f\"() {\"\\\\\", \"\\5c\"} : () -> ()",
        Wrong::KeyTwice,
        13,
        1,
        14,
    ),
    (
        b"\"f\"() {\"a\\22\", \"a\\\"\"} : () -> ()",
        Wrong::KeyTwice,
        15,
        1,
        16,
    ),
    (
        b"\"f\"() {\"\\n\", \"\\0A\"} : () -> ()",
        Wrong::KeyTwice,
        13,
        1,
        14,
    ),
    (
        b"\"f\"() {\"\\t\", \"\\09\"} : () -> ()",
        Wrong::KeyTwice,
        13,
        1,
        14,
    ),
    (
        b"\"f\"() {\"\\4a\", \"\\4A\"} : () -> ()",
        Wrong::KeyTwice,
        14,
        1,
        15,
    ),
    (
        b"\"f\"() {n, \"\\6e\"} : () -> ()",
        Wrong::KeyTwice,
        10,
        1,
        11,
    ),
    (
        b"\"f\"() {\"x\\79\", \"\\7A\", c, \"z\"} : () -> ()",
        Wrong::KeyTwice,
        25,
        1,
        26,
    ),
    (
        b"%a = \"c\"() : () -> i1\n\"f\"(%a) : () -> ()",
        Wrong::OperandTypes,
        22,
        2,
        1,
    ),
    (
        b"\"o\"() : () -> ()\n\"f\"() ({\n  %a = \"c\"() : () -> i1\n  \"d\"(%a) : (i1) -> ()\n}) : (i1) -> ()",
        Wrong::OperandTypes,
        17,
        2,
        1,
    ),
    (
        b"%a = \"c\"() : () -> i1\n  %a = \"c\"() : () -> i1",
        Wrong::ValueTwice,
        24,
        2,
        3,
    ),
    (
        b"%a = \"c\"() : () -> i1\n\"f\"() ({\n^b(%a: i1):\n}) : () -> ()",
        Wrong::ValueTwice,
        34,
        3,
        4,
    ),
    (
        b"\"f\"() ({\n  %a = \"c\"() : () -> i1\n}) : () -> ()\n%a = \"c\"() : () -> i1",
        Wrong::ValueTwice,
        47,
        4,
        1,
    ),
    (
        b"\"f\"() ({\n  %a = \"c\"() : () -> i1\n}, {\n  %b, %b = \"c\"() : () -> (i1, i1)\n}) : () -> ()",
        Wrong::ValueTwice,
        44,
        4,
        7,
    ),
    (
        b"\"f\"() ({\n  %a = \"c\"() : () -> i1\n}) : () -> ()\n\"g\"(%a) : (i1) -> ()",
        Wrong::UnknownValue,
        51,
        4,
        5,
    ),
    (
        b"\"f\"() ({\n  %a = \"c\"() : () -> i1\n}, {\n  \"g\"(%a) : (i1) -> ()\n}) : () -> ()",
        Wrong::UnknownValue,
        44,
        4,
        7,
    ),
    (
        b"\"g\"(%a) ({\n  %a = \"c\"() : () -> i1\n}) : (i1) -> ()",
        Wrong::UnknownValue,
        4,
        1,
        5,
    ),
    (
        b"\"g\"(%a) : (i1) -> ()\n%b = \"c\"() : () -> i1\n%b = \"c\"() : () -> i1",
        Wrong::UnknownValue,
        4,
        1,
        5,
    ),
    (
        b"%b = \"c\"() : () -> i1\n%b = \"c\"() : () -> i1\n\"g\"(%a) : (i1) -> ()",
        Wrong::ValueTwice,
        22,
        2,
        1,
    ),
    (b"\"c\"() : () -> i1", Wrong::ResultTypes, 0, 1, 1),
    (
        b"%a, %b:2 = \"c\"() : () -> (i1, i1, i1)\n%c:2 = \"c\"() : () -> i1",
        Wrong::ResultTypes,
        45,
        2,
        8,
    ),
    (
        b"%a:18446744073709551617, %b = \"c\"() : () -> (i1, i1)",
        Wrong::ResultTypes,
        30,
        1,
        31,
    ),
    (
        b"%a = \"c\"() ({\n  \"d\"() : () -> i1\n}) : () -> i1",
        Wrong::ResultTypes,
        16,
        2,
        3,
    ),
    (b"%a:0 = \"c\"() : () -> ()", Wrong::ResultCount, 3, 1, 4),
    (
        b"%a:0x2 = \"c\"() : () -> (i1, i1)",
        Wrong::ResultCount,
        3,
        1,
        4,
    ),
    (
        b"%a:2 = \"c\"() : () -> (i1, i1)\n\"d\"(%a#1, %a#2) : (i1, i1) -> ()",
        Wrong::UnknownValue,
        40,
        2,
        11,
    ),
    (
        b"%a = \"c\"() : () -> i1\n\"d\"(%a#0, %a#1) : (i1, i1) -> ()",
        Wrong::UnknownValue,
        32,
        2,
        11,
    ),
    (
        b"\"d\"(%a#x) : (i1) -> ()\n%a = \"c\"() : () -> i1",
        Wrong::UnknownValue,
        4,
        1,
        5,
    ),
    (
        b"\"f\"() ({\n^b(%a: i1):\n  \"d\"(%a#18446744073709551616) : (i1) -> ()\n}) : () -> ()",
        Wrong::UnknownValue,
        27,
        3,
        7,
    ),
    (
        b"%a = \"c\"() : () -> i1\n\"d\"(%a) : (i2) -> ()",
        Wrong::TypeOther,
        26,
        2,
        5,
    ),
    (
        b"%a:2, %b = \"c\"() : () -> (i1, i2, i3)\n\"d\"(%b, %a#1, %a) : (i3, i2, i3) -> ()",
        Wrong::TypeOther,
        52,
        2,
        15,
    ),
    (
        b"\"f\"() ({\n^b(%p: tensor<4xf32>):\n  \"d\"(%p) : (tensor<4xf64>) -> ()\n}) : () -> ()",
        Wrong::TypeOther,
        38,
        3,
        7,
    ),
    (
        b"\"d\"(%a) : (i9) -> ()\n%a = \"c\"() ({\n  %x = \"e\"() : () -> i9\n}) : () -> i1",
        Wrong::TypeOther,
        4,
        1,
        5,
    ),
    (
        b"\"g\"(%a) {k, k} : (i1) -> ()",
        Wrong::UnknownValue,
        4,
        1,
        5,
    ),
    (
        b"\"g\"() {k, k} : () -> ()\n\"h\"(%a) : (i1) -> ()",
        Wrong::KeyTwice,
        10,
        1,
        11,
    ),
    (b"\"g\"(%a) : () -> ()", Wrong::OperandTypes, 0, 1, 1),
    (
        b"\"g\"(%b) : (i1) -> ()\n\"f\"() ({\n  %b = \"c\"() : () -> i1\n}) : () -> ()\n%b = \"c\"() : () -> i1",
        Wrong::ValueTwice,
        68,
        5,
        1,
    ),
];

// Texts without faults: one key in several dictionaries, keys that an escaped backslash tells apart, one block's name in several regions, several results under one name.
const SOUND: &[&[u8]] = &[
    b"\"d\"(%a) : (i1) -> ()\n%a = \"c\"() ({\n  %x = \"e\"() : () -> i9\n}) : () -> i1",
    b"%a:2, %b:03 = \"c\"() : () -> (i1, i1, i1, i1, i1)\n\"d\"(%a#1, %b#2) : (i1, i1) -> ()",
    b"\"f\"() ({\n  \"g\"() {a, b} : () -> ()\n  \"h\"() {b, a} : () -> ()\n}) {a, b} : () -> ()\n\"i\"() {a} : () -> ()",
    b"\"f\"() {\"\\\\6e\", n, \"\\\\n\", \"\\n\"} : () -> ()",
    b"\"f\"() ({\n  \"g\"() {\"a\\62\"} : () -> ()\n  \"h\"() {ab} : () -> ()\n}) {\"\\61b\"} : () -> ()",
    b"\"f\"() ({\n^a:\n  \"x\"() : () -> ()\n}, {\n^a:\n  \"y\"()[^a] : () -> ()\n}) : () -> ()",
];

// A text that each of these checks refuses, and one that none does.
const WRONG: &[u8] = b"%a = \"c\"() {k} : () -> i1\n\"d\"(%a) {k, k} : () -> i1";

const RIGHT: &[u8] = b"%a = \"c\"() {k} : () -> i1\n\"d\"(%a) {k, l} : (i1) -> ()";

// The first fault of a text.
fn fault_of(alloc: Global, text: &[u8]) -> Result<Option<Fault>, ir_text_reader::Fault> {
    let tree = parse(alloc, text)?;
    match resolve(alloc, text, &tree.rows) {
        Ok(_) => Ok(None),
        Err(fault) => Ok(Some(fault)),
    }
}

#[test]
fn faults_of_texts(rt: HostRuntime) -> Result<(), Fail> {
    for (text, what, at, line, column) in FAULTS {
        let found = fault_of(rt.alloc(), *text)?;
        let wanted = Fault::Wrong {
            what: *what,
            at: *at,
        };
        assert!(rt; found == Some(wanted));
        assert!(rt; wanted.at() == Some(*at));
        if *at as usize <= text.len() {
            assert!(rt; line_and_column(*text, *at) == (*line, *column));
        }
    }
    Ok(())
}

#[test]
fn texts_without_faults(rt: HostRuntime) -> Result<(), Fail> {
    for text in SOUND {
        assert!(rt; fault_of(rt.alloc(), *text)?.is_none());
    }
    Ok(())
}

// Each check by itself, on a text that has its fault, and on one that has none.
#[test]
fn checks_alone(rt: HostRuntime) -> Result<(), Fail> {
    let text = WRONG;
    let tree = parse(rt.alloc(), text)?;
    assert!(rt; keys(rt.alloc(), text, &tree.rows).is_err());
    assert!(rt; operand_types(rt.alloc(), &tree.rows).is_err());
    assert!(rt; result_types(rt.alloc(), text, &tree.rows).is_err());
    let sound = RIGHT;
    let whole = parse(rt.alloc(), sound)?;
    assert!(rt; keys(rt.alloc(), sound, &whole.rows).is_ok());
    assert!(rt; operand_types(rt.alloc(), &whole.rows).is_ok());
    assert!(rt; result_types(rt.alloc(), sound, &whole.rows).is_ok());
    Ok(())
}

// Asserts that a fault prints as this text.
fn expect_text(rt: &impl Abort, alloc: Global, fault: Fault, text: &str) -> Result<(), Fail> {
    assert!(rt; format!(in alloc; "{fault}")?.as_str() == text);
    Ok(())
}

#[test]
fn name_fault_texts(rt: HostRuntime) -> Result<(), Fail> {
    expect_text(&rt, rt.alloc(), Fault::OutOfMemory, "out of memory")?;
    for (what, text) in [
        (
            Wrong::BlockTwice,
            "a block of this name stands in this region already",
        ),
        (Wrong::UnknownBlock, "no block of this region has this name"),
        (
            Wrong::KeyTwice,
            "this key stands in this dictionary already",
        ),
        (Wrong::OperandTypes, "not as many operand types as operands"),
        (
            Wrong::ResultCount,
            "expected a number of results, at least 1",
        ),
        (Wrong::ResultTypes, "not as many result types as results"),
        (Wrong::ValueTwice, "a value of this name is defined already"),
        (
            Wrong::TypeOther,
            "this operand has another type than the value that it names",
        ),
        (Wrong::UnknownValue, "no value of this name is defined here"),
    ] {
        expect_text(&rt, rt.alloc(), Fault::Wrong { what, at: 7 }, text)?;
    }
    Ok(())
}
