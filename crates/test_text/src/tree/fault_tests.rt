// Each fault with its place, and its text.
use crate::tree::letters::fault_of;
use ir_text_tree::{Fault, Wanted};
use std::alloc::Global;
use std::process::Abort;
use std::test::Fail;

// Tokens with what has to stand at the place of their first fault, in tables of their own, since the cost of a table grows faster than its rows.

// What stands before an operation, its results, its name and its operands.
const NAMES: &[(&[u8], Wanted, u32)] = &[
    (b"", Wanted::Operation, 0),
    (b"w", Wanted::Operation, 0),
    (b"}", Wanted::Operation, 0),
    (b"^", Wanted::Operation, 0),
    (b",", Wanted::Operation, 0),
    (b"\"():()>()^", Wanted::Operation, 18),
    (b"\"():()>()}", Wanted::Operation, 18),
    (b"\"():()>()w", Wanted::Operation, 18),
    (b"\"():()>w,", Wanted::Operation, 16),
    (b"\"()({", Wanted::Inside, 10),
    (b"\"()({,", Wanted::Inside, 10),
    (b"\"()({\"():()>()", Wanted::Inside, 28),
    (b"\"()({\"():()>w^", Wanted::AfterLabel, 28),
    (b"\"()({^:>", Wanted::Inside, 14),
    (b"%", Wanted::AfterResult, 2),
    (b"%w", Wanted::AfterResult, 2),
    (b"%:", Wanted::Count, 4),
    (b"%:%", Wanted::Count, 4),
    (b"%:w", Wanted::AfterCount, 6),
    (b"%:w:", Wanted::AfterCount, 6),
    (b"%,", Wanted::ValueName, 4),
    (b"%,\"", Wanted::ValueName, 4),
    (b"%=", Wanted::OperationName, 4),
    (b"%=%", Wanted::OperationName, 4),
    (b"%:w=w", Wanted::OperationName, 8),
    (b"\"", Wanted::OpenParenthesis, 2),
    (b"\"w", Wanted::OpenParenthesis, 2),
    (b"\"(", Wanted::FirstOperand, 4),
    (b"\"(w", Wanted::FirstOperand, 4),
    (b"\"(,", Wanted::FirstOperand, 4),
    (b"\"(%", Wanted::AfterOperand, 6),
    (b"\"(%:", Wanted::AfterOperand, 6),
    (b"\"(%#", Wanted::CommaOrParenthesis, 8),
    (b"\"(%##", Wanted::CommaOrParenthesis, 8),
    (b"\"(%,", Wanted::ValueName, 8),
    (b"\"(%,)", Wanted::ValueName, 8),
    (b"\"(%#,w", Wanted::ValueName, 10),
];

// What follows the operands, and regions.
const REGIONS: &[(&[u8], Wanted, u32)] = &[
    (b"\"()", Wanted::AfterOperands, 6),
    (b"\"()w", Wanted::AfterOperands, 6),
    (b"\"())", Wanted::AfterOperands, 6),
    (b"\"()[", Wanted::BlockName, 8),
    (b"\"()[]", Wanted::BlockName, 8),
    (b"\"()[w", Wanted::BlockName, 8),
    (b"\"()[^", Wanted::AfterSuccessor, 10),
    (b"\"()[^)", Wanted::AfterSuccessor, 10),
    (b"\"()[^,", Wanted::BlockName, 12),
    (b"\"()[^,]", Wanted::BlockName, 12),
    (b"\"()[^]", Wanted::AfterSuccessors, 12),
    (b"\"()[^][", Wanted::AfterSuccessors, 12),
    (b"\"()[^]<<", Wanted::AfterProperties, 14),
    (b"\"()<", Wanted::AfterProperties, 8),
    (b"\"()<<", Wanted::AfterProperties, 8),
    (b"\"()<[^]", Wanted::AfterProperties, 8),
    (b"\"()(", Wanted::Region, 8),
    (b"\"()()", Wanted::Region, 8),
    (b"\"()({}", Wanted::CommaOrParenthesis, 12),
    (b"\"()({}{", Wanted::CommaOrParenthesis, 12),
    (b"\"()({},", Wanted::Region, 14),
    (b"\"()({},)", Wanted::Region, 14),
    (b"\"()({})", Wanted::AfterRegions, 14),
    (b"\"()({})<", Wanted::AfterRegions, 14),
    (b"\"()({})(", Wanted::AfterRegions, 14),
];

// Attributes.
const ATTRIBUTES: &[(&[u8], Wanted, u32)] = &[
    (b"\"(){", Wanted::FirstKey, 8),
    (b"\"(){%", Wanted::FirstKey, 8),
    (b"\"(){,", Wanted::FirstKey, 8),
    (b"\"(){w", Wanted::AfterKey, 10),
    (b"\"(){w:", Wanted::AfterKey, 10),
    (b"\"(){w,", Wanted::Key, 12),
    (b"\"(){w,}", Wanted::Key, 12),
    (b"\"(){w,=", Wanted::Key, 12),
    (b"\"(){w=", Wanted::Value, 12),
    (b"\"(){w=}", Wanted::Value, 12),
    (b"\"(){w=,", Wanted::Value, 12),
    (b"\"(){w==", Wanted::Value, 12),
    (b"\"(){w=w", Wanted::InValue, 14),
    (b"\"(){w=w=", Wanted::InValue, 14),
    (b"\"(){w=w)", Wanted::InValue, 14),
    (b"\"(){w=w]", Wanted::InValue, 14),
    (b"\"(){w=(}", Wanted::InValue, 14),
    (b"\"(){w=[)", Wanted::InValue, 14),
    (b"\"(){w={]", Wanted::InValue, 14),
    (b"\"(){w=(w,", Wanted::InValue, 18),
    (b"\"(){}", Wanted::Colon, 10),
    (b"\"(){}{", Wanted::Colon, 10),
    (b"\"(){w}(", Wanted::Colon, 12),
];

// Types.
const TYPES: &[(&[u8], Wanted, u32)] = &[
    (b"\"():", Wanted::OpenParenthesis, 8),
    (b"\"():w", Wanted::OpenParenthesis, 8),
    (b"\"():(", Wanted::FirstType, 10),
    (b"\"():(,", Wanted::FirstType, 10),
    (b"\"():(l", Wanted::FirstType, 10),
    (b"\"():(]", Wanted::FirstType, 10),
    (b"\"():(w", Wanted::InType, 12),
    (b"\"():(w=", Wanted::InType, 12),
    (b"\"():(wl", Wanted::InType, 12),
    (b"\"():(w,", Wanted::Type, 14),
    (b"\"():(w,)", Wanted::Type, 14),
    (b"\"():(w,,", Wanted::Type, 14),
    (b"\"():((w]", Wanted::InType, 14),
    (b"\"():()", Wanted::Arrow, 12),
    (b"\"():():", Wanted::Arrow, 12),
    (b"\"():()w", Wanted::Arrow, 12),
    (b"\"():()>", Wanted::ResultTypes, 14),
    (b"\"():()>\"", Wanted::ResultTypes, 14),
    (b"\"():()><", Wanted::ResultTypes, 14),
    (b"\"():()>(", Wanted::FirstType, 16),
    (b"\"():()>(,", Wanted::FirstType, 16),
    (b"\"():()>(w", Wanted::InType, 18),
    (b"\"():()>(w=", Wanted::InType, 18),
    (b"\"():()>(w,", Wanted::Type, 20),
    (b"\"():()>(w,)", Wanted::Type, 20),
    (b"\"():()>(w)w", Wanted::Operation, 20),
];

// Locations and heads of blocks.
const LABELS: &[(&[u8], Wanted, u32)] = &[
    (b"\"():()>()l", Wanted::OpenParenthesis, 20),
    (b"\"():()>()lw", Wanted::OpenParenthesis, 20),
    (b"\"():()>()l(", Wanted::Location, 22),
    (b"\"():()>()l()", Wanted::Location, 22),
    (b"\"():()>()l(,", Wanted::Location, 22),
    (b"\"():()>()l(w", Wanted::InLocation, 24),
    (b"\"():()>()l(w,", Wanted::InLocation, 24),
    (b"\"():()>()l(w)l", Wanted::Operation, 26),
    (b"\"():()>wl)", Wanted::OpenParenthesis, 18),
    (b"\"()({^", Wanted::AfterLabel, 12),
    (b"\"()({^w", Wanted::AfterLabel, 12),
    (b"\"()({^(", Wanted::FirstArgument, 14),
    (b"\"()({^(w", Wanted::FirstArgument, 14),
    (b"\"()({^(%", Wanted::Colon, 16),
    (b"\"()({^(%w", Wanted::Colon, 16),
    (b"\"()({^(%:", Wanted::Type, 18),
    (b"\"()({^(%:)", Wanted::Type, 18),
    (b"\"()({^(%:l", Wanted::Type, 18),
    (b"\"()({^(%:w", Wanted::InType, 20),
    (b"\"()({^(%:w=", Wanted::InType, 20),
    (b"\"()({^(%:w,", Wanted::ValueName, 22),
    (b"\"()({^(%:w,)", Wanted::ValueName, 22),
    (b"\"()({^(%:wl", Wanted::OpenParenthesis, 22),
    (b"\"()({^(%:wlw", Wanted::OpenParenthesis, 22),
    (b"\"()({^(%:wl(", Wanted::Location, 24),
    (b"\"()({^(%:wl()", Wanted::Location, 24),
    (b"\"()({^(%:wl(w", Wanted::InLocation, 26),
    (b"\"()({^(%:wl(w,", Wanted::InLocation, 26),
    (b"\"()({^(%:wl(w)", Wanted::CommaOrParenthesis, 28),
    (b"\"()({^(%:wl(w):", Wanted::CommaOrParenthesis, 28),
    (b"\"()({^()", Wanted::Colon, 16),
    (b"\"()({^())", Wanted::Colon, 16),
    (b"\"()({^(%:w)w", Wanted::Colon, 22),
];

// Asserts that the tokens of each row have this fault first.
fn expect_faults(
    rt: &impl Abort,
    alloc: Global,
    rows: &[(&[u8], Wanted, u32)],
) -> Result<(), Fail> {
    for (letters, wanted, at) in rows {
        let fault = fault_of(alloc, *letters)?;
        let is_fault = fault
            == Some(Fault::Expected {
                wanted: *wanted,
                at: *at,
            });
        assert!(rt; is_fault);
    }
    Ok(())
}

#[test]
fn faults_of_names(rt: HostRuntime) -> Result<(), Fail> {
    expect_faults(&rt, rt.alloc(), NAMES)
}

#[test]
fn faults_of_regions(rt: HostRuntime) -> Result<(), Fail> {
    expect_faults(&rt, rt.alloc(), REGIONS)
}

#[test]
fn faults_of_attributes(rt: HostRuntime) -> Result<(), Fail> {
    expect_faults(&rt, rt.alloc(), ATTRIBUTES)
}

#[test]
fn faults_of_types(rt: HostRuntime) -> Result<(), Fail> {
    expect_faults(&rt, rt.alloc(), TYPES)
}

#[test]
fn faults_of_labels(rt: HostRuntime) -> Result<(), Fail> {
    expect_faults(&rt, rt.alloc(), LABELS)
}

// What has to stand at a place, as a text.
const TEXTS: &[(Wanted, &str)] = &[
    (Wanted::Operation, "an operation"),
    (Wanted::Inside, "an operation, a block or `}`"),
    (Wanted::AfterResult, "`:`, `,` or `=`"),
    (Wanted::Count, "a number"),
    (Wanted::AfterCount, "`,` or `=`"),
    (Wanted::ValueName, "the name of a value"),
    (Wanted::OperationName, "the name of an operation, in quotes"),
    (Wanted::OpenParenthesis, "`(`"),
    (Wanted::FirstOperand, "the name of a value or `)`"),
    (Wanted::AfterOperand, "`#` and a number, `,` or `)`"),
    (Wanted::CommaOrParenthesis, "`,` or `)`"),
    (Wanted::AfterOperands, "`[`, `<`, `(`, `{` or `:`"),
    (Wanted::BlockName, "the name of a block"),
    (Wanted::AfterSuccessor, "`,` or `]`"),
    (Wanted::AfterSuccessors, "`<`, `(`, `{` or `:`"),
    (Wanted::AfterProperties, "`(`, `{` or `:`"),
    (Wanted::Region, "`{`"),
    (Wanted::AfterRegions, "`{` or `:`"),
    (Wanted::FirstKey, "a key or `}`"),
    (Wanted::Key, "a key"),
    (Wanted::AfterKey, "`=`, `,` or `}`"),
    (Wanted::Colon, "`:`"),
    (Wanted::FirstType, "a type or `)`"),
    (Wanted::Arrow, "`->`"),
    (Wanted::ResultTypes, "a type or `(`"),
    (Wanted::AfterLabel, "`(` or `:`"),
    (Wanted::FirstArgument, "the name of an argument or `)`"),
    (Wanted::Value, "a value"),
    (Wanted::Type, "a type"),
    (Wanted::Location, "a location"),
    (Wanted::InValue, "the rest of the value, `,` or `}`"),
    (Wanted::InType, "the rest of the type, `,` or `)`"),
    (Wanted::InLocation, "the rest of the location or `)`"),
];

// Asserts that a fault prints as this text.
fn expect_text(rt: &impl Abort, alloc: Global, wanted: Wanted, text: &str) -> Result<(), Fail> {
    let fault = Fault::Expected { wanted, at: 7 };
    let printed = format!(in alloc; "{fault}")?;
    let expected = format!(in alloc; "expected {text}")?;
    assert!(rt; printed.as_str() == expected.as_str());
    Ok(())
}

#[test]
fn tree_fault_texts(rt: HostRuntime) -> Result<(), Fail> {
    for (wanted, text) in TEXTS {
        expect_text(&rt, rt.alloc(), *wanted, *text)?;
    }
    let fault = Fault::OutOfMemory;
    assert!(rt; format!(in rt.alloc(); "{fault}")?.as_str() == "out of memory");
    Ok(())
}
