//! Kinds of operations, and what they implement.

use generic_dialect::laws::{kinds_and_numbers, pure_kinds_are_safe};
use generic_dialect::{Generic, Kind, OPEN_KINDS, OPEN_NAMES, TextId, kind_name, table_kind};
use ir_base_dialects::Dialects;
use ir_base_dialects::interfaces::{NO_TERMINATOR, PURE_OPERATION, REGION_KIND, TERMINATOR};

// Which interfaces the kind implements: of terminators, of blocks without one, of regions, of purity, and one that is its dialect's own.
fn implemented(kind: u32) -> [bool; 5] {
    [
        Generic::op_impls(kind, TERMINATOR),
        Generic::op_impls(kind, NO_TERMINATOR),
        Generic::op_impls(kind, REGION_KIND),
        Generic::op_impls(kind, PURE_OPERATION),
        Generic::op_impls(kind, 16),
    ]
}

#[test]
fn listed_kinds(rt: HostRuntime) {
    pure_kinds_are_safe();
    for (name, expected, dominance) in [
        (
            b"arith.addi".as_slice(),
            [false, false, true, true, false],
            false,
        ),
        (b"func.return", [true, false, true, false, false], false),
        (b"func.func", [false, false, true, false, false], true),
        (b"builtin.module", [false, true, true, false, false], false),
    ] {
        let kind = table_kind(name).expect(&rt, "a row");
        assert!(rt; kind < OPEN_KINDS && kind_name(kind) == Some(name));
        assert!(rt; implemented(kind) == expected);
        assert!(rt; Generic::region_ssa_dominance(kind, 0) == dominance);
    }
    assert!(rt; table_kind(b"memref.store").is_none());
}

#[test]
fn kinds_without_an_operation(rt: HostRuntime) {
    let nothing = [false, false, false, false, false];
    assert!(rt; kind_name(OPEN_KINDS - 1).is_none());
    assert!(rt; implemented(OPEN_KINDS - 1) == nothing);
    assert!(rt; !Generic::region_ssa_dominance(OPEN_KINDS - 1, 0));
}

#[test]
fn open_kinds(rt: HostRuntime) {
    for (place, ends, number) in [
        (0, false, 65_536),
        (0, true, 65_537),
        (3, true, 65_543),
        (OPEN_NAMES - 1, true, u32::MAX),
    ] {
        let name = TextId(place);
        let kind = Kind::Open { name, ends };
        assert!(rt; kind.number() == Some(number));
        assert!(rt; Kind::of(number) == kind);
        assert!(rt; kind_name(number).is_none());
        assert!(rt; implemented(number) == [ends, true, true, false, false]);
        assert!(rt; !Generic::region_ssa_dominance(number, 0));
    }
}

#[test]
fn numbers_of_kinds(rt: HostRuntime) {
    kinds_and_numbers();
    let name = TextId(OPEN_NAMES);
    assert!(rt; Kind::Open { name, ends: false }.number().is_none());
    let row = 65_535;
    assert!(rt; Kind::Listed { row }.number() == Some(65_535));
    assert!(rt; Kind::of(65_535) == Kind::Listed { row });
}
