//! The table of operations: what it says of some, and what it says of none.

use generic_table::laws::{names_rise, pure_operations_are_safe};
use generic_table::{Traits, name_at, row_of, traits_at};

// What the table says of the operation with this name.
fn said(name: &[u8]) -> Option<Traits> {
    let row = row_of(name)?;
    traits_at(row)
}

// The traits of which these hold: ends its block, needs no terminator in its blocks, has dominance, is pure, is a symbol, has regions.
fn traits(held: [bool; 6]) -> Traits {
    Traits {
        terminator: held[0],
        no_terminator: held[1],
        dominance: held[2],
        pure_operation: held[3],
        symbol: held[4],
        regions: held[5],
    }
}

#[test]
fn some_operations(rt: HostRuntime) {
    let pure = traits([false, false, false, true, false, false]);
    let terminator = traits([true, false, false, false, false, false]);
    let loops = traits([false, false, true, false, false, true]);
    let function = traits([false, false, true, false, true, true]);
    let module = traits([false, true, false, false, true, true]);
    assert!(rt; said(b"arith.addi") == Some(pure));
    assert!(rt; said(b"vector.extract") == Some(pure));
    assert!(rt; said(b"func.return") == Some(terminator));
    assert!(rt; said(b"cf.cond_br") == Some(terminator));
    assert!(rt; said(b"scf.for") == Some(loops));
    assert!(rt; said(b"func.func") == Some(function));
    assert!(rt; said(b"builtin.module") == Some(module));
}

#[test]
fn others_have_no_row(rt: HostRuntime) {
    for name in [
        b"".as_slice(),
        b"a",
        b"arith.add",
        b"arith.addi ",
        b"memref.store",
        b"my.own",
        b"\xff",
        b"zzz.last",
    ] {
        assert!(rt; row_of(name).is_none());
    }
}

#[test]
fn the_row_of_each_name_is_its_own(rt: HostRuntime) {
    let mut rows = 0;
    for row in 0..u16::MAX {
        if let Some(name) = name_at(row) {
            assert!(rt; row_of(name) == Some(row));
            assert!(rt; traits_at(row).is_some());
            rows = row + 1;
        }
    }
    assert!(rt; rows > 0 && name_at(rows).is_none() && traits_at(rows).is_none());
}

// Whether an operation that MLIR says this of may be taken for pure where the table does.
fn is_safe(traits: Traits) -> bool {
    !traits.pure_operation || !traits.terminator && !traits.symbol && !traits.regions
}

#[test]
fn no_pure_operation_does_more(rt: HostRuntime) {
    pure_operations_are_safe();
    names_rise();
    for row in 0..u16::MAX {
        if let Some(traits) = traits_at(row) {
            assert!(rt; is_safe(traits));
            assert!(rt; !traits.dominance || traits.regions);
        }
    }
}
