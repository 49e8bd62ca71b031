// The rows of each production of the grammar.
use crate::tree::letters::rows_of;
use std::test::Fail;

// Tokens with their rows.
const ROWS: &[(&[u8], &[u8])] = &[
    // results, some with counts
    (b"\"():()>()", b"N........"),
    (b"%=\"():()>(w)", b"R.N.......U."),
    (b"%:w,%,%:w=\"():()>()", b"R.C.R.R.C.N........"),
    // operands, some with indices
    (b"\"(%):(w)>()", b"N.O...T...."),
    (b"\"(%#,%,%#):(w,!<,w<)>()", b"N.OI.O.OI...T.T-.T-...."),
    // successors
    (b"\"()[^]:()>()", b"N...S......."),
    (b"\"()[^,^,^]:()>()", b"N...S.S.S......."),
    // properties, alone and beside all that may stand there
    (b"\"()<:()>()", b"N..P......"),
    (b"\"()[^]<({}){w}:()>()", b"N...S.P.{}..K......."),
    (b"\"()<{}:()>()", b"N..P........"),
    // regions and blocks
    (b"\"()({}):()>()", b"N...{}......."),
    (b"\"()({},{}){}:()>()", b"N...{}.{}........."),
    (b"\"()({\"():()>()}):()>()", b"N...{N........}......."),
    (
        b"\"()({\"():()>()^:^():}):()>()",
        b"N...{N........B.B...}.......",
    ),
    (b"\"()[^]({^:},{^:}):()>()", b"N...S..{B.}.{B.}......."),
    (
        b"\"()({\"()({\"()({}):()>()}):()>()},{}):()>()",
        b"N...{N...{N...{}.......}.......}.{}.......",
    ),
    // arguments, some with locations
    (b"\"()({^(%:w):}):()>()", b"N...{B.A.Y..}......."),
    (
        b"\"()({^(%:w<l(\"),%:!,%:(w)>wl(w(\"))):}):()>()",
        b"N...{B.A.Y-..M..A.Y.A.Y----..M---...}.......",
    ),
    // attributes: units, each sort of key and of value, brackets in one another
    (b"\"(){}:()>()", b"N.........."),
    (b"\"(){w,\",l}:()>()", b"N...K.K.K......."),
    (
        b"\"(){w=w:w,w=#<,w=\",w=!,w=%,w=^,w=<,w=l,w=@w,w}:()>()",
        b"N...K.V--.K.V-.K.V.K.V.K.V.K.V.K.V.K.V.K.V-.K.......",
    ),
    (
        b"\"(){w={w=[w,w],\"=w},w=[],w=(w,l=)>w:}:()>()",
        b"N...K.V------------.K.V-.K.V--------.......",
    ),
    // types: functions in lists, and one result's type in no parentheses
    (
        b"\"(%,%):((w,w)>(w),w>w)>((w)>w,w)",
        b"N.O.O...T--------.T--...U----.U.",
    ),
    (b"\"():()>w", b"N......u"),
    (b"\"():()>(w)", b"N.......U."),
    (b"\"():()>!<", b"N......u-"),
    // locations
    (b"\"():()>w<l(w)", b"N......u-..L."),
    (b"\"():()>()l(\"@(w,w)[<])", b"N..........L---------."),
    (b"\"():()>wl(l<)\"():()>()", b"N......u..L-.N........"),
    // several operations
    (
        b"\"():()>w\"():()>!%=\"():()>w",
        b"N......uN......uR.N......u",
    ),
    (
        b"\"():()>()%=\"():()>w\"(%):(w)>()",
        b"N........R.N......uN.O...T....",
    ),
];

#[test]
fn rows_of_tokens(rt: HostRuntime) -> Result<(), Fail> {
    for (letters, wanted) in ROWS {
        let rows = rows_of(rt.alloc(), *letters)?;
        assert!(rt; rows.as_slice() == *wanted);
    }
    Ok(())
}
