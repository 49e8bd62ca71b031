// What `run_opt` prints and tells, and its status.
use generic_dialect::Generic;
use generic_text::{BuildError, build};
use ir_base_dialects::{CoreError, Limits};
use ir_checked_core::context;
use ir_core_queries::{Context, OperationPtr};
use ir_opt_run::{Fault, Options, Pass, print_operation, read_module, run_opt};
use ir_text_names::resolve;
use ir_text_reader::parse;
use std::alloc::{AllocError, Global};
use std::io;
use std::io::{ErrorKind, Read, Write};
use std::process::Abort;
use std::test::Fail;

// Gives its bytes, and then fails, if it is to.
#[derive(Drop)]
struct Source {
    left: &'static [u8],
    failure: Option<ErrorKind>,
}

impl Read for Source {
    fn read(&mut self, buf: &mut [u8]) -> io::Result<usize> {
        match self.failure {
            Some(kind) if self.left.is_empty() => Err(io::Error::from(kind)),
            _ => self.left.read(buf),
        }
    }
}

// Takes so many bytes, and then fails.
#[derive(Drop)]
struct Sink {
    taken: Vec<u8>,
    room: usize,
}

impl Write for Sink {
    fn write(&mut self, buf: &[u8]) -> io::Result<usize> {
        let count = self.room.min(buf.len());
        if count == 0 && !buf.is_empty() {
            return Err(io::Error::from(ErrorKind::BrokenPipe));
        }
        self.room = self.room.saturating_sub(count);
        self.taken.write(&buf[..count])
    }

    fn flush(&mut self) -> io::Result<()> {
        Ok(())
    }
}

// What is asked: which passes, whether the input has parts, whether statistics are told.
type Asked = (&'static [Pass], bool, bool);

const PLAIN: Asked = (&[], false, false);

const SWEEP: Asked = (&[Pass::Sweep], false, false);

const PARTS: Asked = (&[], true, false);

const MERGE: Asked = (&[Pass::Cse], false, true);

const UNREACHABLE: Asked = (&[Pass::UnreachableBlocks], false, true);

// A text, what is asked, the status, what is printed, and what is told.
type Row = (&'static [u8], Asked, u8, &'static [u8], &'static [u8]);

const ROWS: &[Row] = &[
    // Values and blocks are numbered anew; what stands outside all regions is put into a module.
    (
        b"%c = \"t.one\"() {value = 1 : i32} : () -> i32 \"t.use\"(%c) : (i32) -> ()",
        PLAIN,
        0,
        b"\"builtin.module\"() ({\n  %0 = \"t.one\"() {value = 1 : i32} : () -> i32\n  \"t.use\"(%0) : (i32) -> ()\n}) : () -> ()\n",
        b"",
    ),
    // A module stays the only one.
    (
        b"\"builtin.module\"() ({\n}) : () -> ()",
        PLAIN,
        0,
        b"\"builtin.module\"() ({\n}) : () -> ()\n",
        b"",
    ),
    // A value that is named before its definition, and several under one name.
    (
        b"\"t.use\"(%x#1, %y) : (i2, i3) -> ()\n%x:2, %y = \"t.three\"() : () -> (i1, i2, i3)",
        PLAIN,
        0,
        b"\"builtin.module\"() ({\n  \"t.use\"(%0#1, %0#2) : (i2, i3) -> ()\n  %0:3 = \"t.three\"() : () -> (i1, i2, i3)\n}) : () -> ()\n",
        b"",
    ),
    // A value that is named before its definition, behind an operation that has nothing but a name.
    (
        b"\"t.a\"() : () -> () \"t.use\"(%x) : (i1) -> () %x = \"t.b\"() : () -> i1",
        PLAIN,
        0,
        b"\"builtin.module\"() ({\n  \"t.a\"() : () -> ()\n  \"t.use\"(%0) : (i1) -> ()\n  %0 = \"t.b\"() : () -> i1\n}) : () -> ()\n",
        b"",
    ),
    // A lone result type stands in no parentheses where it is a name, or a name and one group; else in some.
    (
        b"%a = \"t.a\"() : () -> (t<a->b, \">\", [c>=d]>) %b = \"t.b\"() : () -> !d.t %c = \"t.c\"() : () -> (- 1) %d = \"t.d\"() : () -> (a<b> | c<d>) %e = \"t.e\"() : () -> (loca<1>) %f = \"t.f\"() : () -> (i32 [1]) %g = \"t.g\"() : () -> (() -> ())",
        PLAIN,
        0,
        b"\"builtin.module\"() ({\n  %0 = \"t.a\"() : () -> t<a->b, \">\", [c>=d]>\n  %1 = \"t.b\"() : () -> !d.t\n  %2 = \"t.c\"() : () -> (- 1)\n  %3 = \"t.d\"() : () -> (a<b> | c<d>)\n  %4 = \"t.e\"() : () -> loca<1>\n  %5 = \"t.f\"() : () -> (i32 [1])\n  %6 = \"t.g\"() : () -> (() -> ())\n}) : () -> ()\n",
        b"",
    ),
    // Dead operations go, also where they name each other from inside a region, and what isn't known stays.
    (
        b"%a = \"arith.constant\"() {value = 1 : i32} : () -> i32 %b = \"arith.addi\"(%a, %a) : (i32, i32) -> i32 \"t.r\"() ({ %d = \"arith.muli\"(%b, %b) : (i32, i32) -> i32 \"t.end\"() : () -> () }) : () -> ()",
        SWEEP,
        0,
        b"\"builtin.module\"() ({\n  \"t.r\"() ({\n    \"t.end\"() : () -> ()\n  }) : () -> ()\n}) : () -> ()\n",
        b"",
    ),
    // A name that is written with an escape is the name that it stands for: it is printed so, and is known to the table.
    (
        b"%a = \"arith\\2Econstant\"() {value = 1 : i32} : () -> i32 \"t.use\"(%a) : (i32) -> ()",
        PLAIN,
        0,
        b"\"builtin.module\"() ({\n  %0 = \"arith.constant\"() {value = 1 : i32} : () -> i32\n  \"t.use\"(%0) : (i32) -> ()\n}) : () -> ()\n",
        b"",
    ),
    (
        b"%a = \"arith\\2Econstant\"() {value = 1 : i32} : () -> i32 \"t.end\"() : () -> ()",
        SWEEP,
        0,
        b"\"builtin.module\"() ({\n  \"t.end\"() : () -> ()\n}) : () -> ()\n",
        b"",
    ),
    // What passes did is told.
    (
        b"%a = \"arith.constant\"() {value = 1 : i32} : () -> i32 \"t.end\"() : () -> ()",
        (&[Pass::Sweep, Pass::Sweep], false, true),
        0,
        b"\"builtin.module\"() ({\n  \"t.end\"() : () -> ()\n}) : () -> ()\n",
        b"in: sweep: 1 operations erased\nin: sweep: 0 operations erased\n",
    ),
    // Of alike operations the later goes; one with another attribute stays.
    (
        b"%a = \"arith.constant\"() {value = 1 : i32} : () -> i32 %b = \"arith.constant\"() {value = 1 : i32} : () -> i32 %c = \"arith.constant\"() {value = 2 : i32} : () -> i32 \"t.use\"(%b, %a, %c) : (i32, i32, i32) -> ()",
        MERGE,
        0,
        b"\"builtin.module\"() ({\n  %0 = \"arith.constant\"() {value = 1 : i32} : () -> i32\n  %1 = \"arith.constant\"() {value = 2 : i32} : () -> i32\n  \"t.use\"(%0, %0, %1) : (i32, i32, i32) -> ()\n}) : () -> ()\n",
        b"in: cse: 1 operations erased\n",
    ),
    // Passes run in the order in which they are asked for: what was merged is no longer dead.
    (
        b"%a = \"arith.constant\"() {value = 1 : i32} : () -> i32 %b = \"arith.constant\"() {value = 1 : i32} : () -> i32 \"t.use\"(%a) : (i32) -> ()",
        (&[Pass::Cse, Pass::Sweep], false, true),
        0,
        b"\"builtin.module\"() ({\n  %0 = \"arith.constant\"() {value = 1 : i32} : () -> i32\n  \"t.use\"(%0) : (i32) -> ()\n}) : () -> ()\n",
        b"in: cse: 1 operations erased\nin: sweep: 0 operations erased\n",
    ),
    (
        b"%a = \"arith.constant\"() {value = 1 : i32} : () -> i32 %b = \"arith.constant\"() {value = 1 : i32} : () -> i32 \"t.use\"(%a) : (i32) -> ()",
        (&[Pass::Sweep, Pass::Cse], false, true),
        0,
        b"\"builtin.module\"() ({\n  %0 = \"arith.constant\"() {value = 1 : i32} : () -> i32\n  \"t.use\"(%0) : (i32) -> ()\n}) : () -> ()\n",
        b"in: sweep: 1 operations erased\nin: cse: 0 operations erased\n",
    ),
    // A block goes that nothing leads to, with an effect in it.
    (
        b"\"t.f\"() ({ \"t.br\"()[^c] : () -> () ^b: \"t.effect\"() : () -> () \"t.br\"()[^c] : () -> () ^c: \"t.end\"() : () -> () }) : () -> ()",
        UNREACHABLE,
        0,
        b"\"builtin.module\"() ({\n  \"t.f\"() ({\n    \"t.br\"()[^bb1] : () -> ()\n  ^bb1:\n    \"t.end\"() : () -> ()\n  }) : () -> ()\n}) : () -> ()\n",
        b"in: unreachable-blocks: 2 operations erased\n",
    ),
    // One that defines what is named outside can't go.
    (
        b"\"t.f\"() ({ \"t.use\"(%x) : (i1) -> () \"t.end\"() : () -> () ^b: %x = \"t.def\"() : () -> i1 \"t.end\"() : () -> () }) : () -> ()",
        UNREACHABLE,
        1,
        b"",
        b"in: error: what an unreachable block defines is named outside of unreachable blocks\n",
    ),
    // A name that means nothing.
    (
        b"\"t.use\"(%x) : (i32) -> ()",
        PLAIN,
        1,
        b"",
        b"in:1:9: error: no value of this name is defined here\n",
    ),
    // Two keys that stand for the same bytes.
    (
        b"\"t.op\"() {a,\n \"\\61\"} : () -> ()",
        PLAIN,
        1,
        b"",
        b"in:2:2: error: this key stands in this dictionary already\n",
    ),
    // A block without a terminator.
    (
        b"\"t.op\"() : () -> ()\n  \"func.func\"() ({\n^b:\n  %c = \"arith.constant\"() {value = 1 : i32} : () -> i32\n}) : () -> ()",
        PLAIN,
        1,
        b"",
        b"in:2:3: error: a block of this operation has no terminator\n",
    ),
    // The first block of a region that is a successor.
    (
        b"\"func.func\"() ({\n^b:\n  \"cf.br\"()[^b] : () -> ()\n}) : () -> ()",
        PLAIN,
        1,
        b"",
        b"in:1:1: error: the first block of a region of this operation is a successor\n",
    ),
    // Parts, each on its own.
    (
        b"\"t.a\"() : () -> ()\n// -----\n\"t.b\"() : () -> ()\n",
        PARTS,
        0,
        b"\"builtin.module\"() ({\n  \"t.a\"() : () -> ()\n}) : () -> ()\n// -----\n\"builtin.module\"() ({\n  \"t.b\"() : () -> ()\n}) : () -> ()\n",
        b"",
    ),
    // Each part's first fault is told, with its line in the input, and nothing is printed.
    (
        b"\"t.a\"(%x) : (i1) -> ()\n// -----\n\"t.b\"() : () -> ()\n// -----\n\"t.c\"(%x) : (i1) -> ()\n",
        PARTS,
        1,
        b"",
        b"in:1:7: error: no value of this name is defined here\nin:5:7: error: no value of this name is defined here\n",
    ),
];

// What is asked, under the name `in`.
fn options(alloc: Global, asked: Asked) -> Result<Options<'static>, AllocError> {
    let (passes, splits_input, tells_statistics) = asked;
    Ok(Options {
        name: "in",
        passes: Vec::from_slice(alloc, passes)?,
        splits_input,
        verifies_each: true,
        tells_statistics,
        prints_locations: false,
    })
}

// A sink of this room.
fn sink_with(alloc: Global, room: usize) -> Sink {
    Sink {
        taken: Vec::new(alloc),
        room,
    }
}

fn expect_row(rt: &impl Abort, alloc: Global, row: &Row) -> Result<(), Fail> {
    let (text, asked, status, printed, told) = *row;
    let mut input = text;
    let mut output = sink_with(alloc, 10000);
    let mut log = sink_with(alloc, 10000);
    let options = options(alloc, asked)?;
    assert_eq!(rt;
        run_opt(alloc, &options, &mut input, &mut output, &mut log),
        status
    );
    assert_eq!(rt; output.taken.as_slice(), printed);
    assert_eq!(rt; log.taken.as_slice(), told);
    Ok(())
}

#[test]
fn texts(rt: HostRuntime) -> Result<(), Fail> {
    for row in ROWS {
        expect_row(&rt, rt.alloc(), row)?;
    }
    Ok(())
}

// How the input fails, the room of the output and of the log, the status, and what is told.
type Failing = (Option<ErrorKind>, usize, usize, u8, &'static [u8]);

const FAILING: &[Failing] = &[
    (None, 10000, 0, 0, b""),
    (
        Some(ErrorKind::BrokenPipe),
        10000,
        10000,
        1,
        b"in: error: unreadable input\n",
    ),
    (
        Some(ErrorKind::OutOfMemory),
        10000,
        10000,
        1,
        b"in: error: out of memory\n",
    ),
    (Some(ErrorKind::BrokenPipe), 10000, 0, 1, b""),
    (None, 0, 10000, 3, b""),
    (None, 20, 10000, 3, b""),
];

// What is printed of the text that the failing streams have.
const PRINTED: &[u8] = b"\"builtin.module\"() ({\n  \"t.a\"() : () -> ()\n}) : () -> ()\n";

fn expect_failing(rt: &impl Abort, alloc: Global, row: &Failing) -> Result<(), Fail> {
    let (failure, room, log_room, status, told) = *row;
    let mut input = Source {
        left: b"\"t.a\"() : () -> ()",
        failure,
    };
    let mut output = sink_with(alloc, room);
    let mut log = sink_with(alloc, log_room);
    let options = options(alloc, PLAIN)?;
    assert_eq!(rt;
        run_opt(alloc, &options, &mut input, &mut output, &mut log),
        status
    );
    assert_eq!(rt; log.taken.as_slice(), told);
    if status == 1 {
        assert!(rt; output.taken.is_empty());
    } else {
        let front = room.min(PRINTED.len());
        assert_eq!(rt; output.taken.as_slice(), &PRINTED[..front]);
    }
    Ok(())
}

#[test]
fn failing_streams(rt: HostRuntime) -> Result<(), Fail> {
    for row in FAILING {
        expect_failing(&rt, rt.alloc(), row)?;
    }
    Ok(())
}

// How many regions stand in one another.
const DEPTH: u32 = 100000;

// A text with that many regions in one another, and an operation in the innermost that names no value.
fn nest(alloc: Global) -> Result<Vec<u8>, AllocError> {
    let mut text = Vec::new(alloc);
    for _ in 0..DEPTH {
        text.extend_from_slice(b"\"t\"() ({")?;
    }
    text.extend_from_slice(b"\n\"u\"(%x) : (i1) -> ()\n")?;
    for _ in 0..DEPTH {
        text.extend_from_slice(b"}) : () -> ()")?;
    }
    Ok(text)
}

#[test]
fn deep_fault(rt: HostRuntime) -> Result<(), Fail> {
    let alloc = rt.alloc();
    let text = nest(alloc)?;
    let mut input = text.as_slice();
    let mut output = sink_with(alloc, 10000);
    let mut log = sink_with(alloc, 10000);
    let options = options(alloc, SWEEP)?;
    assert_eq!(rt;
        run_opt(alloc, &options, &mut input, &mut output, &mut log),
        1
    );
    assert!(rt; output.taken.is_empty());
    let told = b"in:2:5: error: no value of this name is defined here\n";
    assert_eq!(rt; log.taken.as_slice(), told.as_slice());
    Ok(())
}

// What is printed of a text that was read into a context.
fn printed(ctx: &mut Context<Generic>, text: &[u8]) -> Result<Vec<u8>, Fault> {
    let module = read_module(ctx, text)?;
    print_operation(ctx, module.root, true)
}

// Whether a text that is read into a context of its own is printed as it is.
fn is_printed_again(alloc: Global, text: &[u8]) -> bool {
    let mut ctx = Context::new(alloc);
    let outcome = printed(&mut ctx, text);
    match context::end(ctx, outcome) {
        Ok(printed) => printed.as_slice() == text,
        Err(_) => false,
    }
}

// A module with locations.
const LOCATED: &[u8] =
    b"\"builtin.module\"() ({\n  \"t.a\"() ({\n  ^bb0(%arg0: i32 loc(\"f\":1:2)):\n    \"t.b\"(%arg0) : (i32) -> () loc(unknown)\n  }) : () -> () loc(\"f\":3:4)\n}) : () -> ()\n";

#[test]
fn modules_are_read_and_printed(rt: HostRuntime) {
    assert!(rt; is_printed_again(rt.alloc(), LOCATED));
}

// A module with two values, of which one is made of the other.
const TWO_VALUES: &[u8] =
    b"\"builtin.module\"() ({\n  %0 = \"t.c\"() : () -> i32\n  %1 = \"t.d\"(%0) : (i32) -> i32\n}) : () -> ()\n";

// A module one of whose operations has a key twice, spelled apart.
const KEY_TWICE: &[u8] =
    b"\"builtin.module\"() ({\n^bb0(%0: i32):\n  \"t.a\"(%0) : (i32) -> ()\n  \"t.b\"(%0) {x, \"x\"} : (i32) -> ()\n}) : () -> ()\n";

// The same with another key, so that its names can be told: they stand in the same rows.
const TWO_KEYS: &[u8] =
    b"\"builtin.module\"() ({\n^bb0(%0: i32):\n  \"t.a\"(%0) : (i32) -> ()\n  \"t.b\"(%0) {x, \"y\"} : (i32) -> ()\n}) : () -> ()\n";

// How many operations, blocks and regions there are.
fn live(ctx: &Context<Generic>) -> (usize, usize, usize) {
    let records = ctx.records();
    (
        records.ops.len(),
        records.blocks.len(),
        records.regions.len(),
    )
}

// Why the rows of a text aren't built with names that it hasn't.
fn refusal_of_names(ctx: &mut Context<Generic>) -> Option<BuildError> {
    let alloc = ctx.alloc();
    let tree = parse(alloc, KEY_TWICE).ok()?;
    let other = parse(alloc, TWO_KEYS).ok()?;
    let names = resolve(alloc, TWO_KEYS, other.rows.as_slice()).ok()?;
    build(ctx, KEY_TWICE, tree.rows.as_slice(), &names).err()
}

// Why a text isn't read for which the context has too few numbers of values.
fn refusal_of_values(ctx: &mut Context<Generic>) -> Option<Fault> {
    read_module(ctx, TWO_VALUES).err()
}

// Whether what can't be built is refused for its reason, and leaves as many operations, blocks and regions as before.
fn leaves_as_many(ctx: &mut Context<Generic>) -> bool {
    let before = live(ctx);
    let spent = Fault::Building(BuildError::Core(CoreError::CounterSpent));
    refusal_of_names(ctx) == Some(BuildError::NoTree)
        && live(ctx) == before
        && refusal_of_values(ctx) == Some(spent)
        && live(ctx) == before
}

// What is printed of a module behind a text that can't be built, where that leaves as many as before.
fn printed_beside_a_fault(ctx: &mut Context<Generic>) -> Result<Option<Vec<u8>>, Fault> {
    let module = read_module(ctx, LOCATED)?;
    if leaves_as_many(ctx) && module.root.is_live(ctx) {
        Ok(Some(print_operation(ctx, module.root, true)?))
    } else {
        Ok(None)
    }
}

// Refuses building that leaves something behind under an error, or takes what was there.
#[test]
fn errors_leave_what_was_there(rt: HostRuntime) -> Result<(), Fail> {
    let limits = Limits {
        values: 3,
        uses: 100,
        slots: 100,
        last_version: 9,
    };
    let mut ctx = Context::with_limits(rt.alloc(), limits);
    let outcome = printed_beside_a_fault(&mut ctx);
    let printed = context::end(ctx, outcome)?;
    assert!(rt; printed.is_some_and(|text| text.as_slice() == LOCATED));
    Ok(())
}
